// A run over an input that comes in pieces of any size. Of a line that has no end yet so many bytes are kept as show that it is too long to be good, so that an
// input of any length takes the same memory.
#![tactic(auto)]

ghost use Rattle.std.specs.Prelude.{◌+◌, ◌≤◌, ◌<◌, ◌≡◌, length};
ghost use Rattle.trace.specs.Trace.{most};
ghost use Rattle.runs.specs.Feeding.{begins, Keeps, Gathers, text_of, Ends, Bounded, goes_on, Ready, Turns, Feeds, Finishes};

use lines::ROOM;
use records::Record;
use trace::Totals;

// So many bytes are kept of a line: a good one has fewer.
pub const ENOUGH: usize = 53;

// Reading stops after so many lines.
pub const MOST: u64 = 0xFFFF_FFFF;

// What a run has come to, beside the bytes that are lent to it: how many bytes of a line are kept, how many lines were, and the totals. Plain numbers, since
// a piece is taken from any run.
#[derive(Clone, Copy, Default)]
pub struct Run {
    pub kept: usize,
    pub lines: u64,
    pub totals: Totals,
}

// A run after a line, and the place after what is printed.
#[derive(Clone, Copy)]
struct Ended {
    run: Run,
    written: usize,
}

// A run after a piece: how many of its bytes were taken, and how many printed.
#[derive(Clone, Copy)]
pub struct Fed {
    pub run: Run,
    pub taken: usize,
    pub written: usize,
}

// Before the first line.
pub fn begin() -> Run
    ensures { result ≡ begins }
{
    Run::default()
}

// More bytes of a line, as many as there is room for; returns how many are kept then.
fn keep(kept: &mut [u8; 53], count: usize, part: &[u8]) -> usize
    requires { count ≤ 53 }
    ensures { Keeps kept.old count part.now kept.new result }
{
    let n = part.len().min(ENOUGH - count);
    kept[count..count + n].copy_from_slice(&part[..n]);
    count + n
}

// The rest of a line that ends here: kept only where its start is.
fn gather(kept: &mut [u8; 53], count: usize, part: &[u8]) -> usize
    requires { count ≤ 53 }
    ensures { Gathers kept.old count part.now kept.new result }
{
    if count == 0 {
        return 0;
    }
    keep(kept, count, part)
}

// The line's text: where nothing of it is kept, it stands in the piece.
fn text_of<'a>(kept: &'a [u8], n: usize, part: &'a [u8]) -> &'a [u8]
    requires { n ≤ length kept.now }
    ensures { result.now ≡ text_of kept.now n part.now }
{
    if n == 0 {
        return part;
    }
    &kept[..n]
}

// A line ends: it is done, and its answer is counted.
fn end_line(
    run: Run,
    image: &mut [u8],
    mem: &mut [u8],
    text: &[u8],
    out: &mut [u8],
    at: usize,
) -> Ended
    requires { (run.lines < most) × (at + 80 ≤ length out.old) }
    ensures { Ends run image.old image.new mem.old mem.new text.now out.old out.new at result }
{
    let mut answer = [0u8; 32];
    let lines = run.lines + 1;
    let n = lines::line(text, lines, image, mem, &mut answer, &mut out[at..]);
    let mut totals = run.totals;
    totals.count(Record::read_from(&answer));
    Ended {
        run: Run {
            kept: 0,
            lines,
            totals,
        },
        written: at + n,
    }
}

// One turn: the bytes of a piece up to a line's end, and that line; or up to the piece's own end.
fn turn(
    fed: Fed,
    image: &mut [u8],
    mem: &mut [u8],
    kept: &mut [u8; 53],
    piece: &[u8],
    out: &mut [u8],
) -> Fed
    requires { Ready fed kept.old piece.now out.old }
    ensures { Turns fed image.old image.new mem.old mem.new kept.old kept.new piece.now out.old out.new result }
{
    let run = fed.run;
    let at = reading::line_end(piece, fed.taken);
    let part = &piece[fed.taken..at];
    if at == piece.len() {
        let n = keep(kept, run.kept, part);
        return Fed {
            run: Run { kept: n, ..run },
            taken: at,
            ..fed
        };
    }
    let n = gather(kept, run.kept, part);
    let text = text_of(kept, n, part);
    let ended = end_line(run, image, mem, text, out, fed.written);
    Fed {
        run: ended.run,
        taken: at + 1,
        written: ended.written,
    }
}

// A run of which no more is kept than there is room for.
fn bounded(run: Run) -> Run
    ensures { Bounded run result }
{
    Run {
        kept: run.kept.min(ENOUGH),
        ..run
    }
}

// Whether another turn can be made: there are bytes to take, room for a line, and lines to read.
fn goes_on(fed: Fed, piece: &[u8], out: &[u8]) -> bool
    requires { fed.written ≤ length out.now }
    ensures { result ≡ goes_on fed piece.now out.now }
{
    (fed.taken < piece.len()) & (ROOM <= out.len() - fed.written) & (fed.run.lines < MOST)
}

// Turn by turn.
fn turns(
    run: Run,
    image: &mut [u8],
    mem: &mut [u8],
    kept: &mut [u8; 53],
    piece: &[u8],
    out: &mut [u8],
) -> Fed
    requires { run.kept ≤ 53 }
    ensures { Feeds run image.old image.new mem.old mem.new kept.old kept.new piece.now out.old out.new result }
{
    let mut fed = Fed {
        run,
        taken: 0,
        written: 0,
    };
    while goes_on(fed, piece, out) {
        fed = turn(fed, image, mem, kept, piece, out);
    }
    fed
}

// A piece of the input: as much as is printed into the lent bytes. Nothing is taken where they have less than ROOM, or after the last line that is read.
pub fn feed(
    run: Run,
    image: &mut [u8],
    mem: &mut [u8],
    kept: &mut [u8; 53],
    piece: &[u8],
    out: &mut [u8],
) -> Fed
    ensures { Feeds run image.old image.new mem.old mem.new kept.old kept.new piece.now out.old out.new result }
{
    turns(bounded(run), image, mem, kept, piece, out)
}

// The last line, if it lacks its end, which it is given; and the totals.
fn close(
    run: Run,
    image: &mut [u8],
    mem: &mut [u8],
    kept: &mut [u8; 53],
    out: &mut [u8; 160],
) -> usize
    requires { run.kept ≤ 53 }
    ensures { Finishes run image.old image.new mem.old mem.new kept.old out.new result }
{
    if run.kept == 0 {
        return printing::put_totals(out, 0, run.totals);
    }
    let fed = turns(run, image, mem, kept, b"\n", out);
    printing::put_totals(out, fed.written, fed.run.totals)
}

// The input's end: the last line may lack its own; then the totals.
pub fn finish(
    run: Run,
    image: &mut [u8],
    mem: &mut [u8],
    kept: &mut [u8; 53],
    out: &mut [u8; 160],
) -> usize
    ensures { Finishes run image.old image.new mem.old mem.new kept.old out.new result }
{
    close(bounded(run), image, mem, kept, out)
}
