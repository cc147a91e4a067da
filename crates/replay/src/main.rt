// Replays a trace from standard input: a line for each of its lines, then the totals. What is read and printed is the library's; here are the system's calls, a read
// and a write for each piece.
#![tactic(auto)]

ghost use Rattle.std.specs.Prelude.{◌≤◌, length, IfOk};
ghost use Rattle.replay.specs.Fed.{TakesAll};

use runs::Run;
use std::io;
use std::io::Read;

// How many bytes were read; a read that fails ends the input.
fn read_into<R: Read>(from: &mut R, input: &mut [u8]) -> usize
    ensures { result ≤ length input.new }
{
    from.read(input).unwrap_or(0)
}

// A piece goes in, and what it prints goes out, in as many writes as the room asks for. No byte of it is left out, unless a write fails.
fn feed_all<R: Print>(
    rt: &R,
    run: Run,
    image: &mut [u8],
    mem: &mut [u8],
    kept: &mut [u8; 53],
    piece: &[u8],
    out: &mut [u8],
) -> io::Result<Run>
    requires { 80 ≤ length out.old }
    ensures { IfOk result (TakesAll run image.old image.new mem.old mem.new kept.old kept.new piece.now) }
{
    let mut run = run;
    let mut at = 0;
    while at < piece.len() {
        let fed = runs::feed(run, image, mem, kept, &piece[at..], out);
        rt.write_all(&out[..fed.written])?;
        run = fed.run;
        if fed.taken == 0 {
            break;
        }
        at += fed.taken;
    }
    Ok(run)
}

// The last line, if it lacks its end, and the totals.
fn finish<R: Print>(
    rt: &R,
    run: Run,
    image: &mut [u8; 2048],
    mem: &mut [u8; 65536],
    kept: &mut [u8; 53],
) -> io::Result<()> {
    let mut out = [0u8; 160];
    let n = runs::finish(run, image, mem, kept, &mut out);
    rt.write_all(&out[..n])
}

// Piece by piece, until the input ends or enough lines were read. After a write that fails nothing more is written.
fn replay<R: Input + Print>(rt: &R) -> io::Result<()> {
    let mut image = [0u8; 2048];
    let mut mem = [0u8; 65536];
    let mut kept = [0u8; 53];
    let mut out = [0u8; 65536];
    let mut input = [0u8; 65536];
    let mut from = rt.reader();
    let mut run = runs::begin();
    // Nothing says that the input ends: a count lets the program do so.
    for _ in 0..u64::MAX {
        let n = read_into(&mut from, &mut input);
        if n == 0 {
            break;
        }
        run = feed_all(
            rt,
            run,
            &mut image,
            &mut mem,
            &mut kept,
            &input[..n],
            &mut out,
        )?;
        if runs::MOST <= run.lines {
            break;
        }
    }
    finish(rt, run, &mut image, &mut mem, &mut kept)
}

fn main(rt: HostRuntime) {
    // An output that lacks its last line is seen not to be whole.
    let _ = replay(&rt);
}
