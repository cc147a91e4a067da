// One line of a trace: what it asks for is done, and its answer is printed.
#![tactic(auto)]

ghost use Rattle.std.specs.Prelude.{◌≡◌, length};
ghost use Rattle.records.specs.Record.{Holds};
ghost use Rattle.trace.specs.Does.{does, is_place, line_does};
ghost use Rattle.lines.specs.Line.{Gives, Stores, Lines};

use records::{DONE, Record};
use trace::{BAD, Order};
use translator::calls;

// A line is done only where there is this much room: more than any has that is printed.
pub const ROOM: usize = 80;

// Whether a word of the guest's can stand at an address.
fn is_place(mem: &[u8], a: u64) -> bool
    ensures { result ≡ is_place mem.now a }
{
    if mem.len() < 8 {
        return false;
    }
    (a % 8 == 0) & (a <= (mem.len() - 8) as u64)
}

// An answer of a kind that has no numbers.
fn put_kind(answer: &mut [u8], kind: u64)
    requires { length answer.old ≡ 32 }
    ensures { Holds (record { kind = kind; value = 0; size = 0; read = 0 }) answer.new }
{
    let record = Record {
        kind,
        ..Record::default()
    };
    record.write(answer);
}

// A word is stored, or the line is bad.
fn store(mem: &mut [u8], answer: &mut [u8], a: u64, word: u64)
    requires { length answer.old ≡ 32 }
    ensures { Stores mem.old mem.new a word answer.new }
{
    if is_place(mem, a) {
        words::write_word(mem, a as usize, word);
        put_kind(answer, DONE);
        return;
    }
    put_kind(answer, BAD);
}

// What is asked for is done, and answered in a record.
fn perform(order: Order, image: &mut [u8], mem: &mut [u8], answer: &mut [u8])
    requires { length answer.old ≡ 32 }
    ensures { Gives (does (Some order) image.old mem.old) answer.new image.new mem.new }
{
    match order {
        Order::Start { width } => {
            // A trace starts with no flag on.
            records::write_record(answer, calls::start_with(image, width, 0));
        }
        Order::Mode { flags } => {
            records::write_record(answer, calls::write_mode(image, flags));
        }
        Order::Cr3 { value } => {
            records::write_record(answer, calls::write_cr3(image, value));
        }
        Order::Invlpg { address } => {
            records::write_record(answer, calls::invlpg(image, address));
        }
        Order::Invpcid {
            kind,
            pcid,
            address,
        } => {
            records::write_record(answer, calls::invpcid(image, kind, pcid, address));
        }
        Order::Translate { kind, address } => {
            // The guest has no RAM above the hole.
            let mut high = [0u8; 0];
            let _ = direct::translate_into(image, mem, &mut high, kind, address, 0, answer);
        }
        Order::Put { address, word } => store(mem, answer, address, word),
    }
}

// What a line asks for, if it is good.
fn perform_line(text: &[u8], image: &mut [u8], mem: &mut [u8], answer: &mut [u8])
    requires { length answer.old ≡ 32 }
    ensures { Gives (line_does text.now image.old mem.old) answer.new image.new mem.new }
{
    match reading::order(text) {
        Some(order) => perform(order, image, mem, answer),
        None => put_kind(answer, BAD),
    }
}

// A line: its text is read, what it asks for is done and answered in a record, and what is printed of it stands at the start of the lent bytes; returns how many these
// are. With less room than ROOM nothing is done.
pub fn line(
    text: &[u8],
    number: u64,
    image: &mut [u8],
    mem: &mut [u8],
    answer: &mut [u8; 32],
    out: &mut [u8],
) -> usize
    ensures { Lines text.now number image.old image.new mem.old mem.new answer.old answer.new out.old out.new result }
{
    if out.len() < ROOM {
        return 0;
    }
    perform_line(text, image, mem, answer);
    printing::put_line(out, 0, number, Record::read_from(answer))
}
