// A trace's lines, written into lent bytes.
#![tactic(auto)]

ghost use Rattle.std.specs.Prelude.{◌≡◌, [], ◌∷◌, ◌++◌, map, take, ◌+◌, ◌≤◌, ◌<◌, length};
ghost use Rattle.records.specs.Record.{words_of};
ghost use Rattle.trace.specs.Text.{tab};
ghost use Rattle.trace.specs.Numbers.{digits, byte_of, hex_of};
ghost use Rattle.trace.specs.Printed.{joined, word_for, printed, total_line};
ghost use Rattle.printing.specs.Puts.{Puts};
ghost use Rattle.printing.specs.Parts.{Counts, Holds};

use records::Record;
use trace::{FEED, TAB, Totals};

// A word and a tab at the start of eight bytes; what stands after them does not count.
#[derive(Clone, Copy)]
struct Word {
    text: [u8; 8],
    length: usize,
}

// A digit's byte: letters, from 10 on, stand 39 further on than figures. No test, since this runs for each digit.
fn byte(d: u64) -> u8
    requires { d < 16 }
    ensures { result ≡ byte_of d }
{
    (48 + d + (d + 6) / 16 * 39) as u8
}

// How many digits a number has that is not 0: one for each four bits up to the highest that is set.
fn count(x: u64) -> usize
    requires { 0 < x }
    ensures { Counts x result }
{
    x.ilog2() as usize / 4 + 1
}

// The n lowest digits, from the last to the first.
fn put_digits(out: &mut [u8], at: usize, n: usize, x: u64)
    requires { at + n ≤ length out.old }
    ensures { Puts out.old out.new at (map byte_of (digits n x)) (at + n) }
{
    let mut rest = x;
    for i in (0..n).rev() {
        out[at + i] = byte(rest % 16);
        rest /= 16;
    }
}

// A number without leading zeros, and the byte after it. One digit is written at once, since most numbers of a line have one.
fn put_hex(out: &mut [u8], at: usize, x: u64, end: u8) -> usize
    requires { at + 17 ≤ length out.old }
    ensures { Puts out.old out.new at (hex_of x ++ (end ∷ [])) result × (result ≤ at + 17) }
{
    if x < 16 {
        out[at] = byte(x);
        out[at + 1] = end;
        return at + 2;
    }
    let n = count(x);
    put_digits(out, at, n, x);
    out[at + n] = end;
    at + n + 1
}

impl Word {
    // Of each kind: address, fault, refused, done, bad.
    fn of(kind: u64) -> Word
        ensures { Holds (word_for kind ++ (tab ∷ [])) result }
    {
        match kind {
            records::ADDRESS => Word {
                text: *b"address\t",
                length: 8,
            },
            records::FAULT => Word {
                text: *b"fault\t  ",
                length: 6,
            },
            records::REFUSED => Word {
                text: *b"refused\t",
                length: 8,
            },
            records::DONE => Word {
                text: *b"done\t   ",
                length: 5,
            },
            _ => Word {
                text: *b"bad\t    ",
                length: 4,
            },
        }
    }

    // What stands before the totals.
    fn of_totals() -> Word
        ensures { Holds (116 ∷ 111 ∷ 116 ∷ 97 ∷ 108 ∷ tab ∷ []) result }
    {
        Word {
            text: *b"total\t  ",
            length: 6,
        }
    }

    // The word and its tab. All eight bytes are stored, which is one store.
    fn put(self, out: &mut [u8], at: usize) -> usize
        requires room { at + 8 ≤ length out.old }
        requires few { self.length ≤ 8 }
        ensures { Puts out.old out.new at (take self.length self.text) result × (result ≤ at + 8) }
    {
        out[at..at + 8].copy_from_slice(&self.text);
        at + self.length
    }
}

// The last three numbers of a line, and its end.
fn put_three(out: &mut [u8], at: usize, first: u64, second: u64, third: u64) -> usize
    requires { at + 51 ≤ length out.old }
    ensures { Puts out.old out.new at (joined (hex_of first) (hex_of second ∷ hex_of third ∷ [])) result }
{
    let a = put_hex(out, at, first, TAB);
    let b = put_hex(out, a, second, TAB);
    put_hex(out, b, third, FEED)
}

// An answer's line: its number, the word for its kind, its value, the page size, the entries read.
pub fn put_line(out: &mut [u8], at: usize, number: u64, answer: Record) -> usize
    requires { at + 80 ≤ length out.old }
    ensures { Puts out.old out.new at (printed number (words_of answer)) result }
{
    let a = put_hex(out, at, number, TAB);
    let b = Word::of(answer.kind).put(out, a);
    put_three(out, b, answer.value, answer.size, answer.read)
}

// The line of the totals.
pub fn put_totals(out: &mut [u8], at: usize, t: Totals) -> usize
    requires { at + 80 ≤ length out.old }
    ensures { Puts out.old out.new at (total_line t) result }
{
    let a = Word::of_totals().put(out, at);
    let b = put_hex(out, a, t.addresses, TAB);
    put_three(out, b, t.hits, t.faults, t.refused)
}
