// Lines of a trace, read: where one ends, and what it asks for, a letter and one to three numbers in hex digits.
#![tactic(auto)]

ghost use Rattle.std.specs.Prelude.{◌≡◌, ◌≤◌, ◌==◌, length, position};
ghost use Rattle.trace.specs.Text.{feed};
ghost use Rattle.trace.specs.Orders.{with_one, with_two, with_three, order_of};
ghost use Rattle.reading.specs.Fields.{end_at, digit_in, ended as ended_of, field_at};

use trace::{FEED, Order, TAB};

// A field's number, and where the next field starts: after the tab, or past the line's end by one.
#[derive(Clone, Copy)]
struct Number {
    value: u64,
    next: usize,
}

// How many bytes stand before the first line feed, if there is one.
fn before_feed(text: &[u8]) -> Option<usize>
    ensures { result ≡ position (λ b. b == feed) text.now }
{
    text.iter().position(|b| *b == FEED)
}

// Where the line ends that starts at an index: at its line feed, or at the text's end.
pub fn line_end(text: &[u8], from: usize) -> usize
    ensures { result ≡ end_at feed text.now from }
{
    match text.get(from..) {
        Some(rest) => from + before_feed(rest).unwrap_or(rest.len()),
        None => from,
    }
}

// The value of a hex digit. By numbers, with one test for the letters of both cases, since this runs for each digit.
fn digit(b: u8) -> Option<u64>
    ensures { result ≡ digit_in b }
{
    let x = b as u64;
    if (48 <= x) & (x <= 57) {
        return Some(x - 48);
    }
    // Bit 5 tells the two cases of a letter apart.
    let upper = x / 64 * 64 + x % 32;
    if (65 <= upper) & (upper <= 70) {
        return Some(upper - 55);
    }
    None
}

// A field of n digits ends.
fn ended(value: u64, n: usize, next: usize) -> Option<Number>
    ensures { result ≡ ended_of value n next }
{
    if (0 < n) & (n <= 16) {
        Some(Number { value, next })
    } else {
        None
    }
}

// The field from an index on. Its value is kept in 64 bits: what a seventeenth digit pushes out is never asked for.
fn field(line: &[u8], from: usize) -> Option<Number>
    requires { from ≤ length line.now }
    ensures { result ≡ field_at line.now from }
{
    let mut value: u64 = 0;
    let mut i = from;
    while i < line.len() {
        let Some(d) = digit(line[i]) else {
            break;
        };
        value = value % 0x1000_0000_0000_0000 * 16 + d;
        i += 1;
    }
    if i < line.len() && line[i] != TAB {
        return None;
    }
    ended(value, i - from, i + 1)
}

fn with_one(letter: u8, x: u64) -> Option<Order>
    ensures { result ≡ with_one letter x }
{
    match letter {
        b'S' => Some(Order::Start { width: x }),
        b'M' => Some(Order::Mode { flags: x }),
        b'C' => Some(Order::Cr3 { value: x }),
        b'I' => Some(Order::Invlpg { address: x }),
        _ => None,
    }
}

fn with_two(letter: u8, x: u64, y: u64) -> Option<Order>
    ensures { result ≡ with_two letter x y }
{
    match letter {
        b'T' => Some(Order::Translate {
            kind: x,
            address: y,
        }),
        b'P' => Some(Order::Put {
            address: x,
            word: y,
        }),
        _ => None,
    }
}

fn with_three(letter: u8, x: u64, y: u64, z: u64) -> Option<Order>
    ensures { result ≡ with_three letter x y z }
{
    match letter {
        b'V' => Some(Order::Invpcid {
            kind: x,
            pcid: y,
            address: z,
        }),
        _ => None,
    }
}

// What a line asks for: its letter, then its numbers, each after one tab. Every good line has a number, so its second byte is a tab. That the first is a letter, and
// no tab, is seen to by the orders.
pub fn order(line: &[u8]) -> Option<Order>
    ensures { result ≡ order_of line.now }
{
    if line.len() < 2 {
        return None;
    }
    if line[1] != TAB {
        return None;
    }
    let letter = line[0];
    let x = field(line, 2)?;
    if line.len() < x.next {
        return with_one(letter, x.value);
    }
    let y = field(line, x.next)?;
    if line.len() < y.next {
        return with_two(letter, x.value, y.value);
    }
    let z = field(line, y.next)?;
    if line.len() < z.next {
        return with_three(letter, x.value, y.value, z.value);
    }
    None
}
