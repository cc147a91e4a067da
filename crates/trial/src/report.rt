// What a call came to, and the lines that are written of it.
ghost use Rattle.std.specs.Prelude.{◌≡◌, ◌==◌};
ghost use Rattle.trial.specs.Trial.{Tells, are_alike, tallied};

use rules::Answer;
use std::fmt;
use std::fmt::{InlineText, Write};

// An answer as the paper's record has it, without the page size.
#[derive(Clone, Copy, Debug, PartialEq, Eq)]
pub enum Told {
    Address { value: u64, read: u64 },
    Fault { code: u64, read: u64 },
    Refused { number: u64 },
    Done,
}

impl Told {
    // The address that was found.
    pub fn address(value: u64, read: u64) -> Told
        ensures { result ≡ Told.Address value read }
    {
        Self::Address { value, read }
    }

    // The fault of this code.
    pub fn fault(code: u64, read: u64) -> Told
        ensures { result ≡ Told.Fault code read }
    {
        Self::Fault { code, read }
    }
}

impl From<Answer> for Told {
    ghost from_gives = { Tells };

    fn from(answer: Answer) -> Told {
        match answer {
            Answer::Address { value, read, .. } => Told::Address { value, read },
            Answer::PageFault { code, read, .. } => Told::Fault { code, read },
            Answer::Refused { number } => Told::Refused { number },
            Answer::Done => Told::Done,
        }
    }
}

// A number in hex, in one part of a text.
#[derive(Clone, Copy)]
struct Hex(u64);

impl fmt::Display for Hex {
    fn fmt<W: fmt::Write>(&self, f: &mut fmt::Formatter<W>) -> fmt::Result {
        let x = self.0;
        f.write_str(InlineText::<18>::of(format_args!("0x{x:x}")).as_str())
    }
}

impl fmt::Display for Told {
    fn fmt<W: fmt::Write>(&self, f: &mut fmt::Formatter<W>) -> fmt::Result {
        match *self {
            Told::Address { value, read } => write!(f, "address {}, {read} read", Hex(value)),
            Told::Fault { code, read } => write!(f, "fault {}, {read} read", Hex(code)),
            Told::Refused { number } => write!(f, "refusal {}", Hex(number)),
            Told::Done => write!(f, "done"),
        }
    }
}

// How many lines have passed, and how many failed.
#[derive(Clone, Copy, Debug, PartialEq, Eq)]
pub struct Tally {
    pub passed: u64,
    pub failed: u64,
}

impl Tally {
    // One line more; the sums cannot wrap before 2^64 lines are written.
    fn count(&mut self, good: bool)
        ensures { self.new ≡ tallied good self.old }
    {
        if good {
            self.passed = self.passed.wrapping_add(1);
        } else {
            self.failed = self.failed.wrapping_add(1);
        }
    }
}

// Each part of a text goes out in a write of its own; one that fails is passed over.
#[derive(Drop)]
struct Parts<'a, R: Print> {
    rt: &'a R,
}

impl<'a, R: Print> Write for Parts<'a, R> {
    fn write_str(&mut self, s: &str) -> fmt::Result {
        let _ = self.rt.write_all(s.as_bytes());
        Ok(())
    }
}

// Where the lines go, and their tally.
#[derive(Drop)]
pub struct Report<'a, R: Print> {
    rt: &'a R,
    tally: Tally,
}

impl<'a, R: Print> Report<'a, R> {
    // Before the first line.
    pub fn new(rt: &'a R) -> Self
        ensures { result.tally ≡ record { passed = 0; failed = 0 } }
    {
        Report {
            rt,
            tally: Tally {
                passed: 0,
                failed: 0,
            },
        }
    }

    // What a line is written into.
    fn parts(&self) -> Parts<'a, R> {
        Parts { rt: self.rt }
    }

    // A line on what a call came to.
    pub fn call(&mut self, name: &str, expected: Told, came: Told)
        ensures { self.new.tally ≡ tallied (are_alike expected came) self.old.tally }
    {
        let _ = write!(self.parts(), "{name}: expected {expected}; came {came}");
        self.judge(expected == came);
    }

    // A line on what a word of the guest's holds.
    pub fn word(&mut self, name: &str, expected: u64, came: u64)
        ensures { self.new.tally ≡ tallied (expected == came) self.old.tally }
    {
        let _ = write!(
            self.parts(),
            "{name}: expected {}; came {}",
            Hex(expected),
            Hex(came)
        );
        self.judge(expected == came);
    }

    // The end of a line.
    fn judge(&mut self, good: bool)
        ensures { self.new.tally ≡ tallied good self.old.tally }
    {
        let end = if good { ": passed\n" } else { ": failed\n" };
        let _ = self.parts().write_str(end);
        self.tally.count(good);
    }

    // The last line.
    pub fn total(&self) {
        let _ = write!(
            self.parts(),
            "{} passed, {} failed\n",
            self.tally.passed,
            self.tally.failed
        );
    }
}
