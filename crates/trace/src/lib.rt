// The types and separators that request W-206 names, by value. What a trace means is said in specs/.

#![tactic(auto)]

ghost use Rattle.std.specs.Prelude.{◌≡◌};
ghost use Rattle.records.specs.Record.{words_of};
ghost use Rattle.trace.specs.Totals.{more as more_of, counted as counted_of};

use records::Record;

// What parts a line's fields, and what ends a line.
pub const TAB: u8 = b'\t';

pub const FEED: u8 = b'\n';

// The kind of a bad line's answer, a fifth one, which no call gives.
pub const BAD: u64 = 4;

// What a line asks for.
#[derive(Clone, Copy)]
pub enum Order {
    Start { width: u64 },
    Mode { flags: u64 },
    Cr3 { value: u64 },
    Invlpg { address: u64 },
    Invpcid { kind: u64, pcid: u64, address: u64 },
    Translate { kind: u64, address: u64 },
    Put { address: u64, word: u64 },
}

// What is counted over a trace.
#[derive(Clone, Copy, Default)]
pub struct Totals {
    // Translations that gave an address.
    pub addresses: u64,
    // Those of them with paging on and no entry read.
    pub hits: u64,
    pub faults: u64,
    pub refused: u64,
}

// A count with one more if it is so.
fn more(b: bool, n: u64) -> u64
    ensures { result ≡ more_of b n }
{
    n.wrapping_add(u64::from(b))
}

impl Totals {
    // With one answer more, by its kind, page size and entries read.
    pub fn counted(self, answer: Record) -> Totals
        ensures { result ≡ counted_of self (words_of answer) }
    {
        let is_address = answer.kind == records::ADDRESS;
        let is_hit = is_address & (answer.size != 0) & (answer.read == 0);
        Totals {
            addresses: more(is_address, self.addresses),
            hits: more(is_hit, self.hits),
            faults: more(answer.kind == records::FAULT, self.faults),
            refused: more(answer.kind == records::REFUSED, self.refused),
        }
    }

    // The same in place.
    pub fn count(&mut self, answer: Record)
        ensures { self.new ≡ counted_of self.old (words_of answer) }
    {
        *self = self.counted(answer);
    }
}
