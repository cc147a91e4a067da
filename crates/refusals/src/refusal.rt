// Why a call is refused.
ghost use Rattle.std.specs.Prelude.{◌≡◌};
ghost use Rattle.rules.specs.declared.Answer.TheVariants.{Refused};
ghost use Rattle.refusals.specs.Refusal.{number_of};

use rules::Answer;
use std::error::Error;
use std::fmt;

// The refusals of the translator's calls, by their numbers in the header. Number 9 is the journal's.
#[derive(Clone, Copy, Debug, PartialEq, Eq)]
pub enum Refusal {
    Record = 1,
    Image = 2,
    Kind = 3,
    Memory = 4,
    Address = 5,
    Cr3 = 6,
    Mode = 7,
    Invpcid = 8,
    Pairs = 10,
}

impl Refusal {
    // The number that the host is told.
    pub fn number(self) -> u64
        ensures { result ≡ number_of self }
    {
        self as u64
    }
}

impl fmt::Display for Refusal {
    fn fmt<W: fmt::Write>(&self, f: &mut fmt::Formatter<W>) -> fmt::Result {
        f.write_str(match self {
            Refusal::Record => "the answer bytes are no record",
            Refusal::Image => "the bytes are no image, or the width is none",
            Refusal::Kind => "there is no such kind of access",
            Refusal::Memory => "guest memory is not whole pages, or its lower part is too long",
            Refusal::Address => "the address is none that can be translated",
            Refusal::Cr3 => "CR3 takes no such value",
            Refusal::Mode => "there is no such mode to go to",
            Refusal::Invpcid => "there is no such invalidation",
            Refusal::Pairs =>
                "the bytes are no pairs, or the answer bytes are not a record for each",
        })
    }
}

impl Error for Refusal {}

impl From<Refusal> for Answer {
    ghost from_gives = { λ refusal answer. answer ≡ Refused (number_of refusal) };

    fn from(refusal: Refusal) -> Answer {
        Answer::Refused {
            number: refusal.number(),
        }
    }
}
