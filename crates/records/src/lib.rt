// The answer record: an answer as four words, in 32 lent bytes.
#![tactic(auto)]

ghost use Rattle.std.specs.Prelude.{◌≡◌, ◌≤◌, length};
ghost use Rattle.rules.specs.Answers.{numbers};
ghost use Rattle.records.specs.Record.{Holds, Recorded, words_of, record_at};

use rules::Answer;

// The length of a record.
pub const LENGTH: usize = 32;

// The kinds of answer, as a record's first word has them.
pub const ADDRESS: u64 = 0;

pub const FAULT: u64 = 1;

pub const REFUSED: u64 = 2;

pub const DONE: u64 = 3;

// A record's four words: what an answer of its kind does not have is 0.
#[derive(Clone, Copy, Default)]
pub struct Record {
    pub kind: u64,
    pub value: u64,
    pub size: u64,
    pub read: u64,
}

impl Record {
    // The four words, one after the other.
    pub fn write(self, answer: &mut [u8])
        requires { length answer.old ≡ 32 }
        ensures { Holds (words_of self) answer.new }
    {
        words::write_word(answer, 0, self.kind);
        words::write_word(answer, 8, self.value);
        words::write_word(answer, 16, self.size);
        words::write_word(answer, 24, self.read);
    }

    // The record that stands in these bytes.
    pub fn read_from(answer: &[u8]) -> Record
        requires { 32 ≤ length answer.now }
        ensures { result ≡ record_at answer.now }
    {
        Record {
            kind: words::read_word(answer, 0),
            value: words::read_word(answer, 8),
            size: words::read_word(answer, 16),
            read: words::read_word(answer, 24),
        }
    }
}

impl From<Answer> for Record {
    ghost from_gives = { λ answer words. words_of words ≡ numbers answer };

    fn from(answer: Answer) -> Record {
        match answer {
            Answer::Address { value, size, read } => Record {
                kind: ADDRESS,
                value,
                size,
                read,
            },
            Answer::PageFault { code, read, .. } => Record {
                kind: FAULT,
                value: code,
                read,
                ..Record::default()
            },
            Answer::Refused { number } => Record {
                kind: REFUSED,
                value: number,
                ..Record::default()
            },
            Answer::Done => Record {
                kind: DONE,
                ..Record::default()
            },
        }
    }
}

// An answer is written as its record; a refusal's number is returned.
pub fn write_record(answer: &mut [u8], a: Answer) -> u64
    requires { length answer.old ≡ 32 }
    ensures { Recorded a answer.new result }
{
    Record::from(a).write(answer);
    match a {
        Answer::Refused { number } => number,
        _ => 0,
    }
}
