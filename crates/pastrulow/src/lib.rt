// The door for a host in C, which sees each slice as a pointer and then a length. A call answers in the 32 lent bytes and returns the refusal
// number, or 0; where the answer bytes are not 32, it returns 1 and touches nothing. A call for many answers in 32 bytes a pair, and returns 10 or 0.
#![tactic(auto)]

ghost use Rattle.std.specs.Prelude.{◌≡◌, ◌≢◌, length};
ghost use Rattle.std.specs.Fn.{FnOnceReturnsAtMut};
ghost use Rattle.rules.specs.Memory.{both};
ghost use Rattle.rules.specs.Refusals.{start_with, start, translate, invlpg, invpcid, write_cr3, write_mode};
ghost use Rattle.journal.specs.Calls.{Clears, Reports};
ghost use Rattle.direct.specs.Contract.{TranslatesInto};
ghost use Rattle.many.specs.Contract.{TranslatesMany};
ghost use Rattle.records.specs.Record.{Recorded};
ghost use Rattle.refusals.specs.Refusal.{told as told_of};
ghost use Rattle.rules.specs.declared.Answer.{Answer};
ghost use Rattle.pastrulow.specs.Door.{Passes, version};

use refusals::refusal::Refusal;
use rules::Answer;
use translator::calls;

// The header has the same number, for a host to compare.
const VERSION: u64 = 5;

// The call is made on the image and its answer written, where the answer bytes are a record.
fn answered<F: FnOnce(&mut [u8]) -> Answer>(image: &mut [u8], answer: &mut [u8], call: F) -> u64
    requires { F.IsAlwaysCallable call }
    ensures turned_away { length answer.old ≢ 32 → (result ≡ 1) × ((answer.new ≡ answer.old) × (image.new ≡ image.old)) }
    ensures written { length answer.old ≡ 32 → (a : Answer) × FnOnceReturnsAtMut F.FnOnce call image.old a image.new × Recorded a answer.new result }
{
    if answer.len() != records::LENGTH {
        return Refusal::Record.number();
    }
    records::write_record(answer, call(image))
}

// The number that the host is told: a refusal's, or 0.
fn told(call: Result<(), Refusal>) -> u64
    ensures { result ≡ told_of call }
{
    match call {
        Ok(()) => 0,
        Err(refusal) => refusal.number(),
    }
}

// The width is the physical width M, 36 to 52.
#[unsafe(no_mangle)]
pub extern "C" fn pastrulow_start(image: &mut [u8], width: u64, answer: &mut [u8]) -> u64
    ensures { Passes (start width) answer.old answer.new image.old image.new result }
{
    answered(image, answer, |image| calls::start(image, width))
}

// The flags are those of a mode write.
#[unsafe(no_mangle)]
pub extern "C" fn pastrulow_start_with(
    image: &mut [u8],
    width: u64,
    flags: u64,
    answer: &mut [u8],
) -> u64
    ensures { Passes (start_with width flags) answer.old answer.new image.old image.new result }
{
    answered(
        image,
        answer,
        |image| calls::start_with(image, width, flags),
    )
}

// The kind is 0 for a read, 1 a write, 2 a fetch, by the supervisor; 3, 4, 5 for the same by the user. AC is set by any number but 0.
#[unsafe(no_mangle)]
pub extern "C" fn pastrulow_translate(
    image: &mut [u8],
    low: &mut [u8],
    high: &mut [u8],
    kind: u64,
    address: u64,
    ac: u64,
    answer: &mut [u8],
) -> u64
    ensures { TranslatesInto (translate kind address ac) answer.old answer.new image.old image.new (both low.old high.old) (both low.new high.new) result }
{
    told(direct::translate_into(image, low, high, kind, address, ac, answer))
}

// The pairs are of a kind and an address, 16 bytes each, and AC is 0; the answers are as many records.
#[unsafe(no_mangle)]
pub extern "C" fn pastrulow_translate_many(
    image: &mut [u8],
    low: &mut [u8],
    high: &mut [u8],
    pairs: &[u8],
    answers: &mut [u8],
) -> u64
    ensures { TranslatesMany pairs.now answers.old answers.new image.old image.new (both low.old high.old) (both low.new high.new) result }
{
    told(many::translate_many(image, low, high, pairs, answers))
}

#[unsafe(no_mangle)]
pub extern "C" fn pastrulow_invlpg(image: &mut [u8], address: u64, answer: &mut [u8]) -> u64
    ensures { Passes (invlpg address) answer.old answer.new image.old image.new result }
{
    answered(image, answer, |image| calls::invlpg(image, address))
}

// The kind is the type of INVPCID, 0 to 3.
#[unsafe(no_mangle)]
pub extern "C" fn pastrulow_invpcid(
    image: &mut [u8],
    kind: u64,
    pcid: u64,
    address: u64,
    answer: &mut [u8],
) -> u64
    ensures { Passes (invpcid kind pcid address) answer.old answer.new image.old image.new result }
{
    answered(
        image,
        answer,
        |image| calls::invpcid(image, kind, pcid, address),
    )
}

#[unsafe(no_mangle)]
pub extern "C" fn pastrulow_write_cr3(image: &mut [u8], value: u64, answer: &mut [u8]) -> u64
    ensures { Passes (write_cr3 value) answer.old answer.new image.old image.new result }
{
    answered(image, answer, |image| calls::write_cr3(image, value))
}

// The flags are bit 0 PG, 1 WP, 2 PGE, 3 PCIDE, 4 NXE, 5 SMEP, 6 SMAP.
#[unsafe(no_mangle)]
pub extern "C" fn pastrulow_write_mode(image: &mut [u8], flags: u64, answer: &mut [u8]) -> u64
    ensures { Passes (write_mode flags) answer.old answer.new image.old image.new result }
{
    answered(image, answer, |image| calls::write_mode(image, flags))
}

// The journal's two calls write no answer record: they return 9, or 0.
#[unsafe(no_mangle)]
pub extern "C" fn pastrulow_journal_clear(journal: &mut [u8]) -> u64
    ensures { Clears journal.old journal.new result }
{
    match journal::clear(journal) {
        Ok(()) => 0,
        Err(unfit) => unfit.number(),
    }
}

#[unsafe(no_mangle)]
pub extern "C" fn pastrulow_journal_report(
    journal: &mut [u8],
    address: u64,
    code: u64,
    root: u64,
) -> u64
    ensures { Reports address code root journal.old journal.new result }
{
    match journal::report(journal, address, code, root) {
        Ok(()) => 0,
        Err(unfit) => unfit.number(),
    }
}

#[unsafe(no_mangle)]
pub extern "C" fn pastrulow_version() -> u64
    ensures { result ≡ version }
{
    VERSION
}
