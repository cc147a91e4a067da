// The fault journal of request W-202: faults are reported to 2,624 lent bytes, which keep the first report of each, how often it came again, and how
// many were lost.
#![tactic(auto)]

ghost use Rattle.std.specs.Prelude.{◌≡◌, not, ◌||◌, [], ◌∷◌, ◌+◌, ◌≤◌, ◌<◌, cond, ltb, length, is_err};
ghost use Rattle.rules.specs.Bits.{word_at, word_put, bytes_of_all};
ghost use Rattle.journal.specs.Journal.{is_same, limit, encode, decode, IsJournal};
ghost use Rattle.journal.specs.Step.{more as moreOf, counted, again as againOf, kept, missed, report as reportOf};
ghost use Rattle.journal.specs.Calls.{is_long, is_over, is_unfit, number_of, Clears, Reports};
ghost use Rattle.journal.specs.Parts.{Fit, Finds};

use std::error::Error;
use std::fmt;

// The journal's length, and how many records it has.
const LENGTH: usize = 2624;

const RECORDS: usize = 64;

// Where all counts stop.
const LIMIT: u64 = 0xFFFF_FFFF;

// The number of the refusal of both calls.
const REFUSED: u64 = 9;

// A fault, by what makes two reports of it equal: the number of the page, the fault's code, the root of the tables.
#[derive(Clone, Copy, Debug, PartialEq, Eq)]
pub struct Fault {
    pub page: u64,
    pub code: u64,
    pub root: u64,
}

// The refusal of both calls: the bytes that were lent are no journal, or none that can be reported to.
#[derive(Clone, Copy, Debug, PartialEq, Eq)]
pub struct Unfit;

impl Unfit {
    // The number that a host is given for it.
    pub fn number(self) -> u64
        ensures { result ≡ 9 }
    {
        REFUSED
    }
}

impl fmt::Display for Unfit {
    fn fmt<W: fmt::Write>(&self, f: &mut fmt::Formatter<W>) -> fmt::Result {
        write!(f, "no journal that can be reported to")
    }
}

impl Error for Unfit {}

// A count with one more.
fn more(n: u64) -> u64
    ensures { result ≡ moreOf n }
{
    if n < LIMIT { n + 1 } else { LIMIT }
}

// How often record i came again.
#[tactic(auto, using(crate::proofs::Refusing::repeats_read))]
fn repeats_of(journal: &[u8], i: usize) -> u64
    requires { (length journal.now ≡ 2624) × (i < 64) }
    ensures { result ≡ ((decode journal.now).records i).repeats }
{
    words::read_word(journal, 96 + i * 40)
}

// Counts and the repeats of all held records or-ed together, with no early exit: above the limit exactly if one of them is.
#[tactic(auto, using(crate::proofs::Refusing::one_gathered))]
fn gather(journal: &[u8], counts: u64, held: usize) -> u64
    requires { (length journal.now ≡ 2624) × (held ≤ 64) }
    ensures { ltb limit result ≡ (ltb limit counts || is_over held (decode journal.now).records) }
{
    let mut acc = counts;
    for i in 0..held {
        acc |= repeats_of(journal, i);
    }
    acc
}

// Bytes of another length are no journal.
fn long(journal: &[u8]) -> Result<(), Unfit>
    ensures { is_err result ≡ not (is_long journal.now) }
{
    if journal.len() != LENGTH {
        return Err(Unfit);
    }
    Ok(())
}

// What is no journal to report to is refused: by its length, the number of records that it holds, a count, or the repeats of one of them.
#[tactic(auto, using(crate::proofs::Refusing::too_many, crate::proofs::Refusing::one_over, crate::proofs::Refusing::none_over))]
fn fit(journal: &[u8]) -> Result<(), Unfit>
    ensures { is_err result ≡ is_unfit journal.now }
{
    long(journal)?;
    let held = words::read_word(journal, 0) as usize;
    if RECORDS < held {
        return Err(Unfit);
    }
    let counts = words::read_word(journal, 8) | words::read_word(journal, 16);
    if LIMIT < gather(journal, counts, held) {
        return Err(Unfit);
    }
    Ok(())
}

// The fault of record i.
#[tactic(auto, using(crate::proofs::Finding::fault_read))]
fn fault_at(journal: &[u8], i: usize) -> Fault
    requires { (length journal.now ≡ 2624) × (i < 64) }
    ensures { result ≡ ((decode journal.now).records i).fault }
{
    let at = 64 + i * 40;
    Fault {
        page: words::read_word(journal, at),
        code: words::read_word(journal, at + 8),
        root: words::read_word(journal, at + 16),
    }
}

// Whether record i is of this fault.
fn is_of(journal: &[u8], i: usize, fault: Fault) -> bool
    requires { (length journal.now ≡ 2624) × (i < 64) }
    ensures { result ≡ is_same ((decode journal.now).records i).fault fault }
{
    fault_at(journal, i) == fault
}

// A place that was found, if it is a held record's.
fn if_held(i: usize, held: usize) -> Option<usize>
    ensures { result ≡ cond (ltb i held) (Some i) None }
{
    if i < held { Some(i) } else { None }
}

// The first held record of this fault, four at a time. One that is found behind those held tells that none of them is.
#[tactic(auto, using(crate::proofs::Finding::at_fourth, crate::proofs::Finding::four_passed))]
fn find(journal: &[u8], held: usize, fault: Fault) -> Option<usize>
    requires { (length journal.now ≡ 2624) × ((held ≡ (decode journal.now).held) × (held ≤ 64)) }
    ensures { Finds fault (decode journal.now) result }
{
    for four in 0..held.div_ceil(4) {
        let i = 4 * four;
        if is_of(journal, i, fault) {
            return Some(i);
        }
        if is_of(journal, i + 1, fault) {
            return if_held(i + 1, held);
        }
        if is_of(journal, i + 2, fault) {
            return if_held(i + 2, held);
        }
        if is_of(journal, i + 3, fault) {
            return if_held(i + 3, held);
        }
    }
    None
}

// The count at a place goes up by one.
fn count(journal: &mut [u8], at: usize)
    requires { at + 8 ≤ length journal.old }
    ensures { journal.new ≡ word_put journal.old at (moreOf (word_at journal.old at)) }
{
    let n = more(words::read_word(journal, at));
    words::write_word(journal, at, n);
}

// Every report is counted.
#[tactic(auto, using(crate::proofs::Reporting::report_counted))]
fn count_report(journal: &mut [u8])
    requires { IsJournal journal.old }
    ensures { journal.new ≡ encode (counted (decode journal.old)) }
{
    count(journal, 16);
}

// Record i came again.
#[tactic(auto, using(crate::proofs::Reporting::repeat_counted))]
fn again(journal: &mut [u8], i: usize)
    requires { IsJournal journal.old × (i < 64) }
    ensures { journal.new ≡ encode (againOf i (decode journal.old)) }
{
    count(journal, 96 + i * 40);
}

// There is no place left.
#[tactic(auto, using(crate::proofs::Reporting::lost_counted))]
fn miss(journal: &mut [u8])
    requires { IsJournal journal.old }
    ensures { journal.new ≡ encode (missed (decode journal.old)) }
{
    count(journal, 8);
}

// A record's five words.
fn put(place: &mut [u8], fault: Fault, first: u64)
    requires { length place.old ≡ 40 }
    ensures { place.new ≡ bytes_of_all (fault.page ∷ fault.code ∷ fault.root ∷ first ∷ 0 ∷ []) }
{
    words::write_word(place, 0, fault.page);
    words::write_word(place, 8, fault.code);
    words::write_word(place, 16, fault.root);
    words::write_word(place, 24, first);
    words::write_word(place, 32, 0);
}

// A new fault takes the next place.
fn keep(journal: &mut [u8], held: usize, fault: Fault)
    requires { IsJournal journal.old × ((held ≡ (decode journal.old).held) × (held < 64)) }
    ensures { journal.new ≡ encode (kept fault (decode journal.old)) }
{
    let first = words::read_word(journal, 16);
    words::write_word(journal, 0, held as u64 + 1);
    let a = 64 + held * 40;
    let e = a + 40;
    put(&mut journal[a..e], fault, first);
}

// A report that is not refused.
fn take(journal: &mut [u8], fault: Fault)
    requires { Fit journal.old }
    ensures { journal.new ≡ encode (reportOf fault (decode journal.old)) }
{
    let held = words::read_word(journal, 0) as usize;
    let found = find(journal, held, fault);
    count_report(journal);
    match found {
        Some(i) => again(journal, i),
        None if held < RECORDS => keep(journal, held, fault),
        None => miss(journal),
    }
}

// Every byte is 0.
#[tactic(auto, using(crate::proofs::Reporting::clear_done))]
pub fn clear(journal: &mut [u8]) -> Result<(), Unfit>
    ensures { Clears journal.old journal.new (number_of result) }
{
    long(journal)?;
    words::clear(journal);
    Ok(())
}

// A fault is reported: of its address, bits 56 down to 12 are the page's number.
#[tactic(auto, using(crate::proofs::Reporting::report_fit))]
pub fn report(journal: &mut [u8], address: u64, code: u64, root: u64) -> Result<(), Unfit>
    ensures { Reports address code root journal.old journal.new (number_of result) }
{
    fit(journal)?;
    let page = address / 0x1000 % 0x2000_0000_0000;
    take(journal, Fault { page, code, root });
    Ok(())
}
