// Translation of one address straight into a record, for the door: a small page that is held is answered at once, and all else goes on in steps. A step that cannot answer calls the
// next one last, with what it was given and in that order, so that little is moved on the way.
#![tactic(auto)]

ghost use Rattle.std.specs.Prelude.{◌≡◌, ◌++◌, length, Some, None};
ghost use Rattle.rules.specs.Image.{decode};
ghost use Rattle.rules.specs.Memory.{both};
ghost use Rattle.rules.specs.Buffer.{all_ways, find};
ghost use Rattle.rules.specs.Refusals.{translate};
ghost use Rattle.rules.specs.Calls.{looked};
ghost use Rattle.rules.specs.Sizes.{small, middle, ways};
ghost use Rattle.buffer.specs.Look.{Right, FirstHeld};
ghost use Rattle.records.specs.Record.{Holds};
ghost use Rattle.refusals.specs.Asked.{Asked as IsAsked};
ghost use Rattle.refusals.specs.Refusal.{told};
ghost use Rattle.numbers.specs.Needs.{ForEach};
ghost use Rattle.paging.specs.Paged.{missed as missedOf};
ghost use Rattle.direct.specs.Writing.{Lent, Writes, Serves};
ghost use Rattle.direct.specs.Contract.{TranslatesInto, IntoRecord};

use buffer::look;
use buffer::look::{Place, Start};
use paging::Held;
use records::Record;
use refusals::asked::Asked;
use refusals::refusal::Refusal;
use rules::Answer;
use sets::size::{Page1G, Page2M, Page4K, PageSize};

// The answer is this address, in a page of so many bytes, with no entry read.
fn put_address(answer: &mut [u8], value: u64, size: u64)
    requires { length answer.old ≡ 32 }
    ensures { Holds (record { kind = 0; value = value; size = size; read = 0 }) answer.new }
{
    Record {
        kind: records::ADDRESS,
        value,
        size,
        read: 0,
    }
    .write(answer);
}

// The walk is made, and its answer written.
fn missed(
    image: &mut [u8; 2048],
    answer: &mut [u8],
    low: &mut [u8],
    high: &mut [u8],
    access: u64,
    a: u64,
)
    requires { Lent image.old answer.old (both low.old high.old) access }
    ensures { ForEach (decode image.old).flags access (λ k. Writes (missedOf (decode image.old) (both low.old high.old) k a) answer.new image.new (both low.new high.new)) }
{
    Record::from(paging::walked(image, low, high, access, a)).write(answer);
}

// Whether the slot at a place answers: it is one's own, and its page allows the access. Then its answer is written.
fn serve(image: &[u8; 2048], answer: &mut [u8], held: Place, access: u64, a: u64) -> bool
    requires { (length answer.old ≡ 32) × Right (Some held) }
    ensures { Serves image.now held.at held.size access a answer.old answer.new result }
{
    if look::is_of(image, held.at, numbers::pcid_of(image)) {
        let d = words::read_word(image, 40 + held.at);
        if numbers::serves(words::read_word(image, 8), access, d) {
            put_address(answer, numbers::hit_address(d, a, held.size), held.size);
            return true;
        }
    }
    false
}

// A page is held, and is another's or does not allow the access.
fn look_through(
    image: &mut [u8; 2048],
    answer: &mut [u8],
    low: &mut [u8],
    high: &mut [u8],
    access: u64,
    a: u64,
)
    requires { Lent image.old answer.old (both low.old high.old) access }
    ensures { ForEach (decode image.old).flags access (λ k. Writes (looked (decode image.old) (both low.old high.old) k a (find (decode image.old) a)) answer.new image.new (both low.new high.new)) }
{
    if let Some(Held { value, size }) = paging::find_held(image, access, a) {
        put_address(answer, value, size);
        return;
    }
    missed(image, answer, low, high, access, a);
}

// The first slot that holds the page answers, or all ways are gone through. In line at each size, it costs less than a call.
#[inline(always)]
fn answer_held(
    image: &mut [u8; 2048],
    answer: &mut [u8],
    low: &mut [u8],
    high: &mut [u8],
    held: Place,
    access: u64,
    a: u64,
)
    requires { Lent image.old answer.old (both low.old high.old) access × FirstHeld image.old a (all_ways a) (Some held) }
    ensures { ForEach (decode image.old).flags access (λ k. Writes (looked (decode image.old) (both low.old high.old) k a (find (decode image.old) a)) answer.new image.new (both low.new high.new)) }
{
    if serve(image, answer, held, access, a) {
        return;
    }
    look_through(image, answer, low, high, access, a);
}

// No page of 4 KiB or 2 MiB is held: one of 1 GiB, then the walk.
fn look_large(
    image: &mut [u8; 2048],
    answer: &mut [u8],
    low: &mut [u8],
    high: &mut [u8],
    access: u64,
    a: u64,
)
    requires { Lent image.old answer.old (both low.old high.old) access × FirstHeld image.old a (ways small a ++ ways middle a) None }
    ensures { ForEach (decode image.old).flags access (λ k. Writes (looked (decode image.old) (both low.old high.old) k a (find (decode image.old) a)) answer.new image.new (both low.new high.new)) }
{
    match look::held::<Page1G>(image, a) {
        Some(held) => answer_held(image, answer, low, high, held, access, a),
        None => missed(image, answer, low, high, access, a),
    }
}

// No page of 4 KiB is held: one of 2 MiB, then the larger. It and the one before differ in what comes next, which as a parameter would be eight.
fn look_middle(
    image: &mut [u8; 2048],
    answer: &mut [u8],
    low: &mut [u8],
    high: &mut [u8],
    access: u64,
    a: u64,
)
    requires { Lent image.old answer.old (both low.old high.old) access × FirstHeld image.old a (ways small a) None }
    ensures { ForEach (decode image.old).flags access (λ k. Writes (looked (decode image.old) (both low.old high.old) k a (find (decode image.old) a)) answer.new image.new (both low.new high.new)) }
{
    match look::held::<Page2M>(image, a) {
        Some(held) => answer_held(image, answer, low, high, held, access, a),
        None => look_large(image, answer, low, high, access, a),
    }
}

// A translation with paging on: a page of 4 KiB that is held, then the larger sizes that are in use, then the walk.
#[inline(always)]
fn look_small(
    image: &mut [u8; 2048],
    answer: &mut [u8],
    low: &mut [u8],
    high: &mut [u8],
    access: u64,
    a: u64,
)
    requires { Lent image.old answer.old (both low.old high.old) access }
    ensures { ForEach (decode image.old).flags access (λ k. Writes (looked (decode image.old) (both low.old high.old) k a (find (decode image.old) a)) answer.new image.new (both low.new high.new)) }
{
    match look::first(image, a) {
        Start::Small(at) => {
            let held = Place {
                at,
                size: Page4K::LENGTH,
            };
            answer_held(image, answer, low, high, held, access, a);
        }
        Start::Middle => look_middle(image, answer, low, high, access, a),
        Start::Large => look_large(image, answer, low, high, access, a),
        Start::Nowhere => missed(image, answer, low, high, access, a),
    }
}

// One address, once image and guest memory are looked at: it is refused, or with paging off is its own answer, or is looked for. In line in both calls that begin with that look.
#[inline(always)]
pub fn translate_asked(
    image: &mut [u8],
    answer: &mut [u8],
    low: &mut [u8],
    high: &mut [u8],
    asked: Asked,
    kind: u64,
    a: u64,
    ac: u64,
) -> Result<(), Refusal>
    requires { (length answer.old ≡ 32) × IsAsked image.old (both low.old high.old) asked }
    ensures { IntoRecord (translate kind a ac) answer.new image.old image.new (both low.old high.old) (both low.new high.new) (told result) }
{
    if let Err(refused) = asked.refusal(kind, a) {
        Record::from(Answer::from(refused)).write(answer);
        return Err(refused);
    }
    if !asked.paged {
        put_address(answer, a, 0);
        return Ok(());
    }
    let image = image.as_mut_array::<2048>().unwrap();
    let access = numbers::access_of(image, kind, ac);
    look_small(image, answer, low, high, access, a);
    Ok(())
}

// An address's physical address, or its fault, into 32 lent bytes. AC is set by any number but 0.
pub fn translate_into(
    image: &mut [u8],
    low: &mut [u8],
    high: &mut [u8],
    kind: u64,
    a: u64,
    ac: u64,
    answer: &mut [u8],
) -> Result<(), Refusal>
    ensures { TranslatesInto (translate kind a ac) answer.old answer.new image.old image.new (both low.old high.old) (both low.new high.new) (told result) }
{
    if answer.len() != records::LENGTH {
        return Err(Refusal::Record);
    }
    let asked = Asked::of(image, low, high);
    translate_asked(image, answer, low, high, asked, kind, a, ac)
}
