// Looking up: the first slot that matches an address. The first that holds its page is found by one masked compare a way, size after size, each by a
// call of its own, so that a small page that is held is answered before anything is asked of the others. Whose it is is tested on that slot alone; only
// where it is another PCID's are all ways gone through.
ghost use Rattle.std.specs.Prelude.{◌≡◌, ◌+◌, ◌/◌, ◌%◌, ◌^◌, ◌≤◌, ◌<◌};
ghost use Rattle.rules.specs.Bits.{word_at};
ghost use Rattle.rules.specs.Sizes.{ways};
ghost use Rattle.rules.specs.Image.{decode, pcid as pcidOf};
ghost use Rattle.sets.specs.Ways.{tag_in};
ghost use Rattle.buffer.specs.Look.{Looks, holds_page, is_of, FirstHeld, Begins};

use sets::size::{Page1G, Page2M, Page4K, PageSize};
use sets::{size, tags};

// Where a page is held: the place of a slot among the slots, in bytes, and the length of its page.
#[derive(Clone, Copy)]
pub struct Place {
    pub at: usize,
    pub size: u64,
}

// Where looking up begins: the small slot that holds the page; or, where none does, the first of the larger sizes whose set is in use.
#[derive(Clone, Copy)]
pub enum Start {
    Small(usize),
    Middle,
    Large,
    Nowhere,
}

// Whether the tag at a place is held and of the page of that number: one compare, of both fields where they stand.
fn holds_page(image: &[u8; 2048], at: usize, number: u64) -> bool
    requires { (at + 8 ≤ 2048) × (number < 2 ^ 36) }
    ensures { result ≡ holds_page number (word_at image.now at) }
{
    (words::read_word(image, at) ^ (number * 0x4000 + 1)) & 0x0003_FFFF_FFFF_C001 == 0
}

// Whether the slot at a place among the slots is global, or of that PCID.
pub fn is_of(image: &[u8; 2048], at: usize, pcid: u64) -> bool
    requires { (at % 16 ≡ 0) × (at / 16 < 100) }
    ensures { result ≡ is_of pcid (tag_in image.now (at / 16)) }
{
    let tag = words::read_word(image, 32 + at);
    (tag / 2 % 2 == 1) | (tag / 4 % 4096 == pcid)
}

// The first slot that holds the address's page of one size.
pub fn held<P: PageSize>(image: &[u8; 2048], a: u64) -> Option<Place>
    ensures { FirstHeld image.now a (ways P.page_size a) result }
{
    let z = P::size();
    let number = size::page_number(z, a);
    let at = 64 * size::set_of(z, number) as usize;
    let size = z.length;
    if holds_page(image, 32 + at, number) {
        return Some(Place { at, size });
    }
    if holds_page(image, 48 + at, number) {
        return Some(Place { at: at + 16, size });
    }
    if holds_page(image, 64 + at, number) {
        return Some(Place { at: at + 32, size });
    }
    if holds_page(image, 80 + at, number) {
        return Some(Place { at: at + 48, size });
    }
    None
}

// The sets of the larger sizes are often empty: then none of their ways is compared.
pub fn first(image: &[u8; 2048], a: u64) -> Start
    ensures { Begins image.now a result }
{
    match held::<Page4K>(image, a) {
        Some(place) => Start::Small(place.at),
        None => {
            if tags::any_in(image, Page2M::size(), a) {
                return Start::Middle;
            }
            if tags::any_in(image, Page1G::size(), a) {
                return Start::Large;
            }
            Start::Nowhere
        }
    }
}

// The first match, way by way.
pub fn look_all(image: &[u8; 2048], a: u64, pcid: u64) -> Option<Place>
    requires { pcid ≡ pcidOf (decode image.now) }
    ensures { Looks image.now a result }
{
    for k in 0..12 {
        let z = size::size_at(1 + k / 4);
        let number = size::page_number(z, a);
        let at = 16 * (4 * size::set_of(z, number) + k % 4) as usize;
        if holds_page(image, 32 + at, number) & is_of(image, at, pcid) {
            return Some(Place { at, size: z.length });
        }
    }
    None
}
