// An accepted translation with paging on: from the buffer where a held page serves, else by the walk, whose finding is kept.
#![tactic(auto)]

ghost use Rattle.std.specs.Prelude.{◌≡◌, ◌%◌, ◌^◌, ◌<◌, length};
ghost use Rattle.rules.specs.Image.{encode, decode, control, IsImage};
ghost use Rattle.rules.specs.Memory.{both, Whole};
ghost use Rattle.rules.specs.Buffer.{filled};
ghost use Rattle.rules.specs.Sizes.{Is};
ghost use Rattle.rules.specs.declared.Found.TheVariants.{Page};
ghost use Rattle.numbers.specs.Needs.{ForEach, Known};
ghost use Rattle.paging.specs.Paged.{Usable, InRange, Finishes, missed, Encodes, Finds};

use buffer::look;
use buffer::look::Place;
use rules::{Answer, Control, Found, Rights, Size};
use sets::size;

// A held page that answers: the physical address, and the page's length.
#[derive(Clone, Copy)]
pub struct Held {
    pub value: u64,
    pub size: u64,
}

// What a walk goes by.
fn control_of(image: &[u8; 2048]) -> Control
    requires { Usable image.now }
    ensures { result ≡ control (decode image.now) }
{
    let width = words::read_word(image, 0);
    Control {
        width,
        flags: words::read_word(image, 8),
        root: words::part(width, 12, words::read_word(image, 16)),
        pcid: numbers::pcid_of(image),
    }
}

// A page that a walk reached is stored in its set.
fn keep(image: &mut [u8; 2048], z: Size, a: u64, r: Rights, global: bool, dirty: bool, base: u64)
    requires { IsImage image.old × (Is z × (base < 2 ^ 52)) }
    ensures { image.new ≡ encode (filled (decode image.old) a (Page base z.level r global dirty 0)) }
{
    let number = size::page_number(z, a);
    let set = size::set_of(z, number) as usize;
    let global = words::is_on(2, words::read_word(image, 8)) & global;
    let tag = numbers::tag_of(global, numbers::pcid_of(image), number);
    buffer::fill::fill(image, set, tag, numbers::datum_of(r, dirty, base));
}

// What a walk found is answered; a page is kept as well.
fn finish(image: &mut [u8; 2048], flags: u64, access: u64, a: u64, f: Found) -> Answer
    requires { IsImage image.old × ((flags ≡ (decode image.old).flags) × InRange f) }
    ensures { ForEach (decode image.old).flags access (λ k. Finishes image.old image.new k a f result) }
{
    match f {
        Found::Page {
            base,
            level,
            rights,
            global,
            dirty,
            read,
        } => {
            let z = size::size_at(level);
            keep(image, z, a, rights, global, dirty, base);
            let size = z.length;
            let value = base + a % size;
            Answer::Address { value, size, read }
        }
        Found::Fault { cause, level, read } => {
            let code = numbers::code_of(numbers::tells_fetch(flags), access, cause);
            Answer::PageFault {
                cause,
                level,
                code,
                read,
            }
        }
    }
}

// The walk is made, and finished.
pub fn walked(
    image: &mut [u8; 2048],
    low: &mut [u8],
    high: &mut [u8],
    access: u64,
    a: u64,
) -> Answer
    requires { Usable image.old × (Whole (both low.old high.old) × Known (decode image.old).flags access) }
    ensures { ForEach (decode image.old).flags access (λ k. Encodes (missed (decode image.old) (both low.old high.old) k a) image.new (both low.new high.new) result) }
{
    let c = control_of(image);
    let f = walk::walk(low, high, c, access, a);
    finish(image, c.flags, access, a, f)
}

// All ways are gone through: the first match answers, or what matches goes.
pub fn find_held(image: &mut [u8; 2048], access: u64, a: u64) -> Option<Held>
    requires { Usable image.old }
    ensures { Finds image.old image.new access a result }
{
    let pcid = numbers::pcid_of(image);
    match look::look_all(image, a, pcid) {
        Some(Place { at, size }) => {
            let d = words::read_word(image, 40 + at);
            if numbers::serves(words::read_word(image, 8), access, d) {
                let value = numbers::hit_address(d, a, size);
                return Some(Held { value, size });
            }
            drops::drop_matches(image, a, pcid);
            None
        }
        None => None,
    }
}
