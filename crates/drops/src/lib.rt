// Dropping in the image's bytes: whatever a drop goes by, it is a compare of the tag under a mask, over a range of slots; and a second one, of whose it is,
// that global tags need not pass.
#![tactic(auto)]

ghost use Rattle.std.specs.Prelude.{◌≡◌, ◌+◌, ◌*◌, ◌≤◌, ◌<◌, take, drop};
ghost use Rattle.rules.specs.Sizes.{Is, ways};
ghost use Rattle.rules.specs.Image.{IsImage};
ghost use Rattle.rules.specs.Buffer.{matches};
ghost use Rattle.rules.specs.Refusals.{all_zero};
ghost use Rattle.sets.specs.Ways.{any_held, is_masked};
ghost use Rattle.drops.specs.Drops.{dropped_in, every, not_global, every_of, every_of_at, every_from, masked, masked_from, masked_of};

use rules::Size;
use sets::size::{Page1G, Page2M, Page4K, PageSize};
use sets::{size, tags};

// A test of a tag: its bits under the mask are those wanted.
#[derive(Clone, Copy)]
struct Masked {
    mask: u64,
    want: u64,
}

// The test that all tags pass.
const ANY: Masked = Masked { mask: 0, want: 0 };

impl Masked {
    fn fits(self, tag: u64) -> bool
        ensures { result ≡ is_masked self.mask self.want tag }
    {
        tag & self.mask == self.want
    }
}

// The slots from one on and before another are emptied, tags and data.
fn empty_from(image: &mut [u8; 2048], first: usize, end: usize)
    requires { IsImage image.old × ((first ≤ end) × (end ≤ 100)) }
    ensures { image.new ≡ dropped_in (every_from first end) image.old }
{
    let a = 32 + first * 16;
    let e = 32 + end * 16;
    words::clear(&mut image[a..e]);
}

// A slot is emptied if its tag fits what is asked, and is global or fits whose it is.
fn drop_slot(image: &mut [u8; 2048], i: usize, asked: Masked, whose: Masked)
    requires { IsImage image.old × (i < 100) }
    ensures { image.new ≡ dropped_in (masked_from i (i + 1) asked.mask asked.want whose.mask whose.want) image.old }
{
    let tag = words::read_word(image, 32 + i * 16);
    if asked.fits(tag) {
        if (tag & 2 == 2) | whose.fits(tag) {
            empty_from(image, i, i + 1);
        }
    }
}

// The same of the slots from one on and before another.
fn drop_from(image: &mut [u8; 2048], first: usize, end: usize, asked: Masked, whose: Masked)
    requires { IsImage image.old × ((first ≤ end) × (end ≤ 100)) }
    ensures { image.new ≡ dropped_in (masked_from first end asked.mask asked.want whose.mask whose.want) image.old }
{
    for i in first..end {
        drop_slot(image, i, asked, whose);
    }
}

// Whether five sets, from a slot on, are zero, tags and data. Where the first tag is not, the rest is not asked.
fn is_bare(image: &[u8; 2048], first: usize) -> bool
    requires { first ≤ 80 }
    ensures { result ≡ all_zero (take 320 (drop (32 + first * 16) image.now)) }
{
    let at = 32 + first * 16;
    if words::read_word(image, at) != 0 {
        return false;
    }
    let end = at + 320;
    words::gather(&image[at..end]) == 0
}

// Five sets from a slot on, whoever's their slots are. What is zero is passed over: it stays so, whatever is dropped.
fn drop_block(image: &mut [u8; 2048], first: usize, asked: Masked)
    requires { IsImage image.old × (first ≤ 80) }
    ensures { image.new ≡ dropped_in (masked_from first (first + 20) asked.mask asked.want 0 0) image.old }
{
    if is_bare(image, first) {
        return;
    }
    drop_from(image, first, first + 20, asked, ANY);
}

// All slots.
fn sweep(image: &mut [u8; 2048], asked: Masked)
    requires { IsImage image.old }
    ensures { image.new ≡ dropped_in (masked asked.mask asked.want) image.old }
{
    for block in 0..5 {
        drop_block(image, block * 20, asked);
    }
}

// INVPCID of type 2, and a mode write that changes a flag.
pub fn drop_everything(image: &mut [u8; 2048])
    requires { IsImage image.old }
    ensures { image.new ≡ dropped_in every image.old }
{
    empty_from(image, 0, 100);
}

// INVPCID of type 3.
pub fn drop_not_global(image: &mut [u8; 2048])
    requires { IsImage image.old }
    ensures { image.new ≡ dropped_in not_global image.old }
{
    sweep(image, Masked { mask: 2, want: 0 });
}

// INVPCID of type 1, and a CR3 write: bits 13 down to 1 are the PCID and, below it, global.
pub fn drop_pcid(image: &mut [u8; 2048], pcid: u64)
    requires { IsImage image.old × (pcid < 4096) }
    ensures { image.new ≡ dropped_in (every_of pcid) image.old }
{
    let want = pcid * 4;
    sweep(image, Masked { mask: 0x3FFE, want });
}

// The address's page of one size: its number is bits 49 down to 14 of a tag, so what is asked is of the bits below. In line, as what stands on it, so that the size's numbers are constants.
#[inline(always)]
fn drop_page(image: &mut [u8; 2048], z: Size, a: u64, asked: Masked, whose: Masked)
    requires { IsImage image.old × (Is z × ((asked.mask < 0x4000) × (asked.want < 0x4000))) }
    ensures { image.new ≡ dropped_in (masked_of z a asked.mask asked.want whose.mask whose.want) image.old }
{
    let page = size::page_number(z, a);
    let first = 4 * size::set_of(z, page) as usize;
    let asked = Masked {
        mask: 0x3_FFFF_FFFF_C000 + asked.mask,
        want: page * 0x4000 + asked.want,
    };
    drop_from(image, first, first + 4, asked, whose);
}

// The same, of what is held and is global or of the PCID.
#[inline(always)]
fn drop_match(image: &mut [u8; 2048], z: Size, a: u64, pcid: u64)
    requires { IsImage image.old × (Is z × (pcid < 4096)) }
    ensures { image.new ≡ dropped_in (masked_of z a 1 1 0x3FFC (pcid * 4)) image.old }
{
    let held = Masked { mask: 1, want: 1 };
    let want = pcid * 4;
    drop_page(image, z, a, held, Masked { mask: 0x3FFC, want });
}

// The same, for a size whose sets are often empty: where no way of the page's set is held no tag is compared.
#[inline(always)]
fn drop_held(image: &mut [u8; 2048], z: Size, a: u64, pcid: u64)
    requires { IsImage image.old × (Is z × (pcid < 4096)) }
    ensures { image.new ≡ dropped_in (masked_of z a 1 1 0x3FFC (pcid * 4)) image.old }
{
    if tags::any_in(image, z, a) {
        drop_match(image, z, a, pcid);
    }
}

// INVLPG, and a walk before it fills: what is held for the address and is global or of the PCID.
pub fn drop_matches(image: &mut [u8; 2048], a: u64, pcid: u64)
    requires { IsImage image.old × (pcid < 4096) }
    ensures { image.new ≡ dropped_in (matches pcid a) image.old }
{
    drop_match(image, Page4K::size(), a, pcid);
    drop_held(image, Page2M::size(), a, pcid);
    drop_held(image, Page1G::size(), a, pcid);
}

// INVPCID of type 0: the mask of `drop_pcid`, and the page.
pub fn drop_address(image: &mut [u8; 2048], a: u64, pcid: u64)
    requires { IsImage image.old × (pcid < 4096) }
    ensures { image.new ≡ dropped_in (every_of_at pcid a) image.old }
{
    let want = pcid * 4;
    let own = Masked { mask: 0x3FFE, want };
    drop_page(image, Page4K::size(), a, own, ANY);
    drop_page(image, Page2M::size(), a, own, ANY);
    drop_page(image, Page1G::size(), a, own, ANY);
}
