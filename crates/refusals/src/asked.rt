// Which translations are refused.
ghost use Rattle.std.specs.Prelude.{◌≡◌, ℕ, false, cond, List, ltb};
ghost use Rattle.rules.specs.Image.{decode, pg};
ghost use Rattle.rules.specs.Memory.{Memory, both};
ghost use Rattle.rules.specs.Refusals.{translate, is_unfit, no_address, refusal};
ghost use Rattle.refusals.specs.Refusal.{number_of, told};

use crate::refusal::Refusal;
use crate::{is_canonical, is_unfit, no_lengths, refuse_if};

// What is asked of image and guest memory for every address alike, once for as many as there are.
#[derive(Clone, Copy)]
pub struct Asked {
    // The bytes are no image that is taken.
    pub unfit: bool,
    // Guest memory is of lengths that are refused.
    pub misfit: bool,
    // Paging is on; of an image that is fit.
    pub paged: bool,
}

// Whether paging is on, of an image that is fit.
fn is_paged(image: &[u8], unfit: bool) -> bool
    requires { unfit ≡ is_unfit image.now }
    ensures { unfit ≡ false → result ≡ pg (decode image.now).flags }
{
    if unfit {
        return false;
    }
    words::is_on(0, words::read_word(image, 8))
}

// The lowest refusal of image, kind and guest memory, where there is one.
fn first_refusal(unfit: bool, kind: u64) -> Refusal
    ensures { number_of result ≡ cond unfit 2 (cond (ltb 5 kind) 3 4) }
{
    if unfit {
        return Refusal::Image;
    }
    if 5 < kind {
        return Refusal::Kind;
    }
    Refusal::Memory
}

// The address's own refusal. In line by a hint: then each pair of a call for many is tested for its kind first, and for nothing that is known of all.
#[inline(always)]
fn address_refusal(paged: bool, a: u64) -> Result<(), Refusal>
    ensures { (b : List ℕ) → paged ≡ pg (decode b).flags → told result ≡ cond (no_address (decode b) a) 5 0 }
{
    if paged {
        return refuse_if(!is_canonical(a), Refusal::Address);
    }
    refuse_if(0x1_0000_0000 <= a, Refusal::Address)
}

impl Asked {
    ghost use Rattle.refusals.specs.Asked.{Asked as Is};

    // Of an image and the two parts of guest memory. In line where it is asked, it takes no more than its parts.
    #[inline(always)]
    pub fn of(image: &[u8], low: &[u8], high: &[u8]) -> Self
        ensures { Is image.now (both low.now high.now) result }
    {
        let unfit = is_unfit(image);
        Asked {
            unfit,
            misfit: no_lengths(low, high),
            paged: is_paged(image, unfit),
        }
    }

    // Which refusal it is, is worked out only where there is one.
    pub fn refusal(self, kind: u64, a: u64) -> Result<(), Refusal>
        ensures { (b : List ℕ) (mem : Memory) (ac : ℕ) → Is b mem self → told result ≡ refusal b mem (translate kind a ac) }
    {
        if self.unfit | (5 < kind) | self.misfit {
            return Err(first_refusal(self.unfit, kind));
        }
        address_refusal(self.paged, a)
    }
}
