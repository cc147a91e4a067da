// The tags of a set's four ways, read together.
ghost use Rattle.std.specs.Prelude.{◌≡◌};
ghost use Rattle.rules.specs.Sizes.{Is, ways};
ghost use Rattle.sets.specs.Ways.{any_held};

use crate::size;
use rules::Size;

// Whether one of the four ways of the address's set for a size is held, which is bit 0 of a tag's lowest byte.
pub fn any_in(image: &[u8; 2048], z: Size, a: u64) -> bool
    requires { Is z }
    ensures { result ≡ any_held image.now (ways z a) }
{
    let number = size::page_number(z, a);
    let at = 32 + size::set_of(z, number) as usize * 64;
    (image[at] | image[at + 16] | image[at + 32] | image[at + 48]) % 2 == 1
}
