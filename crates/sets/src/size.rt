// The three page sizes: a type for each with its numbers, and what is the same for all.
ghost use Rattle.std.specs.Prelude.{ℕ, ◌≡◌, ◌+◌, ◌%◌, ◌^◌, ◌<◌, refl};
ghost use Rattle.rules.specs.Sizes.{Is, is_small, is_middle, is_large, small, middle, large, size_at, page_number};
ghost use Rattle.rules.specs.declared.Size.{Size as SizeOf};

use rules::Size;

// A page size by its numbers: it is one of the three.
pub trait PageSize {
    const LEVEL: u64;

    const LENGTH: u64;

    const RESERVED: u64;

    const SETS: u64;

    const FIRST: u64;

    ghost LEVEL: { ℕ };

    ghost LENGTH: { ℕ };

    ghost RESERVED: { ℕ };

    ghost SETS: { ℕ };

    ghost FIRST: { ℕ };

    // The size of the rules that has these numbers.
    ghost page_size: { SizeOf };

    final fn size() -> Size
        ensures { (result ≡ page_size) × Is result }
    {
        Size {
            level: Self::LEVEL,
            length: Self::LENGTH,
            reserved: Self::RESERVED,
            sets: Self::SETS,
            first: Self::FIRST,
        }
    }

    ghost is_size: { Is page_size };

    ghost numbers: { page_size ≡ record { level = LEVEL; length = LENGTH; reserved = RESERVED; sets = SETS; first = FIRST } };
}

#[derive(Clone, Copy)]
pub struct Page4K;

#[derive(Clone, Copy)]
pub struct Page2M;

#[derive(Clone, Copy)]
pub struct Page1G;

impl PageSize for Page4K {
    const LEVEL: u64 = 1;

    const LENGTH: u64 = 0x1000;

    const RESERVED: u64 = 13;

    const SETS: u64 = 16;

    const FIRST: u64 = 0;

    ghost LEVEL = { 1 };

    ghost LENGTH = { 0x1000 };

    ghost RESERVED = { 13 };

    ghost SETS = { 16 };

    ghost FIRST = { 0 };

    ghost page_size = { small };

    ghost is_size = { is_small };

    ghost numbers = { refl };
}

impl PageSize for Page2M {
    const LEVEL: u64 = 2;

    const LENGTH: u64 = 512 * Page4K::LENGTH;

    const RESERVED: u64 = 21;

    const SETS: u64 = 8;

    const FIRST: u64 = Page4K::FIRST + Page4K::SETS;

    ghost LEVEL = { 2 };

    ghost LENGTH = { 0x200000 };

    ghost RESERVED = { 21 };

    ghost SETS = { 8 };

    ghost FIRST = { 16 };

    ghost page_size = { middle };

    ghost is_size = { is_middle };

    ghost numbers = { refl };
}

impl PageSize for Page1G {
    const LEVEL: u64 = 3;

    const LENGTH: u64 = 512 * Page2M::LENGTH;

    const RESERVED: u64 = 30;

    const SETS: u64 = 1;

    const FIRST: u64 = Page2M::FIRST + Page2M::SETS;

    ghost LEVEL = { 3 };

    ghost LENGTH = { 0x40000000 };

    ghost RESERVED = { 30 };

    ghost SETS = { 1 };

    ghost FIRST = { 24 };

    ghost page_size = { large };

    ghost is_size = { is_large };

    ghost numbers = { refl };
}

// The size of the pages at a level.
pub fn size_at(level: u64) -> Size
    ensures { result ≡ size_at level }
{
    if level == 1 {
        return Page4K::size();
    }
    if level == 2 {
        return Page2M::size();
    }
    Page1G::size()
}

// An address's page number.
pub fn page_number(z: Size, a: u64) -> u64
    requires { Is z }
    ensures { (result ≡ page_number z a) × (result < 2 ^ 36) }
{
    a % 0x1_0000_0000_0000 / z.length
}

// The set in which a page of that number stands.
pub fn set_of(z: Size, number: u64) -> u64
    requires { Is z }
    ensures { (result ≡ z.first + number % z.sets) × (result < 25) }
{
    z.first + number % z.sets
}
