// Which bits of an entry are reserved: a row for each of the manual's tables of entry formats, in its order, as in the rules' `Formats`. A row is written in ranges,
// which a compiler makes one constant.
#![tactic(auto)]

ghost use Rattle.std.specs.Prelude.{◌≡◌, ◌+◌, ◌≤◌, ◌<◌, ◌∷◌};
ghost use Rattle.rules.specs.Formats.{◌‥◌, xd, rows, ranges_of};
ghost use Rattle.formats.specs.Ranges.{ones_in, mask_of};

// Bits from high down to low: all from high down, less those below low.
pub fn range(high: u64, low: u64) -> u64
    requires { (high < 64) × ((low < 64) × (low ≤ high + 1)) }
    ensures { result ≡ ones_in (high ‥ low) }
{
    (u64::MAX >> (63 - high)) - ((1 << low) - 1)
}

// What every row ends in: bits 51..M, and bit 63, XD, while NXE is off.
fn common(m: u64, nxe: bool) -> u64
    requires { m ≤ 52 }
    ensures { result ≡ mask_of (51 ‥ m ∷ xd nxe) }
{
    if nxe {
        return range(51, m);
    }
    range(51, m) + range(63, 63)
}

// The reserved bits of an entry, by its level and whether it maps a page, the physical width, and whether NXE is on. An entry that has no row has none.
pub fn reserved(level: u64, page: bool, m: u64, nxe: bool) -> u64
    requires { m ≤ 52 }
    ensures { result ≡ mask_of (ranges_of (rows m nxe) level page) }
{
    let rest = common(m, nxe);
    match (level, page) {
        (4, false) => range(7, 7) | rest,
        (3, true) => range(29, 13) | rest,
        (3, false) => rest,
        (2, true) => range(20, 13) | rest,
        (2, false) => rest,
        (1, true) => rest,
        _ => 0,
    }
}
