// The page lookup: the 4 KiB page that holds a physical address, handed back as a part of low or of high.
#![tactic(auto)]

ghost use Rattle.std.specs.Prelude.{◌≡◌};
ghost use Rattle.rules.specs.Memory.{both, page_of_part, page_of};

use rules::HIGH_BASE;

// The page of one part that an address falls into, by the distance from the part's first byte.
fn page_in(part: &[u8], at: usize) -> &[u8]
    ensures { result.now ≡ page_of_part part.now at }
{
    if at / 4096 < part.len() / 4096 {
        let from = at / 4096 * 4096;
        let to = from + 4096;
        return &part[from..to];
    }
    &part[0..0]
}

// The page, or nothing: neither part has it, or translate would refuse this memory.
pub fn page_of<'a>(low: &'a [u8], high: &'a [u8], physical: u64) -> &'a [u8]
    ensures { result.now ≡ page_of (both low.now high.now) physical }
{
    if refusals::no_lengths(low, high) {
        return &low[0..0];
    }
    let at = physical as usize;
    if at < HIGH_BASE {
        return page_in(low, at);
    }
    page_in(high, at - HIGH_BASE)
}
