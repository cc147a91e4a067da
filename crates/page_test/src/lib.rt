// The page lookup as C can call it, for the test that holds the header's own lookup to it.
#![tactic(auto)]

ghost use Rattle.std.specs.Prelude.{◌≡◌};
ghost use Rattle.rules.specs.Memory.{both, entry_in, page_of};

// The first word of the page that holds a physical address; all ones where there is none.
#[unsafe(no_mangle)]
pub extern "C" fn page_word<'a>(low: &'a [u8], high: &'a [u8], physical: u64) -> u64
    ensures { result ≡ entry_in (page_of (both low.now high.now) physical) 0 }
{
    let page = pages::page_of(low, high, physical);
    if page.len() < 8 {
        return u64::MAX;
    }
    words::read_word(page, 0)
}
