// Translation of many addresses in one call: what each is answered, and what is left, are those of single calls made one by one.
#![tactic(auto)]

ghost use Rattle.std.specs.Prelude.{◌≡◌};
ghost use Rattle.rules.specs.Memory.{both};
ghost use Rattle.rules.specs.Many.{no_pairs};
ghost use Rattle.refusals.specs.Refusal.{told};
ghost use Rattle.many.specs.Contract.{TranslatesMany};

use refusals::asked::Asked;
use refusals::refusal::Refusal;

// Bytes that are not pairs, more than 64 pairs, or answer bytes that are not a record for each.
fn no_pairs(pairs: &[u8], answers: &[u8]) -> bool
    ensures { result ≡ no_pairs pairs.now answers.now }
{
    let n = pairs.len() / 16;
    if (pairs.len() % 16 != 0) | (64 < n) {
        return true;
    }
    answers.len() != n * records::LENGTH
}

// Pairs of a kind and an address, 16 bytes each, and for each a record of 32 bytes. What is asked of image and guest memory alone is asked once: a pair leaves both as fit
// as they were.
pub fn translate_many(
    image: &mut [u8],
    low: &mut [u8],
    high: &mut [u8],
    pairs: &[u8],
    answers: &mut [u8],
) -> Result<(), Refusal>
    ensures { TranslatesMany pairs.now answers.old answers.new image.old image.new (both low.old high.old) (both low.new high.new) (told result) }
{
    if no_pairs(pairs, answers) {
        return Err(Refusal::Pairs);
    }
    let n = pairs.len() / 16;
    let asked = Asked::of(image, low, high);
    for i in 0..n {
        let p = i * 16;
        let kind = words::read_word(pairs, p);
        let a = words::read_word(pairs, p + 8);
        let from = i * 32;
        let to = from + 32;
        // AC is 0. A refusal stands in the pair's record.
        let _ = direct::translate_asked(
            image,
            &mut answers[from..to],
            low,
            high,
            asked,
            kind,
            a,
            0,
        );
    }
    Ok(())
}
