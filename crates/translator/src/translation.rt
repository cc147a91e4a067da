// Translation of one address.
ghost use Rattle.rules.specs.Memory.{both};
ghost use Rattle.rules.specs.Refusals.{translate as translateOf};
ghost use Rattle.translator.specs.Contract.{Translates};

use paging::Held;
use refusals::asked::Asked;
use rules::Answer;

// An address's physical address, or its fault, with cause and level. AC is set by any number but 0.
pub fn translate(
    image: &mut [u8],
    low: &mut [u8],
    high: &mut [u8],
    kind: u64,
    a: u64,
    ac: u64,
) -> Answer
    ensures { Translates (translateOf kind a ac) image.old image.new (both low.old high.old) (both low.new high.new) result }
{
    let asked = Asked::of(image, low, high);
    if let Err(refused) = asked.refusal(kind, a) {
        return Answer::from(refused);
    }
    if !asked.paged {
        return Answer::Address {
            value: a,
            size: 0,
            read: 0,
        };
    }
    let image = image.as_mut_array::<2048>().unwrap();
    let access = numbers::access_of(image, kind, ac);
    match paging::find_held(image, access, a) {
        Some(Held { value, size }) => Answer::Address {
            value,
            size,
            read: 0,
        },
        None => paging::walked(image, low, high, access, a),
    }
}
