// The calls, each answering as the rules' call of its name.
ghost use Rattle.std.specs.Prelude.{◌≡◌};
ghost use Rattle.rules.specs.Refusals.{start_with, start as start_of, invlpg as invlpgOf, invpcid as invpcidOf, write_cr3, write_mode};
ghost use Rattle.rules.specs.Calls.{same_mode};
ghost use Rattle.translator.specs.Contract.{Leaves};

use rules::Answer;

// The flags of the plain start: write protect alone.
const START_FLAGS: u64 = 0b10;

// The image is that of a processor of the given width and flags, with CR3 0 and nothing held.
pub fn start_with(image: &mut [u8], width: u64, flags: u64) -> Answer
    ensures { Leaves (start_with width flags) image.old image.new result }
{
    if let Err(refused) = refusals::start_refusal(image, width, flags) {
        return Answer::from(refused);
    }
    words::clear(image);
    words::write_word(image, 0, width);
    words::write_word(image, 8, flags);
    Answer::Done
}

pub fn start(image: &mut [u8], width: u64) -> Answer
    ensures { Leaves (start_of width) image.old image.new result }
{
    start_with(image, width, START_FLAGS)
}

// What is held for an address is dropped.
pub fn invlpg(image: &mut [u8], a: u64) -> Answer
    ensures { Leaves (invlpgOf a) image.old image.new result }
{
    if let Err(refused) = refusals::invlpg_refusal(image, a) {
        return Answer::from(refused);
    }
    let image = image.as_mut_array::<2048>().unwrap();
    if refusals::is_canonical(a) {
        let pcid = numbers::pcid_of(image);
        drops::drop_matches(image, a, pcid);
    }
    Answer::Done
}

// Slots are dropped by the type: an address of one PCID, one PCID, all, all that are not global.
pub fn invpcid(image: &mut [u8], kind: u64, pcid: u64, a: u64) -> Answer
    ensures { Leaves (invpcidOf kind pcid a) image.old image.new result }
{
    if let Err(refused) = refusals::invpcid_refusal(image, kind, pcid, a) {
        return Answer::from(refused);
    }
    let image = image.as_mut_array::<2048>().unwrap();
    match kind {
        0 => drops::drop_address(image, a, pcid),
        1 => drops::drop_pcid(image, pcid),
        2 => drops::drop_everything(image),
        _ => drops::drop_not_global(image),
    }
    Answer::Done
}

// CR3 is written; the slots of the PCID that it makes current are dropped, unless bit 63 says not to.
pub fn write_cr3(image: &mut [u8], value: u64) -> Answer
    ensures { Leaves (write_cr3 value) image.old image.new result }
{
    if let Err(refused) = refusals::cr3_refusal(image, value) {
        return Answer::from(refused);
    }
    let image = image.as_mut_array::<2048>().unwrap();
    words::write_word(image, 16, value % 0x8000_0000_0000_0000);
    if words::is_on(63, value) {
        return Answer::Done;
    }
    let pcid = numbers::pcid_of(image);
    drops::drop_pcid(image, pcid);
    Answer::Done
}

// No flag differs, but for those by which rights are judged alone: write protect, SMEP and SMAP.
fn same_mode(value: u64, flags: u64) -> bool
    ensures { result ≡ same_mode value flags }
{
    (words::is_on(0, value) == words::is_on(0, flags))
        & (words::is_on(2, value) == words::is_on(2, flags))
        & (words::is_on(3, value) == words::is_on(3, flags))
        & (words::is_on(4, value) == words::is_on(4, flags))
}

// The flags are written; everything is dropped if one changes that is not of rights alone.
pub fn write_mode(image: &mut [u8], value: u64) -> Answer
    ensures { Leaves (write_mode value) image.old image.new result }
{
    if let Err(refused) = refusals::mode_refusal(image, value) {
        return Answer::from(refused);
    }
    let image = image.as_mut_array::<2048>().unwrap();
    let flags = words::read_word(image, 8);
    words::write_word(image, 8, value);
    if same_mode(value, flags) {
        return Answer::Done;
    }
    drops::drop_everything(image);
    Answer::Done
}
