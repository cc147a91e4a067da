// Which calls are refused, and why: the lowest refusal that applies to a call, or none.
#![tactic(auto)]

ghost use Rattle.std.specs.Prelude.{◌≡◌, ℕ, ◌≤◌, not, ◌&&◌, eqb, cond, IfOk};
ghost use Rattle.rules.specs.Image.{Image, decode, pcide};
ghost use Rattle.rules.specs.Memory.{both, empty, no_lengths};
ghost use Rattle.rules.specs.Refusals.{start_with, invlpg, invpcid, write_cr3, write_mode, canonical, is_outside, no_flags, is_unfit, no_cr3, no_mode, no_invpcid, refusal};
ghost use Rattle.rules.specs.declared.Control.{Control};
ghost use Rattle.refusals.specs.Refusal.{number_of, told};

use crate::refusal::Refusal;

pub mod asked; // asked.rt: translate's refusals, and what they ask for every address alike
pub mod refusal; // refusal.rt: the refusals and their numbers

fn is_outside(width: u64) -> bool
    ensures { result ≡ is_outside width }
{
    (width < 36) | (52 < width)
}

fn no_flags(flags: u64) -> bool
    ensures { result ≡ no_flags flags }
{
    128 <= flags
}

// The bytes are no image that a call other than a start takes.
pub fn is_unfit(image: &[u8]) -> bool
    ensures { result ≡ is_unfit image.now }
{
    if image.len() != 2048 {
        return true;
    }
    if words::gather(&image[1632..2048]) != 0 {
        return true;
    }
    let width = words::read_word(image, 0);
    let flags = words::read_word(image, 8);
    let victims = words::read_word(image, 24);
    is_outside(width) | no_flags(flags) | (0x4_0000_0000_0000 <= victims)
}

// Bits 63 to 47 as a number: all alike they make 0 or 2^17 - 1, and half of one more is then 0 or 2^16.
pub fn is_canonical(a: u64) -> bool
    ensures { (c : Control) → result ≡ canonical c a }
{
    (a / 0x8000_0000_0000 + 1) / 2 % 0x1_0000 == 0
}

fn no_cr3(image: &[u8; 2048], value: u64) -> bool
    requires { (decode image.now).width ≤ 52 }
    ensures { result ≡ no_cr3 (decode image.now) value }
{
    let beyond = words::part(63, words::read_word(image, 0), value);
    let pcide = words::is_on(3, words::read_word(image, 8));
    (beyond != 0) | (words::is_on(63, value) & !pcide)
}

// From these flags and this CR3.
fn no_mode(flags: u64, cr3: u64, value: u64) -> bool
    ensures { (s : Image) → flags ≡ s.flags → cr3 ≡ s.cr3 → result ≡ no_mode s value }
{
    let pcide = words::is_on(3, flags);
    let named = cr3 % 4096;
    let wanted = words::is_on(3, value);
    no_flags(value) | (wanted & !words::is_on(0, value)) | (wanted & !pcide & (named != 0))
}

// A PCID other than 0 while PCIDs are off.
fn strays(image: &[u8; 2048], pcid: u64) -> bool
    ensures { result ≡ (not (pcide (decode image.now).flags) && not (eqb pcid 0)) }
{
    !words::is_on(3, words::read_word(image, 8)) & (pcid != 0)
}

// Only the first two types ask whether PCIDs are on, and only the first asks for the address.
fn no_invpcid(image: &[u8; 2048], kind: u64, pcid: u64, a: u64) -> bool
    ensures { result ≡ no_invpcid (decode image.now) kind pcid a }
{
    if 4095 < pcid {
        return true;
    }
    match kind {
        0 => !is_canonical(a) | strays(image, pcid),
        1 => strays(image, pcid),
        2 | 3 => false,
        _ => true,
    }
}

// Bytes that fill no page, in either part of guest memory, or too many of them in low.
pub fn no_lengths(low: &[u8], high: &[u8]) -> bool
    ensures { result ≡ no_lengths (both low.now high.now) }
{
    (low.len() % 4096 != 0) | (high.len() % 4096 != 0) | (0xB000_0000 < low.len())
}

// A refusal, where it applies.
fn refuse_if(applies: bool, refusal: Refusal) -> Result<(), Refusal>
    ensures { told result ≡ cond applies (number_of refusal) 0 }
{
    if applies { Err(refusal) } else { Ok(()) }
}

// The refusal that every call but a start begins with; else the image, as an array of its length.
fn taken(image: &[u8]) -> Result<&[u8; 2048], Refusal>
    ensures refused { told result ≡ cond (is_unfit image.now) 2 0 }
    ensures same { IfOk result (λ whole. whole.now ≡ image.now) }
{
    if is_unfit(image) {
        return Err(Refusal::Image);
    }
    Ok(image.as_array().unwrap())
}

// The flags are judged as those of a mode write, from flags 0 and CR3 0: what the image held is not read.
pub fn start_refusal(image: &[u8], width: u64, flags: u64) -> Result<(), Refusal>
    ensures { told result ≡ refusal image.now empty (start_with width flags) }
{
    refuse_if((image.len() != 2048) | is_outside(width), Refusal::Image)?;
    refuse_if(no_mode(0, 0, flags), Refusal::Mode)
}

pub fn invlpg_refusal(image: &[u8], a: u64) -> Result<(), Refusal>
    ensures { told result ≡ refusal image.now empty (invlpg a) }
{
    taken(image)?;
    Ok(())
}

pub fn invpcid_refusal(image: &[u8], kind: u64, pcid: u64, a: u64) -> Result<(), Refusal>
    ensures { told result ≡ refusal image.now empty (invpcid kind pcid a) }
{
    let image = taken(image)?;
    refuse_if(no_invpcid(image, kind, pcid, a), Refusal::Invpcid)
}

pub fn cr3_refusal(image: &[u8], value: u64) -> Result<(), Refusal>
    ensures { told result ≡ refusal image.now empty (write_cr3 value) }
{
    let image = taken(image)?;
    refuse_if(no_cr3(image, value), Refusal::Cr3)
}

pub fn mode_refusal(image: &[u8], value: u64) -> Result<(), Refusal>
    ensures { told result ≡ refusal image.now empty (write_mode value) }
{
    let image = taken(image)?;
    let flags = words::read_word(image, 8);
    let cr3 = words::read_word(image, 16);
    refuse_if(no_mode(flags, cr3, value), Refusal::Mode)
}
