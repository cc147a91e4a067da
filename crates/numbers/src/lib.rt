// The numbers of a call: the PCID, a slot's two words, an access and what it asks of a page, whether a held page serves and its address, the code of a fault.
#![tactic(auto)]

ghost use Rattle.std.specs.Prelude.{◌≡◌, ◌+◌, ◌*◌, ◌/◌, ◌%◌, ◌^◌, ◌≤◌, ◌<◌};
ghost use Rattle.rules.specs.Image.{decode, tag_of, datum_of};
ghost use Rattle.rules.specs.Entries.{keeps_off};
ghost use Rattle.rules.specs.Buffer.{serves as servesOf};
ghost use Rattle.rules.specs.Answers.{tells_fetch, code as code_of};
ghost use Rattle.rules.specs.Calls.{access_of};
ghost use Rattle.rules.specs.declared.Control.{Control as ControlOf};
ghost use Rattle.numbers.specs.Needs.{IsPcid, needed_of, IsAccess, ForEach};

use rules::{Cause, Rights};

// The current PCID.
pub fn pcid_of(image: &[u8; 2048]) -> u64
    ensures { IsPcid image.now result }
{
    if words::is_on(3, words::read_word(image, 8)) {
        return words::read_word(image, 16) % 4096;
    }
    0
}

pub fn tag_of(global: bool, pcid: u64, page: u64) -> u64
    requires { (pcid < 4096) × (page < 2 ^ 36) }
    ensures { result ≡ tag_of global pcid page }
{
    1 + 2 * u64::from(global) + 4 * pcid + 0x4000 * page
}

pub fn datum_of(r: Rights, dirty: bool, base: u64) -> u64
    requires { base < 2 ^ 52 }
    ensures { result ≡ datum_of r dirty base }
{
    u64::from(r.writable)
        + 2 * u64::from(r.user)
        + 4 * u64::from(r.executable)
        + 8 * u64::from(dirty)
        + base
}

// Whether an access is to keep off user pages.
fn keeps_off(flags: u64, kind: u64, ac: u64) -> bool
    requires { kind ≤ 5 }
    ensures { result ≡ keeps_off flags (access_of kind ac) }
{
    if kind < 2 {
        if ac == 0 {
            return words::is_on(6, flags);
        }
        return false;
    }
    (kind == 2) & words::is_on(5, flags)
}

// An access as one number, which is all that is handed on of it: its kind, and 8 times the bits of a datum that must be clear. With neither SMEP nor SMAP on it is the kind, and nothing is asked of AC. As a struct of the two it costs
// 2 to 6 instructions more on each hit and miss.
pub fn access_of(image: &[u8; 2048], kind: u64, ac: u64) -> u64
    requires { kind ≤ 5 }
    ensures { IsAccess (decode image.now).flags result (access_of kind ac) }
{
    let flags = words::read_word(image, 8);
    if flags < 32 {
        return kind;
    }
    kind + 16 * u64::from(keeps_off(flags, kind, ac))
}

// What a page must have for an access, held or reached by a walk, as bits of a datum. A kind has four bits of the number; write protect adds one of them,
// writable, to the supervisor's write. The kind is below 8, and what must be clear is 16 or nothing: less a multiple of 16 the access is its kind, and the shift needs no mask of its own.
pub fn needed(flags: u64, access: u64) -> u64
    ensures { ForEach flags access (λ k. result ≡ needed_of flags k) }
{
    ((0x6B_2480 + flags / 2 % 2 * 16) >> (access % 16 * 4)) % 16
}

// Whether a held page answers: of the bits that must be set or clear, those that must be set are.
pub fn serves(flags: u64, access: u64, d: u64) -> bool
    ensures { (c : ControlOf) → c.flags ≡ flags → ForEach c.flags access (λ k. result ≡ servesOf c k d) }
{
    let need = needed(flags, access);
    d & (need | access / 8) == need
}

// The physical address of a hit in a page of so many bytes.
pub fn hit_address(d: u64, a: u64, size: u64) -> u64
    requires { (1 ≤ size) × (size ≤ 2 ^ 30) }
    ensures { result ≡ d % 2 ^ 52 / size * size + a % size }
{
    d % 0x10_0000_0000_0000 / size * size + a % size
}

// Whether a fault's code tells a fetch under these flags.
pub fn tells_fetch(flags: u64) -> bool
    ensures { result ≡ tells_fetch flags }
{
    words::is_on(4, flags) | words::is_on(5, flags)
}

// A page fault's code. What it tells of the access is eight bits of a number, by the kind; a fetch is told only if the flags let it.
pub fn code_of(told: bool, access: u64, cause: Cause) -> u64
    ensures { (c : ControlOf) → told ≡ tells_fetch c.flags → ForEach c.flags access (λ k. result ≡ code_of c k cause) }
{
    let kinds = 0x04_06_04_00_02_00 + u64::from(told) * 0x10_00_00_10_00_00;
    let asked = (kinds >> (access % 8 * 8)) % 256;
    match cause {
        Cause::NotPresent => asked,
        Cause::Reserved => 9 + asked,
        Cause::Protection => 1 + asked,
    }
}
