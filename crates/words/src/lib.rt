// Bytes and words of a slice, and bits of a number. In machine code a read is one load, a write one store.
#![tactic(auto)]

ghost use Rattle.std.specs.Prelude.{◌≡◌, ◌+◌, ◌≤◌, ◌<◌, eqb, length, replicate};
ghost use Rattle.rules.specs.Bits.{is_on, part as part_of, word_at, word_put};
ghost use Rattle.rules.specs.Refusals.{all_zero};
ghost use Rattle.words.specs.Eight.{eight_at};

// Eight bytes, each at its own weight.
fn read_eight(s: &[u8], at: usize) -> u64
    requires { at + 8 ≤ length s.now }
    ensures { result ≡ eight_at s.now at }
{
    u64::from(s[at])
        + u64::from(s[at + 1]) * 0x100
        + u64::from(s[at + 2]) * 0x1_0000
        + u64::from(s[at + 3]) * 0x100_0000
        + u64::from(s[at + 4]) * 0x1_0000_0000
        + u64::from(s[at + 5]) * 0x100_0000_0000
        + u64::from(s[at + 6]) * 0x1_0000_0000_0000
        + u64::from(s[at + 7]) * 0x100_0000_0000_0000
}

// The word of 64 bits at a place.
pub fn read_word(s: &[u8], at: usize) -> u64
    requires { at + 8 ≤ length s.now }
    ensures { result ≡ word_at s.now at }
{
    read_eight(s, at)
}

// The word of 64 bits at a place is stored.
pub fn write_word(s: &mut [u8], at: usize, x: u64)
    requires { at + 8 ≤ length s.old }
    ensures { s.new ≡ word_put s.old at x }
{
    s[at] = (x % 256) as u8;
    s[at + 1] = (x / 0x100 % 256) as u8;
    s[at + 2] = (x / 0x1_0000 % 256) as u8;
    s[at + 3] = (x / 0x100_0000 % 256) as u8;
    s[at + 4] = (x / 0x1_0000_0000 % 256) as u8;
    s[at + 5] = (x / 0x100_0000_0000 % 256) as u8;
    s[at + 6] = (x / 0x1_0000_0000_0000 % 256) as u8;
    s[at + 7] = (x / 0x100_0000_0000_0000 % 256) as u8;
}

// All bytes or-ed together, with no early exit: 0 exactly if all are.
pub fn gather(s: &[u8]) -> u8
    ensures { eqb result 0 ≡ all_zero s.now }
{
    s.iter().fold(0, |all, byte| all | byte)
}

// Every byte is zero.
pub fn clear(s: &mut [u8])
    ensures { s.new ≡ replicate (length s.old) 0 }
{
    s.fill(0);
}

// Whether bit k is set.
pub fn is_on(k: u64, x: u64) -> bool
    requires { k < 64 }
    ensures { result ≡ is_on k x }
{
    (x >> k) % 2 == 1
}

// Bits h - 1 down to l, where they stand.
pub fn part(h: u64, l: u64, x: u64) -> u64
    requires { (l ≤ h) × (h < 64) }
    ensures { result ≡ part_of h l x }
{
    ((x % (1 << h)) >> l) << l
}
