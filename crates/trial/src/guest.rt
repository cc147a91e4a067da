// The trial guest of document 01, and the calls on it.
ghost use Rattle.std.specs.Prelude.{◌≡◌, ◌+◌, ◌≤◌};
ghost use Rattle.rules.specs.Bits.{word_at, word_put};
ghost use Rattle.rules.specs.Refusals.{translate as translateOf, write_cr3, write_mode};
ghost use Rattle.rules.specs.TrialGuest.{guest};
ghost use Rattle.trial.specs.Trial.{ready, Came, CameWith};

use crate::report::Told;
use translator::{calls, translation};

// Flags of the mode, from bit 4 down: NXE, PCIDE, PGE, WP, PG.
const FLAGS: u64 = 0b1_0111;

pub const FLAGS_WITHOUT_WP: u64 = 0b1_0101;

pub const FLAGS_WITHOUT_NXE: u64 = 0b0_0111;

// An entry is written into a table of the guest's.
fn put(mem: &mut [u8; 24576], at: usize, entry: u64)
    requires { at + 8 ≤ 24576 }
    ensures { mem.new ≡ word_put mem.old at entry }
{
    words::write_word(mem, at, entry);
}

// The guest's 24 KiB as they are before a case.
fn memory() -> [u8; 24576]
    ensures { result ≡ guest }
{
    let mut mem = [0u8; 24576];
    put(&mut mem, 0x1000, 0x2007);
    put(&mut mem, 0x2000, 0x3007);
    put(&mut mem, 0x2008, 0x4000_0083);
    put(&mut mem, 0x3000, 0x4007);
    put(&mut mem, 0x3008, 0x60_0087);
    put(&mut mem, 0x4000, 0x5003);
    put(&mut mem, 0x4008, 0x5005);
    put(&mut mem, 0x4010, 0x8000_0000_0000_5007);
    put(&mut mem, 0x4020, 0x100_0000_5007);
    put(&mut mem, 0x4028, 0x5107);
    mem
}

// The image as it is before a case.
fn image() -> [u8; 2048]
    ensures { result ≡ ready }
{
    let mut image = [0u8; 2048];
    calls::start(&mut image, 40);
    calls::write_cr3(&mut image, 0x1000);
    calls::write_mode(&mut image, FLAGS);
    image
}

// The guest of a case: its image, and its memory, all of which is low.
#[derive(Drop)]
pub struct Guest {
    pub image: [u8; 2048],
    pub memory: [u8; 24576],
}

impl Guest {
    // As it is before a case.
    pub fn new() -> Guest
        ensures image { result.image ≡ ready }
        ensures memory { result.memory ≡ guest }
    {
        Guest {
            image: image(),
            memory: memory(),
        }
    }

    // The guest's word at a place.
    pub fn word(&self, at: usize) -> u64
        requires { at + 8 ≤ 24576 }
        ensures { result ≡ word_at self.now.memory at }
    {
        words::read_word(&self.memory, at)
    }

    pub fn translate(&mut self, kind: u64, a: u64) -> Told
        ensures { CameWith (translateOf kind a 0) self.old.image self.new.image self.old.memory self.new.memory result }
    {
        let mut high = [0u8; 0];
        Told::from(translation::translate(&mut self.image, &mut self.memory, &mut high, kind, a, 0))
    }

    pub fn write_cr3(&mut self, value: u64) -> Told
        ensures came { Came (write_cr3 value) self.old.image self.new.image result }
        ensures memory { self.new.memory ≡ self.old.memory }
    {
        Told::from(calls::write_cr3(&mut self.image, value))
    }

    pub fn write_mode(&mut self, flags: u64) -> Told
        ensures came { Came (write_mode flags) self.old.image self.new.image result }
        ensures memory { self.new.memory ≡ self.old.memory }
    {
        Told::from(calls::write_mode(&mut self.image, flags))
    }
}
