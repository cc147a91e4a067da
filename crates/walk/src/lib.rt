// The walk over the guest's tables, in the rules' two halves. First which page is reached: one step, the same at each level, that calls itself on the next
// table and only reads. Then whether this access may use it; and where it may and a mark is lacking, the same steps again, adding it.
// Inside the recursion everything is a number (specs/Packed says what each stands for), since there a struct or an enum would go through memory.
#![tactic(auto)]

ghost use Rattle.std.specs.Prelude.{◌≡◌, not, ◌+◌, ◌*◌, ◌/◌, ◌%◌, ◌^◌, ◌≤◌, ◌<◌, length};
ghost use Rattle.rules.specs.Bits.{is_on, part};
ghost use Rattle.rules.specs.Memory.{both, entry_in, entry_at, Whole};
ghost use Rattle.walk.specs.Packed.{Ready, MarksIn, Marks, slid, is_reserved_page, rights_of, accessed_in, pack_page, Stops, Ended, Down, MarkedDown, bars_of, Settled, level_in, pack_fault, cause_in, unpack_of, Walks};
ghost use Rattle.rules.specs.declared.Cause.TheVariants.{Protection};
ghost use Rattle.numbers.specs.Needs.{Known};

use rules::{Cause, Control, Found, HIGH_BASE, Rights};

// What an entry outside memory reads as.
const OUTSIDE: u64 = u64::MAX;

// P, RW, US, A and D: an entry is looked at with these turned over. Then each bit that is set, as XD always did, takes a right or a mark away, and what is
// lacking after several entries is their `or`.
const TURNED: u64 = 0x67;

// The entry at a place of one part of memory.
fn entry_in(part: &[u8], at: usize) -> u64
    requires { (at % 8 ≡ 0) × (length part.now % 8 ≡ 0) }
    ensures { result ≡ entry_in part.now at }
{
    if at < part.len() {
        words::read_word(part, at)
    } else {
        OUTSIDE
    }
}

// The entry at a physical address. Low is asked first, by its length alone: most tables stand there.
fn entry(low: &[u8], high: &[u8], at: usize) -> u64
    requires { (at % 8 ≡ 0) × Whole (both low.now high.now) }
    ensures { result ≡ entry_at (both low.now high.now) at }
{
    if at < low.len() {
        return words::read_word(low, at);
    }
    if at < HIGH_BASE {
        return OUTSIDE;
    }
    entry_in(high, at - HIGH_BASE)
}

// The entry at a place of one part, to which accessed (32) is then added, or accessed and dirty (96).
fn mark_in(part: &mut [u8], at: usize, bits: u8) -> u64
    requires { (at % 8 ≡ 0) × (length part.old % 8 ≡ 0) }
    ensures { MarksIn part.old part.new at bits result }
{
    let e = entry_in(part, at);
    if part.len() <= at {
        return e;
    }
    part[at] = part[at] | bits;
    e
}

// The same at a physical address.
fn mark(low: &mut [u8], high: &mut [u8], at: usize, bits: u8) -> u64
    requires { (at % 8 ≡ 0) × Whole (both low.old high.old) }
    ensures { Marks (both low.old high.old) (both low.new high.new) at bits result }
{
    if HIGH_BASE <= at {
        return mark_in(high, at - HIGH_BASE, bits);
    }
    mark_in(low, at, bits)
}

// A page's entry, or one of level 4 with the page bit, has a bit of its row set that is reserved at every width and whether NXE is on or off.
fn is_reserved_page(level: u64, t: u64) -> bool
    ensures { result ≡ is_reserved_page level t }
{
    t & formats::reserved(level, level < 4, 52, true) != 0
}

// The page that a walk reached as a number, from its entry, what is lacking, its level and its base.
fn page(t: u64, s: u64, level: u64, base: u64) -> u64
    requires { (level ≤ 4) × (base < 2 ^ 52) }
    ensures { result ≡ pack_page base level (rights_of s) (is_on 8 t) (not (is_on 6 t)) (accessed_in s) }
{
    let rights = s / 2 % 2 + s / 4 % 2 * 2 + s / 0x8000_0000_0000_0000 % 2 * 4;
    let marks = t / 64 % 2 * 8 + s / 32 % 2 * 16;
    base + (2048 + t / 256 % 2 * 256 + level * 32 + (rights + marks))
}

// The walk ends at an entry that leads to no table: at its page or, below 2048, stuck.
fn end(t: u64, s: u64, level: u64, bars: u64) -> u64
    requires { (0 < level) × ((level ≤ 4) × ((0x80 ≤ bars) × Stops level t bars)) }
    ensures { Ended t s level bars result }
{
    if t & (bars - 0x80) == 0 {
        if is_reserved_page(level, t) {
            return level * 32 + 1;
        }
        return page(t, s, level, words::part(52, 3 + 9 * level, t));
    }
    if t % 2 == 1 {
        return level * 32;
    }
    level * 32 + 1
}

// The next table: bits 51 down to 12.
fn next(e: u64) -> u64
    ensures { (result ≡ part 52 12 e) × ((result < 2 ^ 52) × (result % 8 ≡ 0)) }
{
    e / 4096 % 0x100_0000_0000 * 4096
}

// The index stands in the top nine bits of x.
fn place(base: u64, x: u64) -> usize
    requires { (base < 2 ^ 52) × (base % 8 ≡ 0) }
    ensures { (result ≡ base + 8 * (x / 2 ^ 55)) × (result % 8 ≡ 0) }
{
    (base + 8 * (x / 0x80_0000_0000_0000)) as usize
}

// Which page is reached from a level on: the table at base, the bits that bar the way to a next one, what was lacking so far.
fn down(low: &[u8], high: &[u8], base: u64, x: u64, level: u64, bars: u64, seen: u64) -> u64
    requires { (0 < level) × ((level ≤ 4) × ((base < 2 ^ 52) × ((base % 8 ≡ 0) × (Whole (both low.now high.now) × (0x80 ≤ bars))))) }
    ensures { Down (both low.now high.now) x level base seen bars result }
{
    let t = entry(low, high, place(base, x)) ^ TURNED;
    let s = seen | t;
    if level == 1 {
        return end(t, s, level, bars);
    }
    if t & bars == 0 {
        return down(low, high, next(t), x << 9, level - 1, bars, s);
    }
    end(t, s, level, bars)
}

// The same entries once more, down to the page's level: each is marked as accessed, and the page's as is given. This is a loop: a call for each level would hand on both
// slices through memory.
fn mark_down(low: &mut [u8], high: &mut [u8], root: u64, a: u64, last: u64, bits: u8)
    requires { (root < 2 ^ 52) × ((root % 8 ≡ 0) × Whole (both low.old high.old)) }
    ensures { MarkedDown (both low.old high.old) (both low.new high.new) (slid 4 a) 4 root last bits }
{
    let mut base = root;
    let mut x = a << 16;
    for _level in (last..4).rev() {
        base = next(mark(low, high, place(base, x), 32));
        x = x << 9;
    }
    mark(low, high, place(base, x), bits);
}

// The bits of a turned entry that bar the way to a next table: not present, a page, and the row of a table, which at levels 2 and 3 is the same and at level 4 has
// the page bit too.
fn bars_of(c: Control) -> u64
    requires { c.width ≤ 52 }
    ensures { result ≡ bars_of c }
{
    formats::reserved(2, false, c.width, words::is_on(4, c.flags)) + 0x81
}

// The page that was reached may not be used: a fault at its level.
fn protection(n: u64) -> u64
    ensures { result ≡ pack_fault Protection (level_in n) }
{
    n / 32 % 8 * 32 + 2
}

// Whether an access may use the page that was reached, by what it needs of it and what must be clear, which the page then lacks; if so, the page lacks no mark afterwards.
fn settle(low: &mut [u8], high: &mut [u8], root: u64, a: u64, n: u64, need: u64, clear: u64) -> u64
    requires { (root < 2 ^ 52) × ((root % 8 ≡ 0) × Whole (both low.old high.old)) }
    ensures { Settled (both low.old high.old) (both low.new high.new) root a n need clear result }
{
    if (n ^ clear) & clear != 0 {
        return protection(n);
    }
    let lacks = n & (need | 16);
    if lacks == 0 {
        return n;
    }
    if lacks % 8 != 0 {
        return protection(n);
    }
    let bits = (32 + need / 8 % 2 * 64) as u8;
    mark_down(low, high, root, a, n / 32 % 8, bits);
    n - lacks
}

// The cause of a fault, from its number.
fn cause_of(n: u64) -> Cause
    ensures { result ≡ cause_in n }
{
    match n % 32 {
        0 => Cause::NotPresent,
        1 => Cause::Reserved,
        _ => Cause::Protection,
    }
}

// A finding as its number says it.
fn unpack(n: u64) -> Found
    requires { level_in n ≤ 5 }
    ensures { result ≡ unpack_of n }
{
    let level = n / 32 % 8;
    let read = 5 - level;
    if 2048 <= n {
        return Found::Page {
            base: n / 4096 * 4096,
            level,
            rights: Rights {
                writable: !words::is_on(0, n),
                user: !words::is_on(1, n),
                executable: !words::is_on(2, n),
            },
            global: words::is_on(8, n),
            dirty: !words::is_on(3, n),
            read,
        };
    }
    Found::Fault {
        cause: cause_of(n),
        level,
        read,
    }
}

// The walk of an address for an access: what it finds, with the accessed and dirty bits added to memory. What the access asks of a page is worked out once there is one.
pub fn walk(low: &mut [u8], high: &mut [u8], c: Control, access: u64, a: u64) -> Found
    requires { Ready c (both low.old high.old) × Known c.flags access }
    ensures { Walks c access a (both low.old high.old) (both low.new high.new) result }
{
    let n = down(low, high, c.root, a << 16, 4, bars_of(c), 0);
    if n < 2048 {
        return unpack(n);
    }
    let need = numbers::needed(c.flags, access);
    unpack(settle(low, high, c.root, a, n, need, access / 8))
}
