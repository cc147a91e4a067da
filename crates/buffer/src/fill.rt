// A fill of a set: into the lowest free way, or over the victim, and then the victim moves on.
ghost use Rattle.std.specs.Prelude.{◌≡◌, ◌+◌, ◌*◌, ◌<◌, length};
ghost use Rattle.rules.specs.Image.{victim as victimOf, moved_on, encode, decode, IsImage};
ghost use Rattle.rules.specs.Buffer.{stored};
ghost use Rattle.buffer.specs.Fill.{IsLowest, slot_put, filled_at};

// The lowest free way of a set.
fn free_way(image: &[u8; 2048], set: usize) -> Option<usize>
    requires { set < 25 }
    ensures { IsLowest (decode image.now) set result }
{
    for way in 0..4 {
        let tag = words::read_word(image, 32 + (4 * set + way) * 16);
        if !words::is_on(0, tag) {
            return Some(way);
        }
    }
    None
}

// A set's victim, out of the victims of all sets.
fn victim(set: usize, victims: u64) -> u64
    requires { set < 25 }
    ensures { (result ≡ victimOf set victims) × (result < 4) }
{
    (victims >> (2 * set)) % 4
}

// The victims of all sets, once this set's is the next way.
fn moved_on(set: usize, victims: u64) -> u64
    requires { set < 25 }
    ensures { result ≡ moved_on set victims }
{
    let way = victim(set, victims);
    victims - (way << (2 * set)) + (((way + 1) % 4) << (2 * set))
}

// A slot's two words in a set's 64 bytes.
fn store(slots: &mut [u8], way: usize, tag: u64, datum: u64)
    requires { (length slots.old ≡ 64) × (way < 4) }
    ensures { slots.new ≡ slot_put slots.old way tag datum }
{
    let at = way * 16;
    words::write_word(slots, at, tag);
    words::write_word(slots, at + 8, datum);
}

// The same of the image: the set's part is lent on, and only it is written.
fn store_way(image: &mut [u8; 2048], set: usize, way: usize, tag: u64, datum: u64)
    requires { IsImage image.old × ((set < 25) × (way < 4)) }
    ensures { image.new ≡ encode (stored (4 * set + way) (record { tag = tag; datum = datum }) (decode image.old)) }
{
    let a = 32 + set * 64;
    let e = a + 64;
    store(&mut image[a..e], way, tag, datum);
}

// Word 3, the victims, is written only where no way is free.
pub fn fill(image: &mut [u8; 2048], set: usize, tag: u64, datum: u64)
    requires { IsImage image.old × (set < 25) }
    ensures { image.new ≡ encode (filled_at set tag datum (decode image.old)) }
{
    if let Some(way) = free_way(image, set) {
        store_way(image, set, way, tag, datum);
        return;
    }
    let victims = words::read_word(image, 24);
    words::write_word(image, 24, moved_on(set, victims));
    store_way(image, set, victim(set, victims) as usize, tag, datum);
}
