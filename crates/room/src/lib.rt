// Lent bytes: texts put into them, and their parts.
#![tactic(auto)]

pub mod bytes;

ghost use Rattle.std.specs.Prelude.{◌≡◌, cond, length, take, ◌-◌, ◌≤◌};
ghost use Rattle.room.specs.Room.{put_text, put_end, KeptRoom};

// A text put into a room at a place, and the place past it. Where it does not fit nothing is put.
// As it is: room and place apart, here and above: a struct of both would lend two of its fields at once, of which no proof is made yet.
#[tactic(auto, unfolding(crate::specs::Room::put_text, crate::specs::Room::put_end), using(crate::proofs::Laying::laid_over))]
pub fn put(room: &mut [u8], at: usize, text: &[u8]) -> usize
    ensures place { result ≡ put_end room.old at (length text.now) }
    ensures bytes { room.new ≡ put_text room.old at text.now }
    ensures within { KeptRoom room.old room.new result }
{
    let end = room.len();
    if end < at {
        return end;
    }
    let count = text.len();
    if end - at < count {
        return at;
    }
    room[at..at + count].copy_from_slice(text);
    at + count
}

// One text where a test holds, and the other where not.
pub fn put_either(room: &mut [u8], at: usize, test: bool, one: &[u8], other: &[u8]) -> usize
    ensures place { result ≡ put_end room.old at (length (cond test one.now other.now)) }
    ensures bytes { room.new ≡ put_text room.old at (cond test one.now other.now) }
{
    if test {
        return put(room, at, one);
    }
    put(room, at, other)
}

// The first bytes, so many of them as are asked for and are there.
pub fn lent(bytes: &[u8], count: usize) -> &[u8]
    ensures bytes { result.now ≡ take count bytes.now }
{
    &bytes[..count.min(bytes.len())]
}

// A place so many bytes on, and never past the end.
pub fn later(at: usize, count: usize, end: usize) -> usize
    ensures within { result ≤ end }
    ensures left { end - result ≡ end - at - count }
{
    at.saturating_add(count).min(end)
}
