// The script's lines that poke picture memory, in hexadecimal.
ghost use Rattle.std.specs.Prelude.{◌≡◌};
ghost use Rattle.room.specs.Room.{put_texts, put_ends};
ghost use Rattle.scribe.specs.Pokes.{poke_texts};

use text::hex;

// The line that pokes the bytes of a part of the memory, which stands at `place`.
#[tactic(auto, unfolding(room::specs::Room::put_texts, room::specs::Room::put_ends, room::specs::Room::texts_of), using(room::proofs::Laying::puts))]
pub fn put_poke(room: &mut [u8], at: usize, place: u32, part: &[u8]) -> usize
    ensures place { result ≡ put_ends room.old at (poke_texts place part.now) }
    ensures bytes { room.new ≡ put_texts room.old at (poke_texts place part.now) }
{
    let named = room::put(room, at, b"poke ");
    let mut end = text::put_hex(room, named, place);
    for byte in part {
        let marked = room::put(room, end, b" #");
        end = room::put(room, marked, &hex::byte_text(*byte));
    }
    room::put(room, end, b"\n")
}
