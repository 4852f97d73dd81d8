// A picture as a file (a binary PPM): its head. The colours follow as they stand in the buffer.
ghost use Rattle.std.specs.Prelude.{◌≡◌};
ghost use Rattle.room.specs.Room.{put_texts, put_ends};
ghost use Rattle.text.specs.Ppm.{ppm_texts};

// The head of a PPM.
#[tactic(auto, unfolding(room::specs::Room::put_texts, room::specs::Room::put_ends))]
pub fn put_ppm(room: &mut [u8], at: usize, width: u64, height: u64) -> usize
    ensures place { result ≡ put_ends room.old at (ppm_texts width height) }
    ensures bytes { room.new ≡ put_texts room.old at (ppm_texts width height) }
{
    let kind = room::put(room, at, b"P6\n");
    let wide = crate::put_decimal(room, kind, width);
    let parted = room::put(room, wide, b" ");
    let high = crate::put_decimal(room, parted, height);
    room::put(room, high, b"\n255\n")
}
