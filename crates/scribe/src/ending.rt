// The script's lines around its pokes and its start: the memory that is lent, a frame's ticks, the picture, the checksums.
ghost use Rattle.std.specs.Prelude.{◌≡◌, length};
ghost use Rattle.room.specs.Room.{put_text, put_end};
ghost use Rattle.scribe.specs.Ending.{memory_text, end_text};

// The line that says how much memory is lent.
pub fn put_memory(room: &mut [u8], at: usize, interlaced: bool) -> usize
    ensures place { result ≡ put_end room.old at (length (memory_text interlaced)) }
    ensures bytes { room.new ≡ put_text room.old at (memory_text interlaced) }
{
    room::put_either(room, at, interlaced, b"memory 77824\n", b"memory 76800\n")
}

// The script's last lines.
pub fn put_end(room: &mut [u8], at: usize, interlaced: bool) -> usize
    ensures place { result ≡ put_end room.old at (length (end_text interlaced)) }
    ensures bytes { room.new ≡ put_text room.old at (end_text interlaced) }
{
    room::put_either(
        room,
        at,
        interlaced,
        b"run 51450\nnine\nrun 51450\npicture 923520\nnine\n",
        b"run 105000\npicture 921600\nnine\n",
    )
}
