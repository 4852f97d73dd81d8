// Text that programs write, put into a lent room: numbers, rows of them, and the head of a PPM.
#![tactic(auto)]

pub mod hex;
pub mod ppm;
pub mod rows;

ghost use Rattle.std.specs.Prelude.{◌≡◌, length};
ghost use Rattle.text.specs.Hex.{hex_text};
ghost use Rattle.room.specs.Room.{put_text, put_end, put_texts, put_ends, KeptRoom};
ghost use Rattle.text.specs.Decimal.{decimal_text};
ghost use Rattle.text.specs.Lines.{count_texts};

use crate::hex::hex_text;
use room::put;

// A number as `#00002A`.
pub fn put_hex(room: &mut [u8], at: usize, value: u32) -> usize
    ensures place { result ≡ put_end room.old at 7 }
    ensures bytes { room.new ≡ put_text room.old at (hex_text value) }
    ensures within { KeptRoom room.old room.new result }
{
    let text = hex_text(value);
    put(room, at, &text)
}

// A number in decimal.
#[tactic(auto, using(crate::proofs::Decimal::decimal_whole))]
pub fn put_decimal(room: &mut [u8], at: usize, value: u64) -> usize
    ensures place { result ≡ put_end room.old at (length (decimal_text value)) }
    ensures bytes { room.new ≡ put_text room.old at (decimal_text value) }
    ensures within { KeptRoom room.old room.new result }
{
    let mut text = [0u8; 20];
    let count = io::decimal(value, &mut text);
    put(room, at, &text[..count])
}

// A text, a number in decimal, and a line's end.
#[tactic(auto, unfolding(room::specs::Room::put_texts, room::specs::Room::put_ends))]
pub fn put_count(room: &mut [u8], at: usize, text: &[u8], value: u64) -> usize
    ensures place { result ≡ put_ends room.old at (count_texts text.now value) }
    ensures bytes { room.new ≡ put_texts room.old at (count_texts text.now value) }
    ensures within { KeptRoom room.old room.new result }
{
    let named = put(room, at, text);
    let counted = put_decimal(room, named, value);
    put(room, counted, b"\n")
}
