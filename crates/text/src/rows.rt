// Bytes and numbers as lines of text, put into a lent room.
ghost use Rattle.std.specs.Prelude.{◌≡◌};
ghost use Rattle.room.specs.Room.{put_texts, put_ends, KeptRoom};
ghost use Rattle.text.specs.Rows.{row_texts, values_texts};

use crate::hex::byte_text;
use room::put;

// Bytes as a line of hexadecimal digits.
#[tactic(auto, unfolding(room::specs::Room::put_texts, room::specs::Room::put_ends, room::specs::Room::texts_of), using(room::proofs::Laying::puts))]
pub fn put_row(room: &mut [u8], at: usize, bytes: &[u8]) -> usize
    ensures place { result ≡ put_ends room.old at (row_texts bytes.now) }
    ensures bytes { room.new ≡ put_texts room.old at (row_texts bytes.now) }
    ensures within { KeptRoom room.old room.new result }
{
    let mut end = at;
    for byte in bytes {
        end = put(room, end, &byte_text(*byte));
    }
    put(room, end, b"\n")
}

// Numbers in decimal, a blank before each.
#[tactic(auto, unfolding(room::specs::Room::put_texts, room::specs::Room::put_ends, room::specs::Room::texts_of), using(room::proofs::Laying::puts))]
pub fn put_values(room: &mut [u8], at: usize, values: &[u32]) -> usize
    ensures place { result ≡ put_ends room.old at (values_texts values.now) }
    ensures bytes { room.new ≡ put_texts room.old at (values_texts values.now) }
    ensures within { KeptRoom room.old room.new result }
{
    let mut end = at;
    for value in values {
        let blank = put(room, end, b" ");
        end = crate::put_decimal(room, blank, u64::from(*value));
    }
    put(room, end, b"\n")
}
