// The writer of screen sheets (01, "Screen sheet"). Any values and any room may be given.
ghost use Rattle.std.specs.Prelude.{◌≡◌, ◌+◌, ◌≤◌, ◌<◌, length};
ghost use Rattle.std.proofs.lemmas.List.Edits.{sets};
ghost use Rattle.sheet.specs.Encoding.{field_bytes, over};
ghost use Rattle.sheet.specs.Writer.{write_refusal, room_written};

use crate::tags;

// Whether some value is over 65,535.
fn is_over(values: [u32; 14]) -> bool
    ensures over { result ≡ over values }
{
    values.iter().any(|value| 65535 < *value)
}

// The refusal of a write, or 0.
fn write_refusal(values: [u32; 14], room: &[u8]) -> u32
    ensures refusal { result ≡ write_refusal values room.now }
{
    let over = is_over(values);
    let small = base::choose(room.len() < 70, 35, 0);
    base::choose(over, 34, small)
}

// One field stored from `at` on.
fn put_field(room: &mut [u8], at: usize, tag: u8, value: u32)
    requires fits { (at + 5 ≤ length room.old) × (value < 65536) }
    ensures bytes { room.new ≡ sets room.old at (field_bytes tag value) }
{
    room[at] = tag;
    room[at + 1] = 0;
    room[at + 2] = 2;
    room[at + 3] = (value / 256) as u8;
    room[at + 4] = (value % 256) as u8;
}

// As it is: the refusal is document 01's number, 0 for none, as the definition write_refusal has it and the theorem taken.
// The sheet of fourteen values, written at the front of `room`; what stands past its 70 bytes is left alone.
pub fn write(values: [u32; 14], room: &mut [u8]) -> u32
    ensures refusal { result ≡ write_refusal values room.old }
    ensures bytes { room.new ≡ room_written values room.old }
{
    let refusal = write_refusal(values, room);
    if refusal == 0 {
        for i in 0..14 {
            put_field(room, 5 * i, tags::tag_of(i), values[i]);
        }
    }
    refusal
}
