// What `store` leaves: fourteen values written as a sheet.
ghost use Rattle.std.specs.Prelude.{◌≡◌, length, get_or, take};
ghost use Rattle.sheet.specs.Writer.{write_refusal};
ghost use Rattle.paperwork.specs.Store.{sheet_values, written_into, stored_of};

use script::command::Command;
use sheet::writer;

// What a `store` answers: a refusal or 0, the room, and its bytes.
// As it is: the refusal is document 01's number, the bytes are answered beside it too (`stored_of`), and no heap holds as many as the room.
#[derive(Clone, Copy)]
pub struct Stored {
    pub refusal: u32,
    pub room: usize,
    pub bytes: [u8; 80],
}

// The values of the sheet: the fourteen numbers past the first.
fn sheet_values(numbers: [u32; 81]) -> [u32; 14]
    ensures values { result ≡ sheet_values numbers }
{
    let mut sheet = [0u32; 14];
    sheet.copy_from_slice(&numbers[1..15]);
    sheet
}

// A sheet written into the first bytes of a room.
fn written_into(values: [u32; 14], room: &mut [u8], count: usize) -> u32
    ensures room { length room.new ≡ length room.old }
    ensures refusal { result ≡ write_refusal values (take count room.old) }
    ensures bytes { room.new ≡ written_into values room.old count }
{
    let end = count.min(room.len());
    writer::write(values, &mut room[..end])
}

// `store`: fourteen values as a sheet, in a room whose bytes are #AA before.
pub fn stored_of(c: Command) -> Stored
    ensures room { result.room ≡ get_or c.left.values 0 0 }
    ensures stored { result ≡ stored_of c }
{
    let left = c.left;
    let numbers = left.values;
    let room = numbers[0] as usize;
    let sheet = sheet_values(numbers);
    let mut bytes = [0xAAu8; 80];
    let refusal = written_into(sheet, &mut bytes, room);
    Stored {
        refusal,
        room,
        bytes,
    }
}
