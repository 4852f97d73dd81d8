// The phrases that lines are made of: a wire's level, an address, a colour, and a fault's reason.
ghost use Rattle.std.specs.Prelude.{◌≡◌, length};
ghost use Rattle.room.specs.Room.{put_text, put_end, put_texts, put_ends};
ghost use Rattle.report.specs.Phrases.{level_texts, address_texts, colour_texts, reason_text};

use room::{put, put_either};
use text::hex;

// A wire's name and its level.
pub fn put_level(room: &mut [u8], at: usize, name: &[u8], high: bool) -> usize
    ensures place { result ≡ put_ends room.old at (level_texts name.now high) }
    ensures bytes { room.new ≡ put_texts room.old at (level_texts name.now high) }
{
    let named = put(room, at, name);
    put_either(room, named, high, b"1 ", b"0 ")
}

// The address of a tick, `-` where none is answered.
pub fn put_address(room: &mut [u8], at: usize, answered: bool, address: u32) -> usize
    ensures place { result ≡ put_ends room.old at (address_texts answered address) }
    ensures bytes { room.new ≡ put_texts room.old at (address_texts answered address) }
{
    let text = hex::hex_text(address);
    let named = put(room, at, b"address=");
    put_either(room, named, answered, &text, b"-")
}

// A blank and a colour.
pub fn put_colour(room: &mut [u8], at: usize, colour: u32) -> usize
    ensures place { result ≡ put_ends room.old at (colour_texts colour) }
    ensures bytes { room.new ≡ put_texts room.old at (colour_texts colour) }
{
    let parted = put(room, at, b" ");
    text::put_hex(room, parted, colour)
}

// A fault's reason, by its number (docs/SCRIPT.md); every number beyond has the last.
fn reason(fault: u32) -> &'static [u8]
    ensures text { result.now ≡ reason_text fault }
{
    match fault {
        1 => b"unknown command",
        2 => b"too few words",
        3 => b"too many words",
        4 => b"not a number",
        5 => b"number too large",
        6 => b"beyond the memory",
        7 => b"too large",
        _ => b"too long",
    }
}

// A fault's reason, put.
pub fn put_reason(room: &mut [u8], at: usize, fault: u32) -> usize
    ensures place { result ≡ put_end room.old at (length (reason_text fault)) }
    ensures bytes { room.new ≡ put_text room.old at (reason_text fault) }
{
    put(room, at, reason(fault))
}
