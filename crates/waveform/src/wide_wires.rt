// The wires of 24 bits in a waveform (a VCD file): the text of a number, and those that a tick changes.
ghost use Rattle.std.specs.Prelude.{◌≡◌, ◌+◌, ◌/◌, ◌%◌, ◌^◌, ◌<◌, length};
ghost use Rattle.room.specs.Room.{put_text, put_end, put_texts, put_ends};
ghost use Rattle.waveform.specs.WideWires.{bus_text, bus_change, bus_wires, bus_changes};

use signals::Signals;

// Bit n of a number, as a digit.
fn bit(value: u32, n: u32) -> u8
    requires { n < 24 }
    ensures digit { result ≡ 48 + value / 2 ^ n % 2 }
{
    (48 + (value >> n) % 2) as u8
}

// Twenty-four bits and the mark of their wire.
fn bus_text(mark: u8, value: u32) -> [u8; 28]
    ensures text { result ≡ bus_text mark value }
{
    let mut text = [b'b'; 28];
    text[25] = b' ';
    text[26] = mark;
    text[27] = b'\n';
    for (k, digit) in text[1..25].iter_mut().enumerate() {
        *digit = bit(value, 23 - k as u32);
    }
    text
}

// A wire of 24 bits, where it is written.
fn put_bus(room: &mut [u8], at: usize, all: bool, mark: u8, before: u32, value: u32) -> usize
    ensures place { result ≡ put_end room.old at (length (bus_change all mark before value)) }
    ensures bytes { room.new ≡ put_text room.old at (bus_change all mark before value) }
{
    let text = bus_text(mark, value);
    room::put_either(room, at, all | (before != value), &text, b"")
}

// The wires of 24 bits: the mark of each, and its value in two ticks.
fn wires(b: Signals, s: Signals) -> [(u8, u32, u32); 5]
    ensures wires { result ≡ bus_wires b s }
{
    let old = b.dots;
    let new = s.dots;
    [
        (b'g', b.address, s.address),
        (b'h', old[0].colour, new[0].colour),
        (b'i', old[1].colour, new[1].colour),
        (b'j', old[2].colour, new[2].colour),
        (b'k', old[3].colour, new[3].colour),
    ]
}

// The wires of 24 bits.
pub fn put_buses(room: &mut [u8], at: usize, all: bool, b: Signals, s: Signals) -> usize
    ensures place { result ≡ put_ends room.old at (bus_changes all b s) }
    ensures bytes { room.new ≡ put_texts room.old at (bus_changes all b s) }
{
    let mut end = at;
    for (mark, before, value) in wires(b, s) {
        end = put_bus(room, end, all, mark, before, value);
    }
    end
}
