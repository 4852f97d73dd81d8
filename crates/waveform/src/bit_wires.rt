// The one-bit wires in a waveform (a VCD file): the text of a level, and those that a tick changes.
ghost use Rattle.std.specs.Prelude.{◌≡◌, length};
ghost use Rattle.room.specs.Room.{put_text, put_end, put_texts, put_ends};
ghost use Rattle.waveform.specs.BitWires.{level_text, level_change, level_wires, level_changes};

use signals::Signals;

// A level and the mark of its wire.
fn level_text(mark: u8, high: bool) -> [u8; 3]
    ensures text { result ≡ level_text mark high }
{
    [if high { b'1' } else { b'0' }, mark, b'\n']
}

// A one-bit wire, where it is written.
fn put_level(room: &mut [u8], at: usize, all: bool, mark: u8, before: bool, level: bool) -> usize
    ensures place { result ≡ put_end room.old at (length (level_change all mark before level)) }
    ensures bytes { room.new ≡ put_text room.old at (level_change all mark before level) }
{
    let text = level_text(mark, level);
    room::put_either(room, at, all | (before != level), &text, b"")
}

// The one-bit wires: the mark of each, and its level in two ticks.
fn wires(b: Signals, s: Signals) -> [(u8, bool, bool); 6]
    ensures wires { result ≡ level_wires b s }
{
    [
        (b'a', b.sync, s.sync),
        (b'b', b.vsync, s.vsync),
        (b'c', b.inactive, s.inactive),
        (b'd', b.blank, s.blank),
        (b'e', b.request, s.request),
        (b'f', b.transfer, s.transfer),
    ]
}

// The one-bit wires.
pub fn put_levels(room: &mut [u8], at: usize, all: bool, b: Signals, s: Signals) -> usize
    ensures place { result ≡ put_ends room.old at (level_changes all b s) }
    ensures bytes { room.new ≡ put_texts room.old at (level_changes all b s) }
{
    let mut end = at;
    for (mark, before, level) in wires(b, s) {
        end = put_level(room, end, all, mark, before, level);
    }
    end
}
