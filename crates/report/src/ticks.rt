// A tick's line (docs/SCRIPT.md).
ghost use Rattle.std.specs.Prelude.{◌≡◌};
ghost use Rattle.room.specs.Room.{put_texts, put_ends};
ghost use Rattle.report.specs.TickLines.{dots_texts, tick_line_texts};

use crate::phrases;
use crate::phrases::{put_colour, put_level};
use room::put;
use signals::Signals;

// The four pixels of a tick, and the line's end.
#[tactic(auto, unfolding(room::specs::Room::put_texts, room::specs::Room::put_ends, room::specs::Room::texts_of), using(room::proofs::Laying::puts))]
fn put_colours(room: &mut [u8], at: usize, s: Signals) -> usize
    ensures place { result ≡ put_ends room.old at (dots_texts s) }
    ensures bytes { room.new ≡ put_texts room.old at (dots_texts s) }
{
    let mut end = at;
    for dot in s.dots {
        end = put_colour(room, end, dot.colour);
    }
    put(room, end, b"\n")
}

// A tick's line.
pub fn put_tick(room: &mut [u8], at: usize, s: Signals) -> usize
    ensures place { result ≡ put_ends room.old at (tick_line_texts s) }
    ensures bytes { room.new ≡ put_texts room.old at (tick_line_texts s) }
{
    let sync = put_level(room, at, b"sync=", s.sync);
    let vsync = put_level(room, sync, b"vsync=", s.vsync);
    let inactive = put_level(room, vsync, b"inactive=", s.inactive);
    let blank = put_level(room, inactive, b"blank=", s.blank);
    let request = put_level(room, blank, b"request=", s.request);
    let address = phrases::put_address(room, request, s.transfer, s.address);
    put_colours(room, address, s)
}
