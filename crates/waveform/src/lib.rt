// A waveform as text (a VCD file): its head, and its ticks with their times.
#![tactic(auto)]

mod bit_wires;
mod wide_wires;

ghost use Rattle.std.specs.Prelude.{◌≡◌, length};
ghost use Rattle.room.specs.Room.{put_text, put_end, put_texts, put_ends};
ghost use Rattle.waveform.specs.Waveform.{wire_texts, tick_texts, head_text};

use signals::Signals;

// A tick that is written: the first with every wire.
fn put_wires(room: &mut [u8], at: usize, first: bool, k: u64, b: Signals, s: Signals) -> usize
    ensures place { result ≡ put_ends room.old at (wire_texts first k b s) }
    ensures bytes { room.new ≡ put_texts room.old at (wire_texts first k b s) }
{
    let time = text::put_count(room, at, b"#", k);
    let begun = room::put_either(room, time, first, b"$dumpvars\n", b"");
    let levels = bit_wires::put_levels(room, begun, first, b, s);
    let buses = wide_wires::put_buses(room, levels, first, b, s);
    room::put_either(room, buses, first, b"$end\n", b"")
}

// Tick k, after one that put out `b`.
pub fn put_tick(room: &mut [u8], at: usize, first: bool, k: u64, b: Signals, s: Signals) -> usize
    ensures place { result ≡ put_ends room.old at (tick_texts first k b s) }
    ensures bytes { room.new ≡ put_texts room.old at (tick_texts first k b s) }
{
    if first | (b != s) {
        return put_wires(room, at, first, k, b, s);
    }
    at
}

// The head. It has no date, so that one script gives the same bytes always.
pub fn put_head(room: &mut [u8], at: usize) -> usize
    ensures place { result ≡ put_end room.old at (length head_text) }
    ensures bytes { room.new ≡ put_text room.old at head_text }
{
    let head = b"$version Obblestra trace $end\n$timescale 1 ns $end\n$scope module g364 $end\n\
        $var wire 1 a sync $end\n$var wire 1 b vsync $end\n$var wire 1 c inactive $end\n\
        $var wire 1 d blank $end\n$var wire 1 e request $end\n$var wire 1 f transfer $end\n\
        $var wire 24 g address $end\n$var wire 24 h pixel0 $end\n$var wire 24 i pixel1 $end\n\
        $var wire 24 j pixel2 $end\n$var wire 24 k pixel3 $end\n$upscope $end\n$enddefinitions $end\n";
    room::put(room, at, head)
}
