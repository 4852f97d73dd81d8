// A screen's totals (01, "The bench screen and its neighbours"; 02, Q-4): the refusal, or what one frame comes to.
ghost use Rattle.std.specs.Prelude.{◌≡◌, ◌^◌, ◌<◌, ◌≤◌};
ghost use Rattle.units.specs.Parameters.{screen_of, in_field, fields};
ghost use Rattle.screen.specs.Limits.{Bounded};
ghost use Rattle.screen.specs.Totals.{field_transfers, frame_totals, totals_of};

use crate::{conversions, limits};
use units::{Pixels, Screen, ScreenUnits};

// The refusal, or 0 and what one frame comes to; a refused screen has 0 for all else.
// As it is: a number beside the rest, not a Result: the definition totals_of has it, and the theorem TotalsCounted in `demands` speaks of it.
#[derive(Clone, Copy)]
pub struct Totals {
    pub refusal: u32,
    pub ticks: ScreenUnits,
    pub visible: ScreenUnits,
    pub transfers: u64,
    pub pixels: Pixels,
}

// A field's visible ticks over the row length, rounded up.
fn field_transfers(params: [u32; 14], s: Screen, second: bool) -> u64
    requires screen { s ≡ screen_of params s.interlaced }
    requires bounded { Bounded 0xFFFFFF s }
    ensures transfers { result ≡ field_transfers (in_field second s) }
    ensures bound { result < 2 ^ 51 }
{
    let row = s.meminit.0 + s.transferdelay.0;
    let shown = lines::shown_in(params, s.interlaced, second);
    shown.visible.div_ceil(row)
}

// The fields of a frame.
fn fields(s: Screen) -> u64
    ensures fields { result ≡ fields s }
    ensures bound { result ≤ 2 }
{
    if s.interlaced { 2 } else { 1 }
}

// What the frame comes to where 24 bits hold every parameter.
fn count(params: [u32; 14], s: Screen) -> Totals
    requires screen { s ≡ screen_of params s.interlaced }
    requires bounded { Bounded 0xFFFFFF s }
    ensures totals { result ≡ frame_totals s }
{
    let field = conversions::units_of(conversions::halves_in_field(s), s.linetime);
    let ticks = ScreenUnits(fields(s) * field.0);
    let visible = ScreenUnits(s.display.0 * units::displayed_lines(s));
    let first = field_transfers(params, s, false);
    let second = field_transfers(params, s, true);
    Totals {
        refusal: 0,
        ticks,
        visible,
        transfers: first + base::choose(s.interlaced, second, 0),
        pixels: conversions::pixels_of(visible),
    }
}

// What one frame of an accepted screen comes to, in the format of the control word, or the refusal: for any numbers.
pub fn frame_totals(control: u32, params: [u32; 14]) -> Totals
    ensures totals { result ≡ totals_of control params }
{
    let interlaced = control::is_interlaced(control);
    let s = units::screen_of(params, interlaced);
    let refusal = limits::limit(control, s);
    if refusal == 0 {
        return count(params, s);
    }
    Totals {
        refusal,
        ticks: ScreenUnits(0),
        visible: ScreenUnits(0),
        transfers: 0,
        pixels: Pixels(0),
    }
}
