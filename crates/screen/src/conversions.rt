// The conversions between the three units (01, "Starting a screen"), of counts that 64 bits hold.
ghost use Rattle.std.specs.Prelude.{◌≡◌, ◌*◌, ◌/◌, ◌^◌, ◌<◌};
ghost use Rattle.units.specs.Parameters.{halves_in_field};
ghost use Rattle.units.specs.Units.{pixels_of, units_of};
ghost use Rattle.screen.specs.Limits.{Bounded};

use units::{HalfLines, Pixels, Screen, ScreenUnits};

// One screen unit is four pixels.
pub fn pixels_of(units: ScreenUnits) -> Pixels
    requires { 4 * units.0 < 2 ^ 64 }
    ensures pixels { result ≡ pixels_of units }
{
    Pixels(4 * units.0)
}

// A half line is half the line time.
pub fn units_of(lines: HalfLines, linetime: ScreenUnits) -> ScreenUnits
    requires { linetime.0 / 2 * lines.0 < 2 ^ 64 }
    ensures units { result ≡ units_of lines linetime }
{
    ScreenUnits(linetime.0 / 2 * lines.0)
}

// The half lines of a field: its five periods.
pub fn halves_in_field(s: Screen) -> HalfLines
    requires { Bounded 0xFFFFFF s }
    ensures halves { result.0 ≡ halves_in_field s }
{
    HalfLines(s.vpreequalise.0 + s.vsync.0 + s.vpostequalise.0 + s.vblank.0 + s.vdisplay.0)
}
