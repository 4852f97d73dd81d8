// Refusal 10 (01, "Refusal numbers"): the range of a screen's parameters.
ghost use Rattle.std.specs.Prelude.{◌≡◌};
ghost use Rattle.screen.specs.Range.{out_of_range, refuses10};

use units::Screen;

// The largest screen parameter.
const MOST: u64 = 4095;

fn is_out_of_range(n: u64) -> bool
    ensures range { result ≡ out_of_range n }
{
    (n == 0) | (MOST < n)
}

pub fn refuses_10(s: Screen) -> bool
    ensures refusal { result ≡ refuses10 s }
{
    [
        s.halfsync.0,
        s.backporch.0,
        s.display.0,
        s.shortdisplay.0,
        s.broadpulse.0,
        s.vsync.0,
        s.vpreequalise.0,
        s.vpostequalise.0,
        s.vblank.0,
        s.vdisplay.0,
        s.linetime.0,
        s.meminit.0,
        s.transferdelay.0,
    ]
    .iter()
    .any(|n| is_out_of_range(*n))
}
