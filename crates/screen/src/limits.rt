// Refusals 10 to 18 (01, "Refusal numbers"; 02, Q-4). The first, of `range`, bounds every count that the later ones add up.
ghost use Rattle.std.specs.Prelude.{◌≡◌};
ghost use Rattle.screen.specs.Limits.{refuses11, refuses12, refuses13, refuses14, refuses15, refuses16, refuses17, refuses18, later_limit, limit_of, Bounded};

use crate::{conversions, range};
use units::Screen;

fn refuses_11(s: Screen) -> bool
    ensures refusal { result ≡ refuses11 s }
{
    s.linetime.0 % 2 == 1
}

fn refuses_12(s: Screen) -> bool
    requires { Bounded 0xFFFFFF s }
    ensures refusal { result ≡ refuses12 s }
{
    !(2 * s.halfsync.0 + s.backporch.0 + s.display.0 < s.linetime.0)
}

fn refuses_13(s: Screen) -> bool
    requires { Bounded 0xFFFFFF s }
    ensures refusal { result ≡ refuses13 s }
{
    !(2 * s.halfsync.0 + s.backporch.0 + s.shortdisplay.0 < s.linetime.0 / 2)
}

fn refuses_14(s: Screen) -> bool
    ensures refusal { result ≡ refuses14 s }
{
    !(s.broadpulse.0 < s.linetime.0 / 2)
}

fn refuses_15(control: u32, s: Screen) -> bool
    ensures refusal { result ≡ refuses15 control s }
{
    let period = control::shift_period(control) as u64;
    !(s.display.0 % period == 0)
}

fn refuses_16(s: Screen) -> bool
    ensures refusal { result ≡ refuses16 s }
{
    !s.interlaced & ((s.vdisplay.0 % 2 == 1) | (s.vblank.0 % 2 == 1))
}

fn refuses_17(s: Screen) -> bool
    requires { Bounded 0xFFFFFF s }
    ensures refusal { result ≡ refuses17 s }
{
    !(s.transferdelay.0 + 1 < s.backporch.0) | (s.shortdisplay.0 < s.transferdelay.0)
}

fn refuses_18(s: Screen) -> bool
    requires { Bounded 0xFFFFFF s }
    ensures refusal { result ≡ refuses18 s }
{
    let halves = conversions::halves_in_field(s).0;
    s.interlaced & ((s.vdisplay.0 % 2 == 0) | (halves % 2 == 0))
}

// The lowest of 11 to 18 that holds, or 0.
#[tactic(auto, unfolding(crate::specs::Limits::later_limit))]
fn later_limit(control: u32, s: Screen) -> u32
    requires { Bounded 0xFFFFFF s }
    ensures refusal { result ≡ later_limit control s }
{
    if refuses_11(s) {
        11
    } else if refuses_12(s) {
        12
    } else if refuses_13(s) {
        13
    } else if refuses_14(s) {
        14
    } else if refuses_15(control, s) {
        15
    } else if refuses_16(s) {
        16
    } else if refuses_17(s) {
        17
    } else if refuses_18(s) {
        18
    } else {
        0
    }
}

// The lowest of 10 to 18 that holds under a control value, or 0: for any numbers.
// As it is: document 01's number, and 0 for none, which the definition limit_of and the theorems accepted and unrefused say.
#[tactic(auto, unfolding(crate::specs::Limits::limit_of))]
pub fn limit(control: u32, s: Screen) -> u32
    ensures refusal { result ≡ limit_of control s }
{
    if range::refuses_10(s) {
        10
    } else {
        later_limit(control, s)
    }
}
