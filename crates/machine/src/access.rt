// What a register write is refused for (01, "Starting a screen", "Refusal numbers"; 02, Q-4). Any numbers may be asked about.
ghost use Rattle.std.specs.Prelude.{◌≡◌};
ghost use Rattle.machine.specs.Access.{changes_format, start_limit, write_refusal};

use registers::map::Place;
use registers::{Registers, map};
use screen::limits;

// A control word changes bit 1 of one that runs, and does not stop it.
fn changes_format(r: Registers, value: u32) -> bool
    ensures test { result ≡ changes_format r value }
{
    let old = r.control;
    let other = control::is_interlaced(value) != control::is_interlaced(old);
    control::is_running(old) & control::is_running(value) & other
}

// Refusals 10 to 18 of a control write with bit 0 set.
#[tactic(auto, unfolding(crate::specs::Access::start_limit))]
fn start_limit(r: Registers, p: Place, value: u32) -> u32
    ensures refusal { result ≡ start_limit r p value }
{
    let params = r.params;
    let s = units::screen_of(params, control::is_interlaced(value));
    let checked = map::is_control(p) & control::is_running(value);
    base::choose(checked, limits::limit(value, s), 0)
}

// The first of 2, 1, 3, 4 and 10 to 18 that holds of a write, or 0.
#[tactic(auto, unfolding(crate::specs::Access::write_refusal))]
pub fn write_refusal(r: Registers, p: Place, value: u32) -> u32
    ensures refusal { result ≡ write_refusal r p value }
{
    let closed = map::is_reserved(p) | map::is_checksum(p);
    let wide = map::widest(p) < value;
    let busy = map::is_parameter(p) & control::is_running(r.control);
    let unknown = map::is_control(p) & (control::is_outside(value) | changes_format(r, value));
    let n4 = base::choose(unknown, 4, start_limit(r, p, value));
    let n3 = base::choose(busy, 3, n4);
    let n1 = base::choose(wide, 1, n3);
    base::choose(closed, 2, n1)
}
