// Rows (01, "Rows and pixels"; 02, Q-4): where a tick stands in its row, the address held, and the request.
ghost use Rattle.std.specs.Prelude.{◌≡◌, true, false, cond, ◌+◌, ◌*◌, ◌/◌, ◌%◌, ◌^◌, ◌≤◌, ◌<◌};
ghost use Rattle.base.specs.Sum.{rolled};
ghost use Rattle.control.specs.Control.{interlaced, plain, transferring, increment};
ghost use Rattle.registers.specs.File.{bare};
ghost use Rattle.units.specs.Parameters.{screen_of, in_field, display_from};
ghost use Rattle.screen.specs.Limits.{Bounded};
ghost use Rattle.request.specs.Request.{requested};
ghost use Rattle.lines.specs.Lines.{lead, tick_number, field_visible, moment_of};
ghost use Rattle.generator.specs.Rows.{field_at, taken, leads};
ghost use Rattle.generator.specs.Sound.{Inside};
ghost use Rattle.generator.specs.First.{first_visible};
ghost use Rattle.generator.specs.Stand.{Runs, Stands};

use crate::Generator;
use lines::Moment;
use registers::Numbers;
use request::Known;
use units::Screen;

// The screen, and the tick's moment; whether a row is transferred, and the address held; the request at a
// visible tick, and at this one; whether its pixels show, and the place of the first.
// As it is: `Stands` says all of it of every tick, and is a clause: numbers, generator and stand go apart through `output`, which takes each alone.
#[derive(Clone, Copy)]
pub struct Stand {
    pub screen: Screen,
    pub moment: Moment,
    pub transfer: bool,
    pub held: u32,
    pub asking: bool,
    pub request: bool,
    pub shows: bool,
    pub place: u64,
}

// The address held from a tick on: one increment further where it steps on to a row that is not the field's first.
fn held_of(control: u32, address: u32, steps: bool) -> u32
    ensures address { result ≡ cond steps (rolled address (increment control)) address }
{
    if steps {
        return base::rolled_sum(address, control::address_increment(control));
    }
    address
}

// The place of a tick's first pixel, `rest` ticks into its row; its row's number is the address over a power of two.
fn place_of(held: u32, power: u32, row: u64, rest: u64) -> u64
    requires { (power < 32) × (rest < row) × (row ≤ 2 ^ 26) }
    ensures place { result ≡ (held / 2 ^ power * row + rest) * 4 + 0 }
    ensures bound { result < 2 ^ 60 }
{
    let number = (held >> power) as u64;
    (number * row + rest) * 4
}

// The number of the field's first visible tick: VDisplay's first Display tick. Where a second half comes first, it is the opening tick, or, with no
// Display left in that half, in the next line.
fn first_visible(s: Screen, before: u64) -> u64
    requires bounded { Bounded 0xFFFFFF s }
    requires before_value { before ≡ lead s }
    ensures number { result ≡ first_visible s }
{
    let start = s.vpreequalise.0 + s.vsync.0 + s.vpostequalise.0 + s.vblank.0;
    let from = 2 * s.halfsync.0 + s.backporch.0;
    let half = s.linetime.0 / 2;
    let late = base::choose(before < s.display.0, 0, half + from);
    start * half + base::choose(before == 0, from, late)
}

// The request at a tick that is not visible. It leads in the TransferDelay ticks just before the first visible one.
fn is_request(n: Numbers, g: Generator, s: Screen) -> bool
    requires s_value { s ≡ field_at (bare n) g }
    requires inside { Inside n.control s g.half.0 g.at.0 }
    ensures test { result ≡ requested (record {
      on = transferring n.control;
      visible = false;
      asks = false;
      leads = leads s (tick_number s g.half.0 g.at.0);
      seen = g.seen.0;
      all = field_visible s;
      asked = g.asked;
    }) }
{
    let params = n.params;
    let on = control::is_transferring(n.control);
    let number = g.half.0 * (s.linetime.0 / 2) + g.at.0;
    let reach = number + s.transferdelay.0;
    let shown = lines::shown_in(params, s.interlaced, s.second);
    let first = first_visible(s, shown.lead);
    request::is_requested(Known {
        on,
        visible: false,
        asks: false,
        leads: (number < first) & (first <= reach),
        seen: g.seen.0,
        all: shown.visible,
        asked: g.asked,
    })
}

// Where a visible tick stands in its row, from the address held until then.
fn in_row(n: Numbers, g: Generator, s: Screen, moment: Moment, address: u32) -> Stand
    requires runs { Runs (bare n) g }
    requires s_value { s ≡ field_at (bare n) g }
    requires moment_value { moment ≡ moment_of (field_at (bare n) g) (plain n.control) g.half.0 g.at.0 }
    requires visible_value { (moment.visible ≡ true) × (address ≡ taken (bare n) g) }
    ensures stands { Stands (bare n) g result }
{
    let seen = g.seen.0;
    let row = s.meminit.0 + s.transferdelay.0;
    let rest = seen % row;
    let transfer = rest == 0;
    let held = held_of(n.control, address, transfer & (0 < seen));
    let power = control::divisor_power(n.control);
    let place = place_of(held, power, row, rest);
    let on = control::is_transferring(n.control);
    let asking = request::is_asking(on, s.meminit.0, rest);
    let blank = control::is_forced_blank(n.control);
    Stand {
        screen: s,
        moment,
        transfer,
        held,
        asking,
        request: on & asking,
        shows: !blank,
        place,
    }
}

// Where the next tick of a running generator stands: between the lines there is no row to stand in.
pub fn stand_of(n: Numbers, g: Generator) -> Stand
    requires { Runs (bare n) g }
    ensures stands { Stands (bare n) g result }
{
    let params = n.params;
    let half = g.half.0;
    let at = g.at.0;
    let second = g.second;
    let interlaced = control::is_interlaced(n.control);
    let s = units::in_field(units::screen_of(params, interlaced), second);
    let plain = control::is_plain(n.control);
    let moment = lines::moment_of(params, interlaced, second, plain, half as u32, at as u32);
    let top = crate::top_used(n, second);
    let taken = base::choose(moment.opens, top, g.held);
    if moment.visible {
        return in_row(n, g, s, moment, taken);
    }
    let request = is_request(n, g, s);
    Stand {
        screen: s,
        moment,
        transfer: false,
        held: taken,
        asking: false,
        request,
        shows: false,
        place: 0,
    }
}
