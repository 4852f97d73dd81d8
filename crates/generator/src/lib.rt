// The video timing generator (01, "Lines and frames", "Rows and pixels"; 02, Q-4): its record, and one tick by value.
#![tactic(auto)]

mod output;
mod stand;

ghost use Rattle.std.specs.Prelude.{◌≡◌};
ghost use Rattle.registers.specs.File.{file_with, bare};
ghost use Rattle.generator.specs.Sound.{Sound};
ghost use Rattle.generator.specs.Stand.{Runs};
ghost use Rattle.generator.specs.Tick.{tick_of};
ghost use Rattle.generator.specs.Counters.{displaying, fresh, is_start};
ghost use Rattle.generator.specs.Rows.{top_used};

use pixel::Sums;
use registers::{Numbers, Registers, Tables};
use signals::Signals;
use units::{HalfLines, ScreenUnits};

// Whether the next tick lies in the second field of an interlaced frame, its half line in the field and its number in that half line; the
// field's visible ticks so far; the last address; the checksums; the request at the last visible tick.
#[derive(Clone, Copy, PartialEq, Eq)]
pub struct Generator {
    pub second: bool,
    pub half: HalfLines,
    pub at: ScreenUnits,
    pub seen: ScreenUnits,
    pub held: u32,
    pub sums: Sums,
    pub asked: bool,
}

impl Generator {
    // Before the first tick of PreEqualise, checksums at zero.
    pub fn fresh() -> Generator
        ensures generator { result ≡ fresh }
    {
        Generator {
            second: false,
            half: HalfLines(0),
            at: ScreenUnits(0),
            seen: ScreenUnits(0),
            held: 0,
            sums: Sums::none(),
            asked: false,
        }
    }
}

// A generator that is before the first tick of a frame.
pub fn is_start(g: Generator) -> bool
    ensures test { result ≡ is_start g }
{
    !g.second & ((g.half.0 == 0) & (g.at.0 == 0))
}

// The next tick of a running generator lies in VDisplay of either field, out of flyback.
pub fn is_displaying(r: Registers, g: Generator) -> bool
    requires { Sound r g }
    ensures test { result ≡ displaying r g }
{
    let params = r.params;
    let runs = control::is_running(r.control);
    if runs {
        return lines::is_vdisplay(params, g.half.0 as u32);
    }
    false
}

// The top of screen that a field starts at.
pub fn top_used(n: Numbers, second: bool) -> u32
    ensures top { result ≡ top_used (bare n) second }
{
    if second {
        return base::rolled_sum(n.top, control::field_offset(n.control));
    }
    n.top
}

// A tick's refusal or 0, what it puts out, and the generator after it.
// As it is: `demands/specs/Demand1.antt`, `lent` and `lent_refused`, speak of the number 0 and of signals and generator beside a refusal.
#[derive(Clone, Copy, PartialEq, Eq)]
pub struct Ticked {
    pub refusal: u32,
    pub signals: Signals,
    pub next: Generator,
}

// Ticks one after another, as a caller does them: how many were done, the refusal that ended them or 0, and the generator then.
// As it is: `calls/specs/Runs.antt`, `Part` and `Exactly`, and `speed/specs/Ticks.antt`, `Filled`, speak of the number 0 in it.
#[derive(Clone, Copy)]
pub struct Went {
    pub done: u32,
    pub refusal: u32,
    pub next: Generator,
}

// A tick of a running generator.
fn running_tick(n: Numbers, tables: Tables, g: Generator, memory: &[u8]) -> Ticked
    requires { Runs (bare n) g }
    ensures ticked { result ≡ tick_of (file_with n tables.entry) memory.now g }
{
    let t = stand::stand_of(n, g);
    let refused = output::is_refused(n, g, t, memory);
    if refused {
        return Ticked {
            refusal: 20,
            signals: signals::silence(),
            next: g,
        };
    }
    let dots = output::dots_of(n, tables, g, t, memory);
    let four = signals::colours(dots);
    let sums = g.sums.tallied(t.moment.opens, t.shows, four);
    let next = output::next_of(n, g, t, sums);
    let signals = output::signals_of(n, g, t, dots);
    Ticked {
        refusal: 0,
        signals,
        next,
    }
}

// One tick: its refusal or 0, what it puts out, and the generator after it. The registers stand outside: a run of ticks moves the generator alone.
pub fn tick_with(n: Numbers, tables: Tables, g: Generator, memory: &[u8]) -> Ticked
    requires { Sound (file_with n tables) g }
    ensures ticked { result ≡ tick_of (file_with n tables.entry) memory.now g }
{
    let runs = control::is_running(n.control);
    if runs {
        return running_tick(n, tables, g, memory);
    }
    Ticked {
        refusal: 23,
        signals: signals::silence(),
        next: g,
    }
}

// The same of registers by value.
pub fn tick(r: Registers, g: Generator, memory: &[u8]) -> Ticked
    requires { Sound r g }
    ensures ticked { result ≡ tick_of r memory.now g }
{
    tick_with(r.numbers(), r.tables(), g, memory)
}
