// A machine's calls with the one condition beside each: the beginning, a write, ticks, its picture's size and its nine checksum bytes.
#![tactic(auto)]

ghost use Rattle.std.specs.Prelude.{◌≡◌, cond, ◌<◌};
ghost use Rattle.control.specs.Control.{running};
ghost use Rattle.units.specs.Parameters.{halves_to_vdisplay};
ghost use Rattle.generator.specs.Rows.{screen};
ghost use Rattle.generator.specs.Sound.{Sound};
ghost use Rattle.generator.specs.Stand.{Runs};
ghost use Rattle.registers.specs.File.{file_with, bare};
ghost use Rattle.machine.specs.Rules.{beginning, written};
ghost use Rattle.calls.specs.Calls.{ran_of, size_of};
ghost use Rattle.calls.specs.Runs.{Passes, Part, Starts, Exactly};
ghost use Rattle.calls.specs.Nine.{nine_of};

use generator::{Generator, Went};
use machine::{Machine, Written};
use registers::{Numbers, Registers, Tables};
use screen::totals;
use units::{HalfLines, ScreenUnits};

// The ticks that a `run` has done, its refusal or 0, and the machine after it.
// As it is: `calls/specs/Calls.antt`, `ran_of`, speaks of the number 0 and of the ticks done and the machine beside a refusal.
#[derive(Clone, Copy)]
pub struct Ran {
    pub done: u32,
    pub refusal: u32,
    pub machine: Machine,
}

// The width and height of a picture; and, of an interlaced one, the pixels of a line's first half, 0 of any other.
// As it is: the definition size_of says 0 of it.
#[derive(Clone, Copy)]
pub struct Size {
    pub width: u64,
    pub height: u64,
    pub half: u64,
}

// The machine that every script begins with.
pub fn begin() -> Machine
    ensures machine { result ≡ beginning }
    ensures sound { Sound result.regs result.generator }
{
    Machine::beginning()
}

// A register write.
pub fn write(m: Machine, address: u32, value: u32) -> Written
    requires { Sound m.regs m.generator }
    ensures written { result ≡ written m address value }
    ensures sound { Sound result.machine.regs result.machine.generator }
{
    m.write(address, value)
}

// The half lines before VDisplay, of a screen that runs.
fn dark_halves(n: Numbers) -> u64
    ensures halves { result ≡ cond (running n.control) (halves_to_vdisplay (screen (bare n))) 0 }
{
    let params = n.params;
    let interlaced = control::is_interlaced(n.control);
    let s = units::screen_of(params, interlaced);
    let halves = s.vpreequalise.0 + s.vsync.0 + s.vpostequalise.0 + s.vblank.0;
    let runs = control::is_running(n.control);
    if runs { halves } else { 0 }
}

// Ticks passed over, and the generator after them.
#[derive(Clone, Copy)]
struct Passed {
    ticks: u32,
    next: Generator,
}

// Ticks before VDisplay, as many as are due and no further than its first: nothing shows there, and only the place moves.
fn pass_dark(n: Numbers, g: Generator, halves: u64, due: u32) -> Passed
    requires runs { Runs (bare n) g }
    requires dark { (halves ≡ halves_to_vdisplay (screen (bare n))) × (g.half.0 < halves) × (0 < due) }
    ensures ticks { Passes (screen (bare n)) g due result }
{
    let params = n.params;
    let interlaced = control::is_interlaced(n.control);
    let s = units::screen_of(params, interlaced);
    let line = s.linetime.0 / 2;
    let number = g.half.0 * line + g.at.0;
    let left = halves * line - number;
    let ticks = left.min(due as u64) as u32;
    let to = number + ticks as u64;
    let seen = g.seen;
    let sums = g.sums;
    let next = Generator {
        second: g.second,
        half: HalfLines(to / line),
        at: ScreenUnits(to % line),
        seen,
        held: g.held,
        sums,
        asked: g.asked,
    };
    Passed { ticks, next }
}

// So many ticks, one by one but for those before VDisplay; they end where one is refused and, if that is wanted, at a frame's start.
fn steps(n: Numbers, tables: Tables, g: Generator, memory: &[u8], count: u32, halts: bool) -> Went
    requires { Sound (file_with n tables) g }
    ensures part { Part (file_with n tables.entry) memory.now g count halts result }
{
    let halves = dark_halves(n);
    let mut now = g;
    let mut done: u32 = 0;
    // As it is: a `while`, for a step before VDisplay passes over many ticks at once.
    while (done < count) & !(halts & generator::is_start(now)) {
        if now.half.0 < halves {
            let p = pass_dark(n, now, halves, count - done);
            done += p.ticks;
            now = p.next;
        } else {
            let t = generator::tick_with(n, tables, now, memory);
            let refusal = t.refusal;
            now = t.next;
            if refusal != 0 {
                return Went {
                    done,
                    refusal,
                    next: now,
                };
            }
            done += 1;
        }
    }
    Went {
        done,
        refusal: 0,
        next: now,
    }
}

// So many ticks from a frame's start. A frame that nothing refuses leaves what every later one leaves, so whole frames after it are passed over.
fn from_start(n: Numbers, tables: Tables, g: Generator, memory: &[u8], count: u32) -> Went
    requires { Starts (file_with n tables) g count }
    ensures ran { Exactly (file_with n tables.entry) memory.now g count result }
{
    let params = n.params;
    let totals = totals::frame_totals(n.control, params);
    let frame = totals.ticks.0;
    if count as u64 <= frame {
        return steps(n, tables, g, memory, count, false);
    }
    let first = steps(n, tables, g, memory, frame as u32, false);
    if first.refusal != 0 {
        return first;
    }
    let rest = ((count as u64 - frame) % frame) as u32;
    let second = first.next;
    let last = steps(n, tables, second, memory, rest, false);
    let next = last.next;
    Went {
        done: count - rest + last.done,
        refusal: last.refusal,
        next,
    }
}

// A run of so many ticks, unshown; it ends where a tick is refused.
pub fn run(m: Machine, memory: &[u8], count: u32) -> Ran
    requires { Sound m.regs m.generator }
    ensures ran { result ≡ ran_of memory.now m count }
    ensures sound { Sound result.machine.regs result.machine.generator }
{
    let regs = m.regs;
    let before = m.generator;
    let tables = regs.tables();
    let n = regs.numbers();
    let runs = control::is_running(n.control);
    let way = steps(n, tables, before, memory, count, runs);
    if runs & (way.refusal == 0) {
        let left = count - way.done;
        let start = way.next;
        let rest = from_start(n, tables, start, memory, left);
        let generator = rest.next;
        return Ran {
            done: way.done + rest.done,
            refusal: rest.refusal,
            machine: Machine { regs, generator },
        };
    }
    let generator = way.next;
    Ran {
        done: way.done,
        refusal: way.refusal,
        machine: Machine { regs, generator },
    }
}

// The width and height of a machine's picture: four pixels to a unit of Display, and its displayed lines; interlaced, one more, for two of them
// are half lines.
pub fn size_of(m: Machine) -> Size
    requires { Sound m.regs m.generator }
    ensures size { result ≡ size_of m }
{
    let regs: Registers = m.regs;
    let params = regs.params;
    let interlaced = control::is_interlaced(regs.control);
    let s = units::screen_of(params, interlaced);
    let shown = lines::shown_in(params, interlaced, true);
    let lines = units::displayed_lines(s);
    Size {
        width: 4 * s.display.0,
        height: base::choose(interlaced, lines + 1, lines),
        half: base::choose(interlaced, 4 * shown.lead, 0),
    }
}

// The refusal of the checksums' reads or 0, and the three words; 0 where refused.
// As it is: `calls/specs/Nine.antt`, `nine_of`, and `checksums/specs/Told.antt`, `unrefused`, speak of the number 0.
#[derive(Clone, Copy)]
pub struct Checksums {
    pub refusal: u32,
    pub words: [u32; 3],
}

// The nine checksum bytes, as three words.
#[tactic(auto, unfolding(crate::specs::Nine::nine_of))]
pub fn nine(m: Machine) -> Checksums
    requires { Sound m.regs m.generator }
    ensures nine { result ≡ nine_of m }
{
    let low = m.read(0x0C0);
    let middle = m.read(0x0C1);
    let high = m.read(0x0C2);
    let later = base::choose(middle.refusal == 0, high.refusal, middle.refusal);
    let refusal = base::choose(low.refusal == 0, later, low.refusal);
    Checksums {
        refusal,
        words: [low.value, middle.value, high.value],
    }
}
