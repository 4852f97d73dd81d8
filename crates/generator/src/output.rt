// What a tick puts out (01, "Lines and frames", "Rows and pixels"), and the generator that it leaves.
ghost use Rattle.std.specs.Prelude.{◌≡◌, ◌+◌, ◌*◌, ◌^◌, ◌<◌, true, false, ◌&&◌};
ghost use Rattle.registers.specs.File.{file_with, bare};
ghost use Rattle.base.specs.Count.{run};
ghost use Rattle.control.specs.Control.{transferring, depth, pixel_bits};
ghost use Rattle.memory.specs.Memory.{ends_beyond, pixel_shown};
ghost use Rattle.pixel.specs.Dot.{dot_below, dot_at};
ghost use Rattle.generator.specs.Tick.{dots, refuses20, step_with, signals_with};
ghost use Rattle.generator.specs.Stand.{Runs, Stands};

use crate::Generator;
use crate::stand::Stand;
use pixel::{Spot, Sums};
use registers::{Numbers, Tables};
use signals::{Dot, Signals};
use units::{HalfLines, ScreenUnits};

// Refusal 20: the last of the four pixels ends beyond the memory where any does.
pub fn is_refused(n: Numbers, g: Generator, t: Stand, memory: &[u8]) -> bool
    requires { Stands (bare n) g t }
    ensures refusal { result ≡ refuses20 (bare n) memory.now g }
{
    let far = memory::ends_beyond(n.control, memory, t.place + 3);
    let on = control::is_transferring(n.control);
    t.shows & (on & far)
}

// Where the first pixel of a visible tick stands: four pixels to a tick of its line.
fn spot_of(column: u64, line: u64, place: u64) -> Spot
    requires { (column < 2 ^ 26) × (line < 2 ^ 32) }
    ensures spot { result ≡ record { place = place; x = 4 * column; y = line } }
{
    Spot {
        place,
        x: (4 * column) as u32,
        y: line as u32,
    }
}

// Pixel k of a visible tick whose first one stands at a spot.
fn dot_of(n: Numbers, tables: Tables, memory: &[u8], first: Spot, k: u32) -> Dot
    requires { (k < 4) × (first.place < 2 ^ 60) × (first.x < 2 ^ 28) }
    ensures dot { result ≡ dot_at (file_with n tables.entry)
        n.position memory.now (first.place + k) (first.x + k) first.y }
{
    let at = Spot {
        place: first.place + k as u64,
        x: first.x + k,
        y: first.y,
    };
    pixel::dot_at(n, n.position, tables, memory, at)
}

// Four pixels in a row, the first at a spot, of which the cursor may cover some.
fn covered(n: Numbers, tables: Tables, memory: &[u8], first: Spot) -> [Dot; 4]
    requires { (first.place < 2 ^ 60) × (first.x < 2 ^ 28) }
    ensures dots { result ≡ run (λ k. dot_at (file_with n tables.entry)
        n.position memory.now (first.place + k) (first.x + k) first.y) 0 4 }
{
    let a = dot_of(n, tables, memory, first, 0);
    let b = dot_of(n, tables, memory, first, 1);
    let c = dot_of(n, tables, memory, first, 2);
    let d = dot_of(n, tables, memory, first, 3);
    [a, b, c, d]
}

// A pixel that the memory holds.
fn held_pixel(control: u32, memory: &[u8], place: u64) -> u8
    requires control_value { transferring control ≡ true }
    requires place_value { ends_beyond (pixel_bits control) memory.now place ≡ false }
    ensures pixel { result ≡ pixel_shown control memory.now place }
{
    let index = memory::byte_of(control, place) as usize;
    memory::pixel_in(control, memory[index], place)
}

// The same where a pixel is a byte.
// As it is: beside `held_pixel`: at this depth no shift and no mask is asked for, once for four pixels; joined they are no plainer.
fn held_byte(control: u32, memory: &[u8], place: u64) -> u8
    requires control_value { (transferring control ≡ true) × (depth control ≡ 3) }
    requires place_value { ends_beyond (pixel_bits control) memory.now place ≡ false }
    ensures pixel { result ≡ pixel_shown control memory.now place }
{
    memory[place as usize]
}

// Four pixels in a row of a tick that is not refused: none ends beyond the memory, which is not asked again.
fn fetched(control: u32, memory: &[u8], place: u64) -> [u8; 4]
    requires place_bound { place < 2 ^ 60 }
    requires place_value { (transferring control && ends_beyond (pixel_bits control) memory.now (place + 3)) ≡ false }
    ensures pixels { result ≡ run (λ k. pixel_shown control memory.now (place + k)) 0 4 }
{
    let on = control::is_transferring(control);
    if on {
        if control::depth_code(control) == 3 {
            return [
                held_byte(control, memory, place),
                held_byte(control, memory, place + 1),
                held_byte(control, memory, place + 2),
                held_byte(control, memory, place + 3),
            ];
        }
        return [
            held_pixel(control, memory, place),
            held_pixel(control, memory, place + 1),
            held_pixel(control, memory, place + 2),
            held_pixel(control, memory, place + 3),
        ];
    }
    [0, 0, 0, 0]
}

// Four that the cursor leaves alone.
fn uncovered(n: Numbers, palette: &[u32; 256], memory: &[u8], place: u64) -> [Dot; 4]
    requires place_bound { place < 2 ^ 60 }
    requires place_value { (transferring n.control && ends_beyond (pixel_bits n.control) memory.now (place + 3)) ≡ false }
    ensures dots { result ≡ run (λ k. dot_below n palette.now memory.now (place + k)) 0 4 }
{
    let four = fetched(n.control, memory, place);
    [
        pixel::coloured(n, palette, four[0]),
        pixel::coloured(n, palette, four[1]),
        pixel::coloured(n, palette, four[2]),
        pixel::coloured(n, palette, four[3]),
    ]
}

// The four pixels of a tick that is not refused: where the cursor is not near, nothing of it is asked.
pub fn dots_of(n: Numbers, tables: Tables, g: Generator, t: Stand, memory: &[u8]) -> [Dot; 4]
    requires runs { Runs (bare n) g }
    requires stands { Stands (bare n) g t }
    requires g_value { refuses20 (bare n) memory.now g ≡ false }
    ensures dots { result ≡ dots (file_with n tables.entry) memory.now g }
{
    if t.shows {
        let first = spot_of(t.moment.column, t.moment.line, t.place);
        let on = control::is_cursor_on(n.control);
        let near = cursor::is_near(n.position, first.x, first.y);
        if on & near {
            return covered(n, tables, memory, first);
        }
        return uncovered(n, tables.palette, memory, t.place);
    }
    let black = Dot { colour: 0 };
    [black, black, black, black]
}

// The generator one tick on.
pub fn next_of(n: Numbers, g: Generator, t: Stand, sums: Sums) -> Generator
    requires runs { Runs (bare n) g }
    requires stands { Stands (bare n) g t }
    ensures next { result ≡ step_with (bare n) g sums }
{
    let m = t.moment;
    let seen = g.seen.0;
    let more = base::choose(m.visible, seen + 1, seen);
    Generator {
        second: m.second,
        half: HalfLines(m.half),
        at: ScreenUnits(m.at),
        seen: ScreenUnits(base::choose(m.closes, 0, more)),
        held: t.held,
        sums,
        asked: base::choose(m.visible, t.asking, g.asked),
    }
}

// Every signal.
pub fn signals_of(n: Numbers, g: Generator, t: Stand, four: [Dot; 4]) -> Signals
    requires { Stands (bare n) g t }
    ensures signals { result ≡ signals_with (bare n) g four }
{
    let m = t.moment;
    let transfer = control::is_transferring(n.control) & t.transfer;
    Signals {
        sync: !m.low,
        vsync: !m.vsyncing,
        inactive: !m.vdisplaying,
        blank: !t.shows,
        request: t.request,
        transfer,
        address: base::choose(transfer, t.held, 0),
        dots: four,
    }
}
