// A clinical audiogram in picture memory: 640 by 480 pixels of 2 bits, four to a byte, least significant bits first; for one field, or for two
// that show its lines in turn.
#![tactic(auto)]

mod entry;

ghost use Rattle.std.specs.Prelude.{◌≡◌, ◌*◌, ◌<◌, ◌≤◌, IfSome};
ghost use Rattle.std.specs.Bool.{then_some};
ghost use Rattle.audiogram.specs.Places.{field_at, number_at, holds, pixel_of};
ghost use Rattle.audiogram.specs.Picture.{four_from, byte_at, drawn, size};

use marks::ear;
use marks::points::Point;
use patient::thresholds::Chart;

// The bytes of the picture, for one field or for two.
pub fn size_of(interlaced: bool) -> usize
    ensures bytes { result ≡ size interlaced }
{
    if interlaced { 77824 } else { 76800 }
}

// A byte of the memory: its field, and its number among the bytes of that field.
#[derive(Clone, Copy)]
struct Spot {
    field: u16,
    number: u32,
}

// Where byte i stands: the fields have the rows of 1,024 bytes in turn.
fn spot_at(interlaced: bool, i: u32) -> Spot
    requires { i < size interlaced }
    ensures spot { (result.field ≡ field_at interlaced (4 * i)) × (4 * result.number ≡ number_at interlaced (4 * i)) }
    ensures bound { (result.field ≤ 1) × (result.number < 77824) }
{
    if interlaced {
        let row = i / 1024;
        return Spot {
            field: (row % 2) as u16,
            number: row / 2 * 1024 + i % 1024,
        };
    }
    Spot {
        field: 0,
        number: i,
    }
}

// The first of the four pixels of a line of the chart that byte i holds, if it holds any: a line has 160 bytes, and 92 of the second field lie above
// the chart.
fn four_at(interlaced: bool, i: u32) -> Option<Point>
    requires { i < size interlaced }
    ensures first { result ≡ then_some (holds interlaced (4 * i)) (pixel_of interlaced (4 * i)) }
    ensures bound { IfSome result (λ p. p.x ≤ 636) }
{
    let spot = spot_at(interlaced, i);
    let above = 92 * spot.field as u32;
    let past = spot.number.saturating_sub(above);
    let line = (past / 160) as u16;
    let held = (above <= spot.number) & (line < base::choose(interlaced, 240, 480));
    held.then_some(Point {
        x: (past % 160 * 4) as u16,
        y: base::choose(interlaced, 2 * line + spot.field, line),
    })
}

// Four pixels of one line, from p on, in a byte.
// As it is: no plainer; `packed` names the four entries, and a fold over 0..4 has to carry a bound that keeps the byte within a u8.
fn four_from(chart: &Chart, p: Point) -> u8
    requires { p.x ≤ 636 }
    ensures byte { result ≡ four_from chart.now.right chart.now.left p }
{
    let near = ear::is_near(&chart.right, p) | ear::is_near(&chart.left, p);
    let first = entry::entry_near(near, chart, p);
    let second = entry::entry_near(near, chart, Point { x: p.x + 1, ..p });
    let third = entry::entry_near(near, chart, Point { x: p.x + 2, ..p });
    let fourth = entry::entry_near(near, chart, Point { x: p.x + 3, ..p });
    first + 4 * second + 16 * third + 64 * fourth
}

// Byte i of the picture: four pixels of the chart, or paper.
fn byte_at(chart: &Chart, interlaced: bool, i: usize) -> u8
    requires { i < size interlaced }
    ensures byte { result ≡ byte_at interlaced chart.now.right chart.now.left i }
{
    match four_at(interlaced, i as u32) {
        Some(first) => four_from(chart, first),
        None => 0,
    }
}

// Draws the chart into the first bytes of a memory: a shorter one gets what it has room for, a longer one keeps the rest.
pub fn draw(chart: Chart, interlaced: bool, memory: &mut [u8])
    ensures bytes { memory.new ≡ drawn interlaced chart.right chart.left memory.old }
{
    let end = memory.len().min(size_of(interlaced));
    for (i, byte) in memory[..end].iter_mut().enumerate() {
        *byte = byte_at(&chart, interlaced, i);
    }
}
