// A whole picture (01, "Refusal numbers", 20 to 22; "Rows and pixels"; 02, Q-4): a frame drawn at once, field by field, as its ticks draw it.
#![tactic(auto)]

mod plan;
mod span;
mod stretch;
mod whole;

ghost use Rattle.std.specs.Prelude.{◌≡◌, ◌+◌, ◌-◌, ◌*◌, ◌≤◌, length, replicate};
ghost use Rattle.std.proofs.lemmas.List.Edits.{sets};
ghost use Rattle.base.specs.Sum.{capped};
ghost use Rattle.screen.specs.Totals.{frame_pixels};
ghost use Rattle.signals.specs.Signals.{colours_of};
ghost use Rattle.picture.specs.Span.{bytes_of};
ghost use Rattle.generator.specs.Rows.{screen};
ghost use Rattle.generator.specs.Sound.{Sound};
ghost use Rattle.frame.specs.Frame.{ticks_seen, field_dots, frame_dots, picture_refuses20, sums_to, field_end, frame_end};
ghost use Rattle.picture.specs.Picture.{bytes_for, refuses22, picture_refusal, drawn_of, buffer_of};
ghost use Rattle.picture.specs.Plan.{seen_before, plan_of, Drawable, end_in};

use crate::plan::SizedPlan;
use crate::span::Brush;
use generator::Generator;
use pixel::Sums;
use registers::Registers;
use units::{HalfLines, ScreenUnits};
pub use whole::{Pictured, draw_machine};

// The refusal, or 0, and the generator after the picture.
// As it is: the definition drawn_of has the number beside the generator, and `pictured` and speed's `shown` are made of it.
#[derive(Clone, Copy)]
pub struct Drawn {
    pub refusal: u32,
    pub next: Generator,
}

// The bytes that so many pixels take: three for each, and the largest number where 64 bits do not hold them.
pub fn bytes_for(pixels: u64) -> u64
    ensures bytes { result ≡ capped (bytes_for pixels) }
{
    base::product(3, pixels)
}

// The pixels of a frame.
fn pixels_of(r: Registers) -> u64
    requires { Drawable r }
    ensures pixels { result ≡ frame_pixels (screen r) }
{
    let params = r.params;
    let s = units::screen_of(params, control::is_interlaced(r.control));
    4 * (s.display.0 * units::displayed_lines(s))
}

// Refusal 20 of a frame: of its first field or, interlaced, its second.
fn refuses_20(r: Registers, memory: &[u8]) -> bool
    requires { Drawable r }
    ensures refusal { result ≡ picture_refuses20 r memory.now }
{
    let interlaced = control::is_interlaced(r.control);
    let first = plan::refuses_20(plan::plan_of(r, false), memory);
    if interlaced {
        let second = plan::refuses_20(plan::plan_of(r, true), memory);
        return first | second;
    }
    first
}

// 22: asked while stopped, or not before the first tick of a frame.
fn refuses_22(r: Registers, g: Generator) -> bool
    ensures refusal { result ≡ refuses22 r g }
{
    let on = control::is_running(r.control);
    let start = generator::is_start(g);
    !on | !start
}

// The refusal of a picture into `size` bytes, or 0: settled before a byte is written.
#[tactic(auto, using(crate::proofs::Closed::drawable, crate::proofs::Closed::refusal_22, crate::proofs::Closed::refusal_later))]
fn refusal_of(r: Registers, g: Generator, memory: &[u8], size: u64) -> u32
    requires { Sound r g }
    ensures refusal { result ≡ picture_refusal r memory.now g size }
{
    if refuses_22(r, g) {
        return 22;
    }
    let wrong = size != bytes_for(pixels_of(r));
    let far = refuses_20(r, memory);
    base::choose(wrong, 21, base::choose(far, 20, 0))
}

// The bytes from `from` up to, not including, `end` are 0. No memory is lent here, so `.ci/fetch` takes it for no fetch.
fn blacken(buffer: &mut [u8], from: usize, end: usize)
    requires { (from ≤ end) × (end ≤ length buffer.old) }
    ensures bytes { buffer.new ≡ sets buffer.old from (replicate (end - from) 0) }
{
    buffer[from..end].fill(0);
}

// The picture of a field that nothing refuses, behind that of the field before, and its sums. Forced blank: black, nothing read, nothing added.
fn paint_field(r: Registers, p: SizedPlan, memory: &[u8], buffer: &mut [u8]) -> Sums
    requires plan { p.plan ≡ plan_of r p.plan.second }
    requires fits { 12 * (p.plan.before + p.plan.visible) ≤ length buffer.old }
    ensures sums { result ≡ sums_to r p.plan.second memory.now p.plan.visible }
    ensures bytes { buffer.new ≡ sets buffer.old (12 * p.plan.before) (bytes_of (colours_of (field_dots r memory.now p.plan.second))) }
{
    let plan = p.plan;
    let palette = r.palette;
    let store = r.store;
    let colours = r.colours;
    let blank = control::is_forced_blank(r.control);
    if blank {
        let from = (12 * plan.before) as usize;
        let end = (12 * (plan.before + plan.visible)) as usize;
        blacken(buffer, from, end);
        return Sums::none();
    }
    let table = colour::masked_palette(&palette, r.mask);
    let brush = Brush {
        control: plan.control,
        position: plan.position,
        table: &table,
        store: &store,
        colours: &colours,
        memory,
    };
    plan::draw_rows(buffer, p, brush)
}

// The generator at a field's end, with these sums. A field that shows nothing leaves the last request as it was.
#[tactic(auto, unfolding(crate::specs::Plan::end_in))]
fn end_of(p: SizedPlan, asked: bool, sums: Sums) -> Generator
    ensures end { result ≡ end_in p.plan asked sums }
{
    let plan = p.plan;
    let some = 0 < plan.visible;
    let last = plan.visible.saturating_sub(1);
    let interlaced = control::is_interlaced(plan.control);
    let on = control::is_transferring(plan.control);
    let held = plan::address_at(p, last);
    let asks = request::is_asking(on, plan.meminit, last % plan.row);
    Generator {
        second: interlaced & !plan.second,
        half: HalfLines(0),
        at: ScreenUnits(0),
        seen: ScreenUnits(0),
        held: held as u32,
        asked: base::choose(some, asks, asked),
        sums,
    }
}

// The picture of a field, and the generator after it.
fn draw_field(
    r: Registers,
    second: bool,
    g: Generator,
    memory: &[u8],
    buffer: &mut [u8],
) -> Generator
    requires drawable { Drawable r }
    requires fits { 12 * (seen_before r second + ticks_seen r second) ≤ length buffer.old }
    ensures end { result ≡ field_end r second memory.now g.asked }
    ensures bytes { buffer.new ≡ sets buffer.old (12 * seen_before r second) (bytes_of (colours_of (field_dots r memory.now second))) }
{
    let p = plan::plan_of(r, second);
    let sums = paint_field(r, p, memory, buffer);
    end_of(p, g.asked, sums)
}

// The picture of a frame that nothing refuses, and the generator after it.
fn draw_frame(r: Registers, g: Generator, memory: &[u8], buffer: &mut [u8]) -> Generator
    requires drawable { Drawable r }
    requires size { length buffer.old ≡ 3 * frame_pixels (screen r) }
    ensures end { result ≡ frame_end r memory.now }
    ensures bytes { buffer.new ≡ bytes_of (colours_of (frame_dots r memory.now)) }
{
    let interlaced = control::is_interlaced(r.control);
    let first = draw_field(r, false, g, memory, buffer);
    if interlaced {
        return draw_field(r, true, first, memory, buffer);
    }
    first
}

// The picture of the frame that begins with the next tick, and the generator after it. A refusal leaves buffer and generator as they were.
pub fn draw(r: Registers, g: Generator, memory: &[u8], buffer: &mut [u8]) -> Drawn
    requires { Sound r g }
    ensures whole { result ≡ drawn_of r memory.now g (length buffer.old) }
    ensures bytes { buffer.new ≡ buffer_of r memory.now g buffer.old }
{
    let refusal = refusal_of(r, g, memory, buffer.len() as u64);
    if refusal == 0 {
        let next = draw_frame(r, g, memory, buffer);
        return Drawn { refusal: 0, next };
    }
    Drawn { refusal, next: g }
}
