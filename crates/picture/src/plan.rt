// The rows of a field (01, "Rows and pixels"; 02, Q-4): its numbers, its segments, refusal 20, and the picture segment by segment.
ghost use Rattle.std.specs.Prelude.{◌≡◌, ◌+◌, ◌*◌, ◌^◌, ◌≤◌, ◌<◌, length};
ghost use Rattle.base.specs.Count.{run, some};
ghost use Rattle.control.specs.Control.{pixel_bits};
ghost use Rattle.memory.specs.Memory.{ends_beyond};
ghost use Rattle.pixel.specs.Sums.{none};
ghost use Rattle.picture.specs.Span.{Painted, through_by};
ghost use Rattle.picture.specs.Plan.{plan_of, Drawable, Sized, address_in, place_in, colour_in, refuses_in, Cut};

use crate::span;
use crate::span::Brush;
use crate::stretch::Stretch;
use pixel::Sums;
use registers::Registers;

// The numbers of a field, the first or the second: ticks of a line's Display, those of them before its VDisplay, visible ticks of the picture
// before it, its own, R, the first address, the step to the next and what an address is divided by for its row's number.
#[derive(Clone, Copy)]
pub struct Plan {
    pub second: bool,
    pub display: u64,
    pub lead: u64,
    pub before: u64,
    pub visible: u64,
    pub meminit: u64,
    pub row: u64,
    pub top: u64,
    pub increment: u64,
    pub divisor: u64,
    pub control: u32,
    pub position: u32,
}

// The same of a field that may be drawn: 24 bits bound its numbers.
#[derive(Clone, Copy)]
pub struct SizedPlan {
    pub plan: Plan,
    ghost sized: { Sized plan },
}

// Those of a field of a screen.
#[tactic(auto, unfolding(crate::specs::Plan::plan_of), using(memory::proofs::Laws::one_bit, generator::proofs::Bare::top_bare))]
fn numbers_of(r: Registers, second: bool) -> Plan
    requires { Drawable r }
    ensures plan { result ≡ plan_of r second }
{
    let params = r.params;
    let interlaced = control::is_interlaced(r.control);
    let s = units::screen_of(params, interlaced);
    let first = lines::shown_in(params, interlaced, false);
    let shown = lines::shown_in(params, interlaced, second);
    let increment = control::address_increment(r.control);
    let power = control::divisor_power(r.control);
    let n = r.numbers();
    let top = generator::top_used(n, second);
    let before = base::choose(second, first.visible, 0);
    Plan {
        second,
        display: s.display.0,
        lead: shown.lead,
        before,
        visible: shown.visible,
        meminit: s.meminit.0,
        row: s.meminit.0 + s.transferdelay.0,
        top: top as u64,
        increment: increment as u64,
        divisor: 1u64 << power,
        control: r.control,
        position: r.position,
    }
}

// The same, sized.
#[tactic(auto, using(crate::proofs::plan::Sizes::sized))]
pub fn plan_of(r: Registers, second: bool) -> SizedPlan
    requires { Drawable r }
    ensures plan { result.plan ≡ plan_of r second }
{
    SizedPlan {
        plan: numbers_of(r, second),
    }
}

// The address held at visible tick v.
#[tactic(auto, unfolding(crate::specs::Plan::address_in))]
pub fn address_at(p: SizedPlan, v: u64) -> u64
    requires { v ≤ p.plan.visible }
    ensures address { result ≡ address_in p.plan v }
    ensures bound { result < 2 ^ 24 }
{
    let plan = p.plan;
    (plan.top + v / plan.row * plan.increment) % 0x1000000
}

// The place of the first pixel of visible tick v.
#[tactic(auto, using(crate::proofs::plan::Segments::place_by))]
fn first_place(p: SizedPlan, v: u64) -> u64
    requires { v < p.plan.visible }
    ensures place { result ≡ place_in p.plan (4 * v) }
    ensures bound { result < 2 ^ 60 }
{
    let plan = p.plan;
    let address = address_at(p, v);
    (address / plan.divisor * plan.row + v % plan.row) * 4
}

// The segment from visible tick v on: the pixels up to the line's end, the row's or the field's.
fn segment_at(p: SizedPlan, v: u64) -> Stretch
    requires { v < p.plan.visible }
    ensures segment { Cut p.plan v result }
{
    let plan = p.plan;
    let along = v + plan.lead;
    let column = along % plan.display;
    let line = plan.display - column;
    let row = plan.row - v % plan.row;
    let left = plan.visible - v;
    let ticks = line.min(row).min(left);
    let from = first_place(p, v);
    Stretch {
        at: (12 * (plan.before + v)) as usize,
        from,
        x: (4 * column) as u32,
        y: (along / plan.display) as u32,
        count: 4 * ticks,
    }
}

// Some place of the field ends beyond the memory: in each segment the last one does where any does.
#[tactic(auto, unfolding(base::specs::Count::some))]
fn is_beyond(p: SizedPlan, memory: &[u8]) -> bool
    ensures test { result ≡ some (λ i. ends_beyond (pixel_bits p.plan.control) memory.now (place_in p.plan i)) (4 * p.plan.visible) }
{
    let plan = p.plan;
    let mut beyond = false;
    let mut v: u64 = 0;
    // As it is: a turn goes on by as many ticks as its segment has, which no range does.
    while v < plan.visible {
        let s = segment_at(p, v);
        let far = memory::ends_beyond(plan.control, memory, s.from + s.count - 1);
        beyond = beyond | far;
        v += s.count / 4;
    }
    beyond
}

// Refusal 20 of the whole field; with blanking forced or transfers off nothing is read.
#[tactic(auto, unfolding(crate::specs::Plan::refuses_in))]
pub fn refuses_20(p: SizedPlan, memory: &[u8]) -> bool
    ensures refusal { result ≡ refuses_in p.plan memory.now }
{
    let control = p.plan.control;
    let blank = control::is_forced_blank(control);
    let on = control::is_transferring(control);
    if !blank & on {
        return is_beyond(p, memory);
    }
    false
}

// The field, segment by segment, into a buffer that holds it.
pub fn draw_rows(buffer: &mut [u8], p: SizedPlan, brush: Brush) -> Sums
    requires fits { 12 * (p.plan.before + p.plan.visible) ≤ length buffer.old }
    ensures painted { Painted buffer.old (12 * p.plan.before) none
        (run (colour_in p.plan (through_by brush.entry)) 0 (4 * p.plan.visible))
        buffer.new result }
{
    let plan = p.plan;
    let mut t = Sums::none();
    let mut v: u64 = 0;
    // As it is: as in `is_beyond`.
    while v < plan.visible {
        let s = segment_at(p, v);
        t = span::draw_stretch(buffer, s, brush, t);
        v += s.count / 4;
    }
    t
}
