// An ear's marks and lines: whether a pixel belongs to a ring, a cross or a line between two points.
#![tactic(auto)]

pub mod ear;
pub mod points;

ghost use Rattle.std.specs.Prelude.{◌≡◌};
ghost use Rattle.marks.specs.Marks.{ring, cross, mark, line, reach as Marks·reach};
ghost use Rattle.marks.specs.Near.{close};

use crate::points::{Point, distance, times};

// The right ear's mark: a circle of radius 7, two pixels thick.
fn is_ring(p: Point, centre: Point) -> bool
    ensures test { result ≡ ring p centre }
{
    let square = distance(p, centre);
    (31 <= square) & (square <= 56)
}

// The left ear's mark: a cross of two strokes, 13 pixels wide.
fn is_cross(p: Point, centre: Point) -> bool
    ensures test { result ≡ cross p centre }
{
    let across = p.x.abs_diff(centre.x);
    let down = p.y.abs_diff(centre.y);
    (across.abs_diff(down) <= 1) & (across <= 6) & (down <= 6)
}

// A mark of the right ear, or of the left.
#[tactic(auto, unfolding(crate::specs::Marks::mark))]
pub fn is_mark(right: bool, p: Point, centre: Point) -> bool
    ensures test { result ≡ mark right p centre }
{
    let round = is_ring(p, centre);
    let crossed = is_cross(p, centre);
    base::choose(right, round, crossed)
}

// The larger of a line's width and height.
fn reach(from: Point, to: Point) -> u16
    ensures larger { result ≡ Marks·reach from to }
{
    let across = to.x.saturating_sub(from.x);
    let down = from.y.abs_diff(to.y);
    across.max(down)
}

// A line between two points, left to right, that stops short of the marks at both.
#[tactic(auto, unfolding(crate::specs::Marks::line))]
pub fn is_line(p: Point, from: Point, to: Point) -> bool
    ensures test { result ≡ line p from to }
{
    let due = times(p.x.saturating_sub(from.x), to.y) + times(to.x.saturating_sub(p.x), from.y);
    let is = times(p.y, to.x.saturating_sub(from.x));
    let near = due.abs_diff(is) <= reach(from, to) as u64;
    let free = (56 < distance(p, from)) & (56 < distance(p, to));
    (from.x <= p.x) & (p.x <= to.x) & near & free
}

// A mark ends so many pixels from its centre; the steepest line is so many rows thick to each side.
const MARK_ENDS: u16 = 7;

const THICKNESS: u16 = 13;

// One of four pixels from p on lies in the box that a mark at `to`, and a line to it, cannot leave.
#[tactic(auto, unfolding(crate::specs::Near::close))]
fn is_close(p: Point, from: Point, to: Point) -> bool
    ensures test { result ≡ close p from to }
{
    let beside = (from.x.saturating_sub(MARK_ENDS + 3) <= p.x)
        & (p.x.saturating_sub(MARK_ENDS) <= to.x);
    let under = (from.y.saturating_sub(THICKNESS) <= p.y) | (to.y.saturating_sub(THICKNESS) <= p.y);
    let up = p.y.saturating_sub(THICKNESS);
    let over = (up <= from.y) | (up <= to.y);
    beside & under & over
}
