// One ear on the chart: its marks, the lines that join them, and its key beside the chart.
ghost use Rattle.std.specs.Prelude.{◌≡◌, ◌<◌, ◌≤◌, IfSome};
ghost use Rattle.marks.specs.Ear.{measured, point_of, key_of, place_after, last_before, covered_at, shows};
ghost use Rattle.marks.specs.Near.{near_at, near};

use crate::points::Point;
use crate::{is_close, is_line, is_mark};

// The column of each frequency: an octave is 64 pixels.
const COLUMNS: [u16; 11] = [112, 176, 240, 272, 304, 336, 368, 400, 432, 464, 496];

// A level that was measured.
fn is_measured(level: u8) -> bool
    ensures test { result ≡ measured level }
{
    level <= 26
}

// Where a frequency's level stands on the chart: 10 dB are 32 pixels.
fn point_of(levels: &[u8; 11], k: usize) -> Point
    requires { k < 11 }
    ensures point { result ≡ point_of levels.now k }
{
    Point {
        x: COLUMNS[k],
        y: 36 + 16 * levels[k] as u16,
    }
}

// Where an ear's key stands.
fn key_of(right: bool) -> Point
    ensures point { result ≡ key_of right }
{
    if right {
        return Point { x: 556, y: 52 };
    }
    Point { x: 556, y: 84 }
}

// The frequency measured last below k, if any was.
fn measured_below(levels: &[u8; 11], k: usize) -> Option<usize>
    requires { k ≤ 11 }
    ensures last { place_after result ≡ last_before levels.now k }
    ensures below { IfSome result (λ j. j < k) }
{
    (0..k).rfind(|j| is_measured(levels[*j]))
}

// A pixel of frequency k's mark, or of the line to it from the frequency measured before.
fn is_covered(right: bool, levels: &[u8; 11], p: Point, k: usize) -> bool
    requires { k < 11 }
    ensures test { result ≡ covered_at right levels.now p (last_before levels.now k) k }
{
    let to = point_of(levels, k);
    let marked = is_mark(right, p, to);
    let joined = measured_below(levels, k).is_some_and(|last| is_line(
        p,
        point_of(levels, last),
        to,
    ));
    is_measured(levels[k]) & (marked | joined)
}

// One of four pixels from p on may be of frequency k's mark or line.
fn is_near_to(levels: &[u8; 11], p: Point, k: usize) -> bool
    requires { k < 11 }
    ensures test { result ≡ near_at levels.now p (last_before levels.now k) k }
{
    let from = point_of(levels, measured_below(levels, k).unwrap_or(k));
    is_measured(levels[k]) & is_close(p, from, point_of(levels, k))
}

// `is_covered`; far from the mark and the line neither is asked.
fn is_covered_near(right: bool, levels: &[u8; 11], p: Point, k: usize) -> bool
    requires { k < 11 }
    ensures test { result ≡ covered_at right levels.now p (last_before levels.now k) k }
{
    is_near_to(levels, p, k) && is_covered(right, levels, p, k)
}

// One of four pixels from p on may be of an ear's marks, lines or key.
pub fn is_near(levels: &[u8; 11], p: Point) -> bool
    ensures test { result ≡ near levels.now p }
{
    let found = (0..11).any(|k| is_near_to(levels, p, k));
    found | is_close(p, key_of(true), key_of(false))
}

// A pixel of an ear's marks, lines or key; an ear that was not measured has none.
pub fn shows(right: bool, levels: &[u8; 11], p: Point) -> bool
    ensures test { result ≡ shows right levels.now p }
{
    let covered = (0..11).any(|k| is_covered_near(right, levels, p, k));
    let measured = measured_below(levels, 11).is_some();
    covered | (measured & is_mark(right, p, key_of(right)))
}
