// Pixels as points: how far apart two of them are, in numbers that never wrap.
ghost use Rattle.std.specs.Prelude.{◌≡◌, ◌*◌, ◌^◌, ◌<◌};
ghost use Rattle.marks.specs.Points.{distance};

// A pixel of the screen, from the top left.
#[derive(Clone, Copy)]
pub struct Point {
    pub x: u16,
    pub y: u16,
}

// A product of two coordinates.
pub fn times(a: u16, b: u16) -> u64
    ensures product { result ≡ a * b }
    ensures bound { result < 2 ^ 32 }
{
    a as u64 * b as u64
}

// The square of the distance of two points.
pub fn distance(p: Point, q: Point) -> u64
    ensures square { result ≡ distance p q }
{
    let across = p.x.abs_diff(q.x);
    let down = p.y.abs_diff(q.y);
    times(across, across) + times(down, down)
}
