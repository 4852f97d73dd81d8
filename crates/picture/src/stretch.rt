// A stretch of pixels (01, "Rows and pixels"), and what of it may lie under the cursor.
ghost use Rattle.std.specs.Prelude.{◌≡◌};
ghost use Rattle.picture.specs.Stretch.{Clipped};

// Pixels in a row: where the first is stored, its place in the memory, its column and its line, and how many there are.
#[derive(Clone, Copy)]
pub struct Stretch {
    pub at: usize,
    pub from: u64,
    pub x: u32,
    pub y: u32,
    pub count: u64,
}

// Of a stretch, the pixels from `left` up to, not including, `right` may lie under the cursor.
#[derive(Clone, Copy)]
pub struct Columns {
    pub left: u64,
    pub right: u64,
}

// The part of a stretch that may lie under the cursor. Columns and lines are counted as the cursor's first are, from -2,048.
// As it is: `cursor::is_near` counts so too, but asks whether and not which part; one function for both would be no plainer.
#[tactic(auto, using(crate::proofs::stretch::Clips::clip_columns, crate::proofs::stretch::Clips::clip_nothing))]
pub fn clip(control: u32, position: u32, s: Stretch) -> Columns
    ensures clipped { Clipped control position s result }
{
    let on = control::is_cursor_on(control);
    let first = cursor::first_column(position);
    let top = cursor::first_line(position);
    let column = s.x as u64 + 2048;
    let line = s.y as u64 + 2048;
    if on & (top <= line) & (line < top + 64) {
        return Columns {
            left: first.saturating_sub(column).min(s.count),
            right: (first + 64).saturating_sub(column).min(s.count),
        };
    }
    Columns { left: 0, right: 0 }
}
