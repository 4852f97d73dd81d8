// A stretch of pixels drawn (01, "Rows and pixels"): bytes into the buffer, the cursor over a segment, the checksums beside.
ghost use Rattle.std.specs.Prelude.{◌≡◌, ℕ, [], ◌∷◌, ◌+◌, ◌-◌, ◌*◌, ◌<◌, ◌≤◌, length};
ghost use Rattle.base.specs.Count.{run};
ghost use Rattle.picture.specs.Span.{Painted, through_by, plain_colour, colour_through, Covered, Part};
ghost use Rattle.picture.specs.Stretch.{Small};

use crate::stretch;
use crate::stretch::Stretch;
use base::channels;
use pixel::Sums;

// What pixels are drawn by: the control, the cursor's position, the masked palette, the cursor's store and its colours, and the memory.
#[derive(Clone, Copy)]
pub struct Brush<'a> {
    pub control: u32,
    pub position: u32,
    pub table: &'a [u32; 256],
    pub store: &'a [u16; 512],
    pub colours: &'a [u32; 3],
    pub memory: &'a [u8],
}

impl Brush<'_> {
    // The colour of a place, without the cursor.
    fn plain(self, place: u64) -> u32
        ensures colour { result ≡ plain_colour self.entry.control self.entry.table.now self.entry.memory.now place }
    {
        let pixel = memory::pixel_shown(self.control, self.memory, place) as usize;
        self.table[pixel]
    }

    // The colour of pixel x of line y, which stands at a place, with the cursor.
    #[tactic(auto, unfolding(crate::specs::Span::colour_through))]
    fn covered(self, place: u64, x: u32, y: u32) -> u32
        ensures colour { result ≡ colour_through (through_by self.entry) place x y }
    {
        let on = control::is_cursor_on(self.control);
        let code = base::choose(on, cursor::cursor_code(self.store, self.position, x, y), 0);
        cursor::cover(self.colours, code, self.plain(place))
    }
}

// One pixel put from k on: red, green and blue stored, its colour added.
#[tactic(auto, unfolding(crate::specs::Span::bytes_of, pixel::specs::Sums::summed))]
fn put(buffer: &mut [u8], k: usize, colour: u32, sums: Sums) -> Sums
    requires { k + 3 ≤ length buffer.old }
    ensures painted { Painted buffer.old k sums (colour ∷ []) buffer.new result }
{
    let red = channels::red_byte(colour);
    let green = channels::green_byte(colour);
    let blue = channels::blue_byte(colour);
    buffer[k] = red;
    buffer[k + 1] = green;
    buffer[k + 2] = blue;
    sums.added(colour)
}

// The pixels of a stretch from number `first` up to, not including, `end`, each of its colour.
fn paint<F: Fn(u64) -> u32>(
    buffer: &mut [u8],
    s: Stretch,
    first: u64,
    end: u64,
    colour: F,
    sums: Sums,
) -> Sums
    requires part { Part s first end (length buffer.old) }
    requires coloured { (i : ℕ) → first ≤ i → i < end → F.pre colour i }
    ensures painted { (f : ℕ → ℕ) → ((i : ℕ) (c : ℕ) → first ≤ i → i < end → F.post colour i c → c ≡ f i) →
        Painted buffer.old (s.at + 3 * first) sums (run f first (end - first)) buffer.new result }
{
    let mut t = sums;
    // As it is: k goes up by 3 beside i, for a processor with no multiply (docs/HANDBOOK.md, 13); a part cut into threes first is no plainer.
    let mut k = s.at + 3 * first as usize;
    for i in first..end {
        t = put(buffer, k, colour(i), t);
        k += 3;
    }
    t
}

// A stretch: what is left of the cursor, what is under it and what is right of it.
pub fn draw_stretch(buffer: &mut [u8], s: Stretch, brush: Brush, sums: Sums) -> Sums
    requires { Small s (length buffer.old) }
    ensures painted { Covered (through_by brush.entry) s buffer.old sums buffer.new result }
{
    let c = stretch::clip(brush.control, brush.position, s);
    let plain = move |i: u64| brush.plain(s.from + i);
    let covered = move |i: u64| brush.covered(s.from + i, s.x + i as u32, s.y);
    let a = paint(buffer, s, 0, c.left, plain, sums);
    let b = paint(buffer, s, c.left, c.right, covered, a);
    paint(buffer, s, c.right, s.count, plain, b)
}
