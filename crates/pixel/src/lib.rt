// One pixel (01, "Rows and pixels"): from picture memory through mask, palette and cursor to the colour put out, and its checksums.
#![tactic(auto)]

ghost use Rattle.std.specs.Prelude.{◌≡◌, cond, ◌<◌};
ghost use Rattle.registers.specs.File.{file_with};
ghost use Rattle.pixel.specs.Dot.{coloured, dot_below, dot_at};
ghost use Rattle.base.specs.Channels.{red, green, blue, joined};
ghost use Rattle.pixel.specs.Sums.{none, added, summed, cleared_at, summed_where};

use base::channels;
use registers::{Numbers, Tables};
use signals::Dot;

// The three 24-bit sums of colour bytes.
#[derive(Clone, Copy, PartialEq, Eq)]
pub struct Sums {
    pub red: u32,
    pub green: u32,
    pub blue: u32,
}

// Where a pixel stands: its place in the picture memory, its column and its line.
#[derive(Clone, Copy)]
pub struct Spot {
    pub place: u64,
    pub x: u32,
    pub y: u32,
}

// A pixel with no cursor over it.
pub fn coloured(n: Numbers, palette: &[u32; 256], pixel: u8) -> Dot
    ensures dot { result ≡ coloured n palette.now pixel }
{
    Dot {
        colour: colour::masked_colour(palette, n.mask, pixel),
    }
}

// The pixel at a place, with no cursor over it.
fn dot_below(n: Numbers, palette: &[u32; 256], memory: &[u8], place: u64) -> Dot
    ensures dot { result ≡ dot_below n palette.now memory.now place }
{
    let pixel = memory::pixel_shown(n.control, memory, place);
    coloured(n, palette, pixel)
}

// A pixel at its spot, under a cursor at a position.
#[tactic(auto, unfolding(crate::specs::Dot::dot_at))]
pub fn dot_at(n: Numbers, position: u32, tables: Tables, memory: &[u8], at: Spot) -> Dot
    ensures dot { result ≡ dot_at (file_with n tables.entry) position memory.now at.place at.x at.y }
{
    let below = dot_below(n, tables.palette, memory, at.place);
    let on = control::is_cursor_on(n.control);
    let under = cursor::cursor_code(tables.store, position, at.x, at.y);
    let code = base::choose(on, under, 0);
    Dot {
        colour: cursor::cover(tables.colours, code, below.colour),
    }
}

// A colour with no green: its red and blue stand 16 bits apart, so that those of four colours are added at once.
fn red_and_blue(colour: u32) -> u32
    ensures word { result ≡ joined (red colour) 0 (blue colour) }
    ensures bound { result < 0x1000000 }
{
    colour / 0x10000 % 0x100 * 0x10000 + colour % 0x100
}

// A colour with no red and no blue.
fn green_alone(colour: u32) -> u32
    ensures word { result ≡ joined 0 (green colour) 0 }
    ensures bound { result < 0x1000000 }
{
    colour / 0x100 % 0x100 * 0x100
}

impl Sums {
    // The sums before any colour.
    pub fn none() -> Sums
        ensures sums { result ≡ none }
    {
        Sums {
            red: 0,
            green: 0,
            blue: 0,
        }
    }

    // Each byte of a colour added to its sum.
    pub fn added(self, colour: u32) -> Sums
        ensures sums { result ≡ added self colour }
    {
        let red = base::wide(channels::red_byte(colour));
        let green = base::wide(channels::green_byte(colour));
        let blue = base::wide(channels::blue_byte(colour));
        Sums {
            red: base::rolled_sum(self.red, red),
            green: base::rolled_sum(self.green, green),
            blue: base::rolled_sum(self.blue, blue),
        }
    }

    // Four colours added, a channel's four bytes at once: a sum rolls over as if one by one.
    fn with_four(self, four: [u32; 4]) -> Sums
        ensures sums { result ≡ summed self four }
    {
        let [a, b, c, d] = four;
        let both = red_and_blue(a) + red_and_blue(b) + red_and_blue(c) + red_and_blue(d);
        let green = green_alone(a) + green_alone(b) + green_alone(c) + green_alone(d);
        Sums {
            red: base::rolled_sum(self.red, both / 0x10000),
            green: base::rolled_sum(self.green, green / 0x100),
            blue: base::rolled_sum(self.blue, both % 0x10000),
        }
    }

    // The sums after a tick: cleared where it opens VDisplay, and its four colours added where it shows them.
    pub fn tallied(self, opens: bool, shows: bool, four: [u32; 4]) -> Sums
        ensures sums { result ≡ summed_where shows (cleared_at opens self) four }
    {
        let before = base::choose(opens, Sums::none(), self);
        if shows {
            return before.with_four(four);
        }
        before
    }
}
