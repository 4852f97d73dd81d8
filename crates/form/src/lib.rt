// The form that a chart is drawn on: the grid, and the labels beside it.
#![tactic(auto)]

ghost use Rattle.std.specs.Prelude.{◌≡◌, false, ℕ, ◌<◌, ◌≤◌, get_or};
ghost use Rattle.form.specs.Form.{grid, font, inked, dot, text_at, labelled, form};

use marks::points::Point;
use std::ops::Range;

// The signs 0 to 9, -, H, z, d, B, L, R, I, G, T, E, F: seven rows of a byte, the top one first, the left column in bit 5.
// As it is: a sign is one number, and so is a text: the definitions `font` and `texts` say so, and `inked` and `dot` take them apart.
static FONT: [u64; 22] = [
    0x1C22262A32221C,
    0x0818080808081C,
    0x1C22020408103E,
    0x3E04080402221C,
    0x040C14243E0404,
    0x3E203C0202221C,
    0x0C10203C22221C,
    0x3E020408101010,
    0x1C22221C22221C,
    0x1C22221E020418,
    0x0000003E000000,
    0x2222223E222222,
    0x00003E0408103E,
    0x02021A2622221E,
    0x3C22223C22223C,
    0x2020202020203E,
    0x3C22223C282422,
    0x1C08080808081C,
    0x1C22202E22221E,
    0x3E080808080808,
    0x3E20203C20203E,
    0x3E20203C202020,
];

// The labels: where each begins, from the left and from the top, and its five signs.
// Statics, both tables: a const of rows is copied whole at each look.
static LABELS: [(u16, u16, u64); 29] = [
    (95, 6, 0x010205FFFF), // 125
    (159, 6, 0x020500FFFF), // 250
    (223, 6, 0x050000FFFF), // 500
    (281, 6, 0x01000000FF), // 1000
    (345, 6, 0x02000000FF), // 2000
    (409, 6, 0x04000000FF), // 4000
    (473, 6, 0x08000000FF), // 8000
    (264, 25, 0x070500FFFF), // 750
    (325, 25, 0x01050000FF), // 1500
    (389, 25, 0x03000000FF), // 3000
    (453, 25, 0x06000000FF), // 6000
    (40, 29, 0x0A0100FFFF), // -10
    (64, 61, 0x00FFFFFFFF), // 0
    (52, 93, 0x0100FFFFFF), // 10
    (52, 125, 0x0200FFFFFF), // 20
    (52, 157, 0x0300FFFFFF), // 30
    (52, 189, 0x0400FFFFFF), // 40
    (52, 221, 0x0500FFFFFF), // 50
    (52, 253, 0x0600FFFFFF), // 60
    (52, 285, 0x0700FFFFFF), // 70
    (52, 317, 0x0800FFFFFF), // 80
    (52, 349, 0x0900FFFFFF), // 90
    (40, 381, 0x010000FFFF), // 100
    (40, 413, 0x010100FFFF), // 110
    (40, 445, 0x010200FFFF), // 120
    (540, 6, 0x0B0CFFFFFF), // Hz
    (8, 464, 0x0D0EFF0B0F), // dB HL
    (570, 45, 0x1011120B13), // RIGHT
    (570, 77, 0x0F141513FF), // LEFT
];

// A pixel of the grid: octaves, half octaves dashed, every 10 dB, 0 dB twice as thick, and the sides.
#[tactic(auto, unfolding(crate::specs::Form::grid))]
fn is_grid(p: Point) -> bool
    ensures test { result ≡ grid p }
{
    let across = p.x.saturating_sub(112);
    let octave = (112 <= p.x) & (p.x <= 496) & (across % 64 == 0);
    let half = (272 <= p.x) & (p.x <= 464) & (across % 64 == 32) & (p.y % 8 < 4);
    let level = (p.y.saturating_sub(36) % 32 == 0) | (p.y == 69);
    let side = (p.x == 80) | (p.x == 528);
    let wide = (80 <= p.x) & (p.x <= 528);
    (36 <= p.y) & (p.y <= 452) & (octave | half | side | (wide & level))
}

// A sign of the font; past the last one it is blank.
fn sign(number: u64) -> u64
    ensures rows { result ≡ get_or font number 0 }
{
    FONT.get(number as usize).copied().unwrap_or(0)
}

// A dot of a sign.
#[tactic(auto, unfolding(crate::specs::Form::inked))]
fn is_inked(number: u64, column: u16, row: u16) -> bool
    ensures test { result ≡ inked number column row }
{
    let shift = 8 * 6u16.saturating_sub(row) + 5u16.saturating_sub(column);
    (sign(number) >> shift) % 2 == 1
}

// A dot of a text, six columns to a sign.
#[tactic(auto, unfolding(crate::specs::Form::dot))]
fn is_dot(text: u64, column: u16, row: u16) -> bool
    ensures test { result ≡ dot text column row }
{
    let number = (text >> (8 * 4u16.saturating_sub(column / 6))) % 256;
    is_inked(number, column % 6, row)
}

// A pixel of a text that begins at a point: small signs have one pixel to a dot, large ones two. Outside it nothing is looked up.
#[tactic(auto, unfolding(crate::specs::Form::text_at))]
fn is_text(small: bool, from: Point, text: u64, p: Point) -> bool
    ensures test { result ≡ text_at small from text p }
{
    let across = p.x.saturating_sub(from.x);
    let down = p.y.saturating_sub(from.y);
    let column = base::choose(small, across, across / 2);
    let row = base::choose(small, down, down / 2);
    let inside = (from.x <= p.x) & (from.y <= p.y) & (column < 30) & (row < 7);
    inside && is_dot(text, column, row)
}

// A pixel of label k: the half octaves' signs are small.
fn is_label(k: usize, p: Point) -> bool
    requires { k < 29 }
    ensures test { result ≡ labelled p k }
{
    let (left, top, text) = LABELS[k];
    is_text((7 <= k) & (k <= 10), Point { x: left, y: top }, text, p)
}

// The labels that can reach a pixel: those at the right, at the top, at the left, and on the grid none.
fn labels_at(p: Point) -> Range<usize>
    ensures bound { (result.start ≤ 29) × (result.end ≤ 29) }
    ensures before { (k : ℕ) → k < result.start → labelled p k ≡ false }
    ensures after { (k : ℕ) → result.end ≤ k → k < 29 → labelled p k ≡ false }
{
    if 540 <= p.x {
        return 25..29;
    }
    if p.y < 36 {
        return 0..12;
    }
    if p.x < 80 {
        return 11..27;
    }
    0..0
}

// A pixel of the form.
pub fn shows(p: Point) -> bool
    ensures test { result ≡ form p }
{
    is_grid(p) | labels_at(p).any(|k| is_label(k, p))
}
