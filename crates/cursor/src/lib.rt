// The cursor (01, "Rows and pixels"): its code at a pixel, by signed differences, and its colours.
#![tactic(auto)]

ghost use Rattle.std.specs.Prelude.{◌≡◌, ◌%◌, ◌<◌, ◌≤◌, pos, ◌-ℤ◌, MatchOption};
ghost use Rattle.control.specs.Control.{field};
ghost use Rattle.cursor.specs.Cursor.{signed12, within, code_at, cursor_code, biased, first_column, first_line, near, over};

// The low 12 bits of a word, in two's complement.
fn signed_field(word: u32) -> i64
    ensures number { result ≡ signed12 (field 0 12 word) }
{
    let n = word % 0x1000;
    if n < 2048 { n as i64 } else { n as i64 - 4096 }
}

// How far a column or a row stands past the cursor's first, which is the low 12 bits of a word.
fn offset(word: u32, at: u32) -> i64
    ensures difference { result ≡ pos at -ℤ signed12 (field 0 12 word) }
{
    at as i64 - signed_field(word)
}

// The number of that column or row within the cursor; outside it there is none.
fn number(word: u32, at: u32) -> Option<u32>
    ensures number { MatchOption result
        (64 ≤ within (pos at -ℤ signed12 (field 0 12 word)))
        (λ n. (n < 64) × (n ≡ within (pos at -ℤ signed12 (field 0 12 word)))) }
{
    let offset = offset(word, at);
    if (0..64).contains(&offset) {
        Some(offset as u32)
    } else {
        None
    }
}

// The code at a row and a column of the cursor.
fn code_at(store: &[u16; 512], row: u32, column: u32) -> u32
    requires { (row < 64) × (column < 64) }
    ensures code { result ≡ code_at store.now row column }
{
    let index = (8 * row + column / 8) as usize;
    ((store[index] >> (2 * (column % 8))) % 4) as u32
}

// The code of pixel x of line y under a cursor at a position; outside the cursor 0.
pub fn cursor_code(store: &[u16; 512], position: u32, x: u32, y: u32) -> u32
    ensures code { result ≡ cursor_code store.now position x y }
    ensures bound { result < 4 }
{
    let column = number(position / 0x1000, x);
    let row = number(position, y);
    match (row, column) {
        (Some(row), Some(column)) => code_at(store, row, column),
        _ => 0,
    }
}

// A 12-bit field in two's complement, counted from -2,048, where a signed position begins.
fn biased(field: u32) -> u64
    ensures place { result ≡ biased (field % 0x1000) }
{
    ((field % 0x1000 + 2048) % 0x1000) as u64
}

// The cursor's first column and its first line, counted so.
pub fn first_column(position: u32) -> u64
    ensures column { result ≡ first_column position }
{
    biased(position / 0x1000)
}

pub fn first_line(position: u32) -> u64
    ensures line { result ≡ first_line position }
{
    biased(position)
}

// The cursor may cover one of four pixels, the first of which is pixel x of line y.
pub fn is_near(position: u32, x: u32, y: u32) -> bool
    ensures test { result ≡ near position x y }
{
    let first = first_column(position);
    let top = first_line(position);
    let column = x as u64 + 2048;
    let line = y as u64 + 2048;
    (top <= line) & (line < top + 64) & (first <= column + 3) & (column < first + 64)
}

// A cursor's code over what is below: 0 is transparent, 1 to 3 are cursor colours.
pub fn cover(colours: &[u32; 3], code: u32, below: u32) -> u32
    ensures colour { result ≡ over colours.now code below }
{
    if code == 0 {
        return below;
    }
    colours.get(code as usize - 1).copied().unwrap_or(0)
}
