// An interlaced picture (02, Q-4), woven for a file as a tube shows it, row by row.
#![tactic(auto)]

ghost use Rattle.std.specs.Prelude.{◌≡◌, ◌++◌, ◌+◌, ◌≤◌, ◌<◌, ◌^◌, length, drop};
ghost use Rattle.std.proofs.lemmas.List.Edits.{sets};
ghost use Rattle.base.specs.Count.{run};
ghost use Rattle.room.specs.Room.{KeptRoom};
ghost use Rattle.weave.specs.Weave.{start_of, is_row, row_put};
ghost use Rattle.weave.specs.Part.{part_of, byte_in, Small};

// A line's pixels, VDisplay, the pixels of a line's first half, and whether the first field begins late, with a second half.
#[derive(Clone, Copy)]
pub struct Weave {
    pub width: u64,
    pub lines: u64,
    pub half: u64,
    pub late: bool,
}

// Whether a row is one of the file, and fits into `size` bytes.
fn is_row(w: Weave, row: u64, size: u64) -> bool
    ensures holds { result ≡ is_row w row size }
{
    (w.half <= w.width)
        & (w.lines % 2 == 1)
        & (w.width < 0x10000)
        & (w.lines < 0x10000)
        & (row <= w.lines)
        & (w.width <= size / 3)
}

// The column of a field's first pixel, in its row 0.
fn start_of(w: Weave, b: bool) -> u64
    ensures column { result ≡ start_of w b }
{
    base::choose(b, w.half, 0)
}

// A row in bytes: what its field has above it, where along its rows the field begins and ends, and where it begins in the picture.
#[derive(Clone, Copy)]
struct Part {
    above: u64,
    from: u64,
    until: u64,
    begin: u64,
}

// The part of a row, of field B or A.
fn part_of(w: Weave, row: u64) -> Part
    requires { Small w row }
    ensures part { result ≡ part_of w row }
{
    let b = row % 2 == 0;
    let whole = w.lines / 2 * w.width;
    let pixels_a = whole + w.half;
    let pixels_b = whole + (w.width - w.half);
    let start = start_of(w, b);
    let pixels = base::choose(b, pixels_b, pixels_a);
    let begin_b = base::choose(w.late, 0, pixels_a);
    let begin_a = base::choose(w.late, pixels_b, 0);
    let begin = base::choose(b, begin_b, begin_a);
    Part {
        above: 3 * (row / 2 * w.width),
        from: 3 * start,
        until: 3 * (start + pixels),
        begin: 3 * begin,
    }
}

// Byte k of a row: black before the field's first pixel and past its last.
#[tactic(auto, unfolding(crate::specs::Part::byte_in))]
fn byte_in(picture: &[u8], p: Part, k: u64) -> u8
    requires { p.begin + (p.above + k) < 2 ^ 64 }
    ensures byte { result ≡ byte_in picture.now p k }
{
    let at = p.above + k;
    if (at < p.from) | !(at < p.until) {
        return 0;
    }
    base::byte_at(picture, (p.begin + (at - p.from)) as usize)
}

// The first `count` bytes of a room become a row's.
fn lay(room: &mut [u8], picture: &[u8], p: Part, count: u64)
    requires fits { count ≤ length room.old }
    requires small { p.begin + (p.above + count) < 2 ^ 64 }
    ensures bytes { room.new ≡ run (byte_in picture.now p) 0 count ++ drop count room.old }
{
    for (k, byte) in room[..count as usize].iter_mut().enumerate() {
        *byte = byte_in(picture, p, k as u64);
    }
}

// A row of the file put into a room from its beginning on, and the count of its bytes. Nothing, where it is no row or does not fit.
pub fn put_row(room: &mut [u8], picture: &[u8], w: Weave, row: u64) -> usize
    ensures count { result ≡ length (row_put w picture.now row (length room.old)) }
    ensures bytes { room.new ≡ sets room.old 0 (row_put w picture.now row (length room.old)) }
    ensures within { KeptRoom room.old room.new result }
{
    if is_row(w, row, room.len() as u64) {
        let count = 3 * w.width;
        let p = part_of(w, row);
        lay(room, picture, p, count);
        return count as usize;
    }
    0
}
