// Input that comes in pieces, line by line: bytes up to LF, with a CR just before it.
#![tactic(auto)]

ghost use Rattle.std.specs.Prelude.{◌≡◌, ◌==◌, ◌-◌, ◌≤◌, length, take, position};
ghost use Rattle.std.specs.Io.KnownBytes.{Consumes};
ghost use Rattle.input.specs.Input.{taken_line, taken_room, line_of, first_reader, next_from, next_count, read_anew, is_line, one_more};

use std::io::{ErrorKind, Read};

// A piece of the input, and a line with its end and one byte more: so a line of more than 1,000 bytes is seen.
pub const PIECE: usize = 65536;

pub const LINE: usize = 1002;

// The next byte of the piece, the bytes of the line so far, and whether it has ended. Past the longest line bytes are counted no more.
// As it is: the definition taken_line says of a line that has not ended how long it is too.
#[derive(Clone, Copy)]
pub struct Taken {
    pub at: usize,
    pub length: usize,
    pub ended: bool,
}

// The bytes in the piece, what was taken of it, and the turns left: none past the input's end. A loop over the input has to end, and nothing
// says that an input does: it counts from a number that no input uses up.
// As it is: the clauses of `next` speak of piece and line as they are lent, before and after; a reader that owns them would say less.
#[derive(Clone, Copy)]
pub struct Reader {
    pub size: usize,
    pub taken: Taken,
    pub turns: u64,
}

// Before the input's first byte.
pub fn begin() -> Reader
    ensures reader { result ≡ first_reader }
{
    let taken = Taken {
        at: 0,
        length: 0,
        ended: false,
    };
    Reader {
        size: 0,
        taken,
        turns: u64::MAX,
    }
}

// Reads some bytes: how many there are. A signal only has them read again; any other failure is taken for the input's end.
pub fn read<R: Read>(input: &mut R, bytes: &mut [u8]) -> usize
    ensures within { result ≤ length bytes.new }
    ensures given { Consumes (R.remaining input.old) (R.remaining input.new) (take result bytes.new) }
{
    for _ in 0..u64::MAX {
        match input.read(bytes) {
            Ok(count) => return count,
            Err(error) => {
                if error.kind() != ErrorKind::Interrupted {
                    return 0;
                }
            }
        }
    }
    0
}

// Takes more of a line out of the piece, which is read anew where it is used up.
pub fn next<R: Read>(
    input: &mut R,
    r: Reader,
    piece: &mut [u8; PIECE],
    line: &mut [u8; LINE],
) -> Reader
    ensures fewer { result.turns ≤ r.turns - 1 }
    ensures taken { result.taken ≡ taken_line (take result.size piece.new) (next_from r) line.old (next_count r) }
    ensures bytes { line.new ≡ taken_room (take result.size piece.new) (next_from r) line.old (next_count r) }
    ensures given { Consumes (R.remaining input.old) (R.remaining input.new) (read_anew r (take result.size piece.new)) }
{
    let before = r.taken;
    let length = base::choose(before.ended, 0, before.length);
    let turns = r.turns.saturating_sub(1);
    if before.at < r.size {
        let taken = take_line(room::lent(piece, r.size), before.at, line, length);
        return Reader {
            size: r.size,
            taken,
            turns,
        };
    }
    let size = read(input, piece);
    let taken = take_line(room::lent(piece, size), 0, line, length);
    Reader {
        size,
        taken,
        turns: base::choose(0 < size, turns, 0),
    }
}

// A whole line has been taken: the last may lack its end.
pub fn is_line(r: Reader) -> bool
    ensures whole { result ≡ is_line r }
{
    let taken = r.taken;
    taken.ended | ((r.turns == 0) & (0 < taken.length))
}

// The place of the first LF, where there is one.
fn end_of(bytes: &[u8]) -> Option<usize>
    ensures end { result ≡ position (λ byte. byte == 10) bytes.now }
{
    bytes.iter().position(|byte| *byte == b'\n')
}

// Takes a piece's bytes from `from` on, up to a line's end, behind the first `count` of the line.
fn take_line(piece: &[u8], from: usize, line: &mut [u8], count: usize) -> Taken
    ensures taken { result ≡ taken_line piece.now from line.old count }
    ensures bytes { line.new ≡ taken_room piece.now from line.old count }
{
    let rest = &piece[from.min(piece.len())..];
    let end = end_of(rest);
    let text = &rest[..end.unwrap_or(rest.len())];
    let first = count.min(line.len());
    let placed = text.len().min(line.len() - first);
    line[first..first + placed].copy_from_slice(&text[..placed]);
    let ended = end.is_some();
    Taken {
        at: from + text.len() + usize::from(ended),
        length: count + placed,
        ended,
    }
}

// The line that has been taken, less a CR just before its end.
pub fn line_of(r: Reader, line: &[u8; LINE]) -> &[u8]
    ensures bytes { result.now ≡ line_of line.now r.taken.length r.taken.ended }
{
    let taken = r.taken;
    let last = taken.length.saturating_sub(1);
    let returned = taken.ended & (base::byte_at(line, last) == b'\r');
    room::lent(line, base::choose(returned, last, taken.length))
}

// One line more; the count stops at the largest that 64 bits hold.
// As it is: public, and its clause stands.
pub fn one_more(lines: u64) -> u64
    ensures count { result ≡ one_more lines }
{
    lines.saturating_add(1)
}
