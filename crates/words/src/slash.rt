// The `/` that parts the two sides of a `compare`: the first that is a word by itself.
ghost use Rattle.std.specs.Prelude.{◌≡◌, ◌≤◌, ◌<◌, length};
ghost use Rattle.words.specs.Slash.{blank_at, blank_before, alone, slash_at};

use crate::is_blank;

// A blank stands at a place, or the line has ended.
fn is_blank_at(line: &[u8], i: usize) -> bool
    ensures test { result ≡ blank_at line.now i }
{
    match line.get(i) {
        Some(byte) => is_blank(*byte),
        None => true,
    }
}

// A blank stands before a place, or the line begins there.
fn is_blank_before(line: &[u8], i: usize) -> bool
    requires { i ≤ length line.now }
    ensures test { result ≡ blank_before line.now i }
{
    i == 0 || is_blank(line[i - 1])
}

// Byte i is a `/` that is a word by itself.
fn is_alone(line: &[u8], i: usize) -> bool
    requires { i < length line.now }
    ensures test { result ≡ alone line.now i }
{
    line[i] == b'/' && is_blank_before(line, i) && is_blank_at(line, i + 1)
}

// The place of the first `/` that is a word by itself, or the line's end.
// As it is: the definition slash_at, and the commands' definitions over it, give the line's end where there is none.
#[tactic(auto, using(crate::proofs::slash::Cases::slash))]
pub fn slash_at(line: &[u8]) -> usize
    ensures place { result ≡ slash_at line.now }
    ensures within { result ≤ length line.now }
{
    for i in 0..line.len() {
        if is_alone(line, i) {
            return i;
        }
    }
    line.len()
}
