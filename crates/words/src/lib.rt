// The words of a line, bytes parted by spaces or tabs, and words as numbers.
#![tactic(auto)]

pub mod number;
pub mod slash;

ghost use Rattle.std.specs.Prelude.{◌≡◌, ◌≤◌, ◌-◌, length, take, drop};
ghost use Rattle.words.specs.Words.{blank, past_run, skip, front, past, word_count};

// A word's first byte and the place past its last one; both are the line's end where no word is left.
// As it is: two places and no slice or Option: the clauses `within`, `bytes` and `left` of word_after speak of both, at the line's end too.
#[derive(Clone, Copy)]
pub struct Word {
    pub from: usize,
    pub to: usize,
}

// A space or a tab.
pub fn is_blank(byte: u8) -> bool
    ensures test { result ≡ blank byte }
{
    (byte == b' ') | (byte == b'\t')
}

// The first place from `at` on that is no blank, or that is one, or the line's end.
// As it is: the line's end is a place like any other: the clauses `within` and `left` hold of it, and `word_after` goes on from it.
#[tactic(auto, using(crate::proofs::Parting::runs))]
fn run_end(line: &[u8], at: usize, blanks: bool) -> usize
    requires { at ≤ length line.now }
    ensures within { (at ≤ result) × (result ≤ length line.now) }
    ensures left { drop result line.now ≡ past_run blanks (drop at line.now) }
{
    for i in at..line.len() {
        if is_blank(line[i]) != blanks {
            return i;
        }
    }
    line.len()
}

// The next word from `at` on; past the line's end there is none.
pub fn word_after(line: &[u8], at: usize) -> Word
    ensures within { (result.from ≤ result.to) × (result.to ≤ length line.now) }
    ensures bytes { take (result.to - result.from) (drop result.from line.now) ≡ front (skip (drop at line.now)) }
    ensures left { drop result.to line.now ≡ past (skip (drop at line.now)) }
{
    let from = run_end(line, at.min(line.len()), true);
    let to = run_end(line, from, false);
    Word { from, to }
}

// How many words a line has.
#[tactic(auto, using(crate::proofs::Parting::count))]
pub fn count_words(line: &[u8]) -> usize
    ensures count { result ≡ word_count line.now }
    ensures bound { result ≤ length line.now }
{
    let mut count: usize = 0;
    let mut inside = false;
    for byte in line {
        let over = is_blank(*byte);
        if !(inside | over) {
            count += 1;
        }
        inside = !over;
    }
    count
}
