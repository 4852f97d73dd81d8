// A patient's line, read into the two ears' thresholds.
#![tactic(auto)]

pub mod level;
pub mod thresholds;

ghost use Rattle.std.specs.Prelude.{◌≡◌, ◌<◌, drop, IfSome};
ghost use Rattle.words.specs.Words.{front, skip, past, word_at};
ghost use Rattle.patient.specs.Levels.{level_of};
ghost use Rattle.patient.specs.Patient.{frequency_of, words_read, remark_word, line_read};

use crate::level::{level_of, plain_number};
use crate::thresholds::{Chart, placed};
use words::number::NumberFault;

// What is wrong with a line. `Other` is a caller's own, by its number: `placed` hands on any, and no line that is read has it.
#[derive(Clone, Copy, PartialEq, Eq)]
pub enum Fault {
    UnknownFrequency,
    GivenTwice,
    MissingEar,
    TooManyWords,
    NotALevel,
    OutOfRange,
    NotAStep,
    TooLong,
    Other(u32),
}

// A number's fault as a level's.
impl From<NumberFault> for Fault {
    ghost use Rattle.std.specs.Prelude.{◌≡◌};
    ghost use Rattle.patient.specs.Levels.{number_fault};

    ghost from_gives = { λ n fault. fault ≡ number_fault n };

    fn from(n: NumberFault) -> Fault {
        match n {
            NumberFault::NotANumber => Fault::NotALevel,
            NumberFault::TooLarge => Fault::OutOfRange,
        }
    }
}

// In Hz, left to right.
const FREQUENCIES: [u32; 11] = [125, 250, 500, 750, 1000, 1500, 2000, 3000, 4000, 6000, 8000];

// A level, and the place past its word.
#[derive(Clone, Copy)]
pub struct Ear {
    pub level: Result<u8, Fault>,
    pub to: usize,
}

// The number of a frequency, left to right.
fn frequency_of(n: Result<u32, NumberFault>) -> Option<usize>
    ensures place { result ≡ frequency_of n }
    ensures bound { IfSome result (λ k. k < 11) }
{
    match n {
        Ok(hertz) => FREQUENCIES.iter().position(|f| *f == hertz),
        Err(_) => None,
    }
}

// The level in the next word from `at` on.
fn ear_after(line: &[u8], at: usize) -> Ear
    ensures level { result.level ≡ level_of (front (skip (drop at line.now))) }
    ensures left { drop result.to line.now ≡ past (skip (drop at line.now)) }
{
    let word = words::word_after(line, at);
    Ear {
        level: level_of(&line[word.from..word.to]),
        to: word.to,
    }
}

// A line with words, read into the chart.
#[tactic(auto, unfolding(crate::specs::Patient::words_read, words::specs::Words::word_at))]
fn words_read(chart: Chart, line: &[u8]) -> Result<Chart, Fault>
    ensures reading { result ≡ words_read chart line.now }
{
    let word = words::word_after(line, 0);
    let frequency = frequency_of(plain_number(&line[word.from..word.to]));
    let right = ear_after(line, word.to);
    let left = ear_after(line, right.to);
    let count = words::count_words(line);
    placed(chart, frequency, count, right.level, left.level)
}

// No word, or the first of a remark.
fn is_remark_word(word: &[u8]) -> bool
    ensures test { result ≡ remark_word word.now }
{
    matches!(word, [] | [b';', ..])
}

// A line that says nothing: one with no word, or a remark.
#[tactic(auto, unfolding(words::specs::Words::word_at))]
fn is_remark(line: &[u8]) -> bool
    ensures test { result ≡ remark_word (word_at 0 line.now) }
{
    let word = words::word_after(line, 0);
    is_remark_word(&line[word.from..word.to])
}

// A line read into the chart, or what is wrong with it; a remark leaves the chart as it is. What was cut off a long line is not known, so that is
// judged first.
#[tactic(auto, unfolding(crate::specs::Patient::line_read))]
pub fn read_line(chart: Chart, line: &[u8]) -> Result<Chart, Fault>
    ensures reading { result ≡ line_read chart line.now }
{
    if 1000 < line.len() {
        return Err(Fault::TooLong);
    }
    if is_remark(line) {
        return Ok(chart);
    }
    words_read(chart, line)
}
