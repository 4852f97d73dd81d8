// A patient's thresholds, by ear and frequency, and a line's two levels put among them.
ghost use Rattle.std.specs.Prelude.{◌≡◌};
ghost use Rattle.patient.specs.Thresholds.{placed, fresh};

use crate::Fault;

// Levels by frequency, 125 to 8000 Hz: number n is -10 + 5 x n dB hearing level, up to 26; a larger one is not measured.
// As it is: a level not measured is a byte and no Option: `marks::ear::shows` and `audiogram::draw` take any byte and say what each shows.
#[derive(Clone, Copy)]
pub struct Chart {
    pub right: [u8; 11],
    pub left: [u8; 11],
}

// A level that no chart shows: no line has given this frequency yet.
const NOT_GIVEN: u8 = 255;

// A chart for which no line was read yet.
pub fn fresh() -> Chart
    ensures chart { result ≡ fresh }
{
    Chart {
        right: [NOT_GIVEN; 11],
        left: [NOT_GIVEN; 11],
    }
}

// The line's levels on the chart, the right ear's first, or its first fault: the frequency, then the words, then the levels.
#[tactic(auto, unfolding(crate::specs::Thresholds::placed, crate::specs::Thresholds::placed_fault))]
pub fn placed(
    chart: Chart,
    frequency: Option<usize>,
    words: usize,
    right: Result<u8, Fault>,
    left: Result<u8, Fault>,
) -> Result<Chart, Fault>
    ensures reading { result ≡ placed chart frequency words right left }
{
    let k = frequency.ok_or(Fault::UnknownFrequency)?;
    if 11 <= k || chart.right[k] != NOT_GIVEN {
        return Err(Fault::GivenTwice);
    }
    if words < 3 {
        return Err(Fault::MissingEar);
    }
    if 3 < words {
        return Err(Fault::TooManyWords);
    }
    let (right, left) = (right?, left?);
    let mut next = chart;
    next.right[k] = right;
    next.left[k] = left;
    Ok(next)
}
