// A word of a patient's line as a level, or what is wrong with it.
ghost use Rattle.std.specs.Prelude.{◌≡◌, ◌≤◌, IfOk};
ghost use Rattle.patient.specs.Levels.{plain_number, in_range, stepped, signed_level, level_of};

use crate::Fault;
use words::number;
use words::number::NumberFault;

// A level that no chart shows: it was not measured.
const NOT_MEASURED: u8 = 254;

// A word as a decimal number.
#[tactic(auto, unfolding(crate::specs::Levels::plain_number))]
pub fn plain_number(word: &[u8]) -> Result<u32, NumberFault>
    ensures number { result ≡ plain_number word.now }
{
    match word {
        [b'#', ..] => Err(NumberFault::NotANumber),
        _ => number::number_of(word),
    }
}

// A number up to the most.
fn in_range(n: Result<u32, NumberFault>, most: u32) -> Result<u32, Fault>
    ensures number { result ≡ in_range n most }
    ensures bound { IfOk result (λ value. value ≤ most) }
{
    let value = n?;
    if most < value {
        return Err(Fault::OutOfRange);
    }
    Ok(value)
}

// A level so many dB above -10.
fn stepped(above: u32) -> Result<u8, Fault>
    requires { above ≤ 130 }
    ensures level { result ≡ stepped above }
{
    if above % 5 == 0 {
        return Ok((above / 5) as u8);
    }
    Err(Fault::NotAStep)
}

// A level of so many dB: above 0 up to 120, or below it down to -10.
#[tactic(auto, unfolding(crate::specs::Levels::signed_level))]
fn signed_level(below: bool, n: Result<u32, NumberFault>) -> Result<u8, Fault>
    ensures level { result ≡ signed_level below n }
{
    if below {
        return stepped(10 - in_range(n, 10)?);
    }
    stepped(10 + in_range(n, 120)?)
}

// A word as a level.
#[tactic(auto, unfolding(crate::specs::Levels::level_of))]
pub fn level_of(word: &[u8]) -> Result<u8, Fault>
    ensures level { result ≡ level_of word.now }
{
    match word {
        [b'-'] => Ok(NOT_MEASURED),
        [b'-', rest @ ..] => signed_level(true, plain_number(rest)),
        _ => signed_level(false, plain_number(word)),
    }
}
