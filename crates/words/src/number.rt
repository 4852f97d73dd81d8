// Numbers: decimal, or hexadecimal after `#`, in either case of letters.
ghost use Rattle.std.specs.Prelude.{◌≡◌, cond, ◌+◌, ◌*◌, ◌≤◌, leb, ltb, Ok, Err};
ghost use Rattle.std.specs.List.{list_any};
ghost use Rattle.words.specs.declared.number.NumberFault.TheVariants.{TooLarge};
ghost use Rattle.words.specs.Numbers.{digit_of, largest, digits_number, number_of};

// Why a word is no number from 0 to 4,294,967,295.
#[derive(Clone, Copy, PartialEq, Eq)]
pub enum NumberFault {
    NotANumber,
    TooLarge,
}

// What a byte counts as a digit; 16 for a byte that is none.
// As it is: the definition digit_of says 16 of it, which is no digit of either base.
fn digit_of(byte: u8) -> u32
    ensures digit { result ≡ digit_of byte }
{
    match byte {
        b'0'..=b'9' => u32::from(byte - b'0'),
        b'A'..=b'F' => u32::from(byte - b'A') + 10,
        b'a'..=b'f' => u32::from(byte - b'a') + 10,
        _ => 16,
    }
}

// Some byte is no digit of a base.
fn is_strange(text: &[u8], base: u32) -> bool
    ensures test { result ≡ list_any (λ byte. leb base (digit_of byte)) text.now }
{
    text.iter().any(|byte| base <= digit_of(*byte))
}

// A value with one digit more, where it is not too large.
fn grown(value: u32, base: u32, digit: u32) -> Result<u32, NumberFault>
    ensures more { result ≡ cond (ltb largest (value * base + digit)) (Err TooLarge) (Ok (value * base + digit)) }
{
    value
        .checked_mul(base)
        .and_then(|tens| tens.checked_add(digit))
        .ok_or(NumberFault::TooLarge)
}

// What digits give.
#[tactic(auto, unfolding(crate::specs::Numbers::digits_number), using(crate::proofs::number::Digits::digits))]
fn digits_number(text: &[u8], hexadecimal: bool) -> Result<u32, NumberFault>
    ensures number { result ≡ digits_number hexadecimal text.now }
{
    let base = base::choose(hexadecimal, 16u32, 10);
    if text.is_empty() || is_strange(text, base) {
        return Err(NumberFault::NotANumber);
    }
    let mut value: u32 = 0;
    for byte in text {
        value = grown(value, base, digit_of(*byte))?;
    }
    Ok(value)
}

// A word as a number.
#[tactic(auto, unfolding(crate::specs::Numbers::number_of))]
pub fn number_of(word: &[u8]) -> Result<u32, NumberFault>
    ensures number { result ≡ number_of word.now }
{
    match word {
        [b'#', digits @ ..] => digits_number(digits, true),
        _ => digits_number(word, false),
    }
}
