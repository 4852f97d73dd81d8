// Checksums as the regulator compares them (01): their nine bytes, and whether two of them match. Any words and bytes may be given.
#![tactic(auto)]

ghost use Rattle.std.specs.Prelude.{◌≡◌};
ghost use Rattle.vault.specs.Nine.{nine_bytes};
ghost use Rattle.vault.specs.Compare.{nine_long, compared};

use base::channels;

// A refusal, or 0 and whether the two are equal.
// As it is: a number beside the answer, not a Result: the definition compared and the theorems equal_same and same_equal have it so.
#[derive(Clone, Copy)]
pub struct Comparison {
    pub refusal: u32,
    pub equal: bool,
}

// The nine bytes to compare of #0C0, #0C1 and #0C2, as they are read.
pub fn nine(words: [u32; 3]) -> [u8; 9]
    ensures bytes { result ≡ nine_bytes words }
{
    let low = words[0];
    let middle = words[1];
    let high = words[2];
    [
        channels::red_byte(low),
        channels::green_byte(low),
        channels::blue_byte(low),
        channels::red_byte(middle),
        channels::green_byte(middle),
        channels::blue_byte(middle),
        channels::red_byte(high),
        channels::green_byte(high),
        channels::blue_byte(high),
    ]
}

// Both checksums are nine bytes long.
fn are_nine_long(a: &[u8], b: &[u8]) -> bool
    ensures test { result ≡ nine_long a.now b.now }
{
    (a.len() == 9) & (b.len() == 9)
}

// Whether two checksums match.
// As it is: a walk and no `==`, so that all nine bytes are looked at, whatever the first ones are.
pub fn compare(a: &[u8], b: &[u8]) -> Comparison
    ensures whole { result ≡ compared a.now b.now }
{
    if !are_nine_long(a, b) {
        return Comparison {
            refusal: 24,
            equal: false,
        };
    }
    let mut equal = true;
    for (x, y) in a.iter().zip(b) {
        equal = equal & (*x == *y);
    }
    Comparison { refusal: 0, equal }
}
