// What every rule uses: total helpers, each with one equation for its promise.
#![tactic(auto)]

pub mod channels;

ghost use Rattle.std.specs.Prelude.{◌≡◌, cond, ◌-◌, ◌*◌, ◌<◌, get_or};
ghost use Rattle.base.specs.Sum.{rolled, capped};

// What a test chooses: one value where it holds, and otherwise what the later tests gave.
pub fn choose<T: Copy>(test: bool, one: T, other: T) -> T
    ensures chosen { result ≡ cond test one other }
{
    if test { one } else { other }
}

// A byte; past the end 0.
// As it is: .ci/fetch reads its MIR and admits no call there, as of `get` or `unwrap_or`.
pub fn byte_at(bytes: &[u8], at: usize) -> u8
    ensures byte { result ≡ get_or bytes.now at 0 }
{
    if at < bytes.len() { bytes[at] } else { 0 }
}

// A byte made wide, with its bound.
// As it is: public, and its clause `bound` says what `u32::from` does not.
pub fn wide(byte: u8) -> u32
    ensures same { result ≡ byte }
    ensures bound { result < 256 }
{
    u32::from(byte)
}

// A sum of 24 bits, which rolls over past #FFFFFF.
pub fn rolled_sum(a: u32, b: u32) -> u32
    ensures rolled { result ≡ rolled a b }
{
    ((a as u64 + b as u64) % 0x1000000) as u32
}

// A product of any two counts, which stops at the largest that 64 bits hold.
pub fn product(a: u64, b: u64) -> u64
    ensures capped { result ≡ capped (a * b) }
{
    a.saturating_mul(b)
}
