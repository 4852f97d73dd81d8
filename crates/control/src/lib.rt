// Control A (01, "Register map"; 02, Q-4): which words are in the build, and what their bits mean. Any number may be asked about.
#![tactic(auto)]

ghost use Rattle.std.specs.Prelude.{◌≡◌, ◌^◌, ◌<◌};
ghost use Rattle.control.specs.Control.{field, bit, running, interlaced, plain, forced_blank, transferring, cursor_on, outside, depth, shift_period, increment_code, increment, offset, row_divisor};

// In screen units, by depth: 1, 2, 4 and 8 bits.
const SHIFT_PERIODS: [u32; 4] = [16, 8, 4, 2];

// By bits 13 and 12: not interlaced, interlaced, and what is added to top for the second field.
// As it is: these tables stand side by side: each is asked for alone, three of them are lists of specs/Control.antt; in rows they are no plainer.
const INCREMENTS: [u32; 4] = [1, 256, 512, 1024];

const INTERLACED_INCREMENTS: [u32; 4] = [1, 2, 512, 1024];

const OFFSETS: [u32; 4] = [1, 1, 256, 512];

// The row's divisors as powers of two: not interlaced, and interlaced.
const INCREMENT_POWERS: [u32; 4] = [0, 8, 9, 10];

const OFFSET_POWERS: [u32; 4] = [0, 0, 8, 9];

// `count` bits of a word, from bit `low` on, as a number.
fn field(low: u32, count: u32, word: u32) -> u32
    requires { (low < 32) × (count < 32) }
    ensures bits { result ≡ field low count word }
{
    (word >> low) & ((1 << count) - 1)
}

// One bit of a word.
fn bit(n: u32, word: u32) -> bool
    requires { n < 32 }
    ensures bit { result ≡ bit n word }
{
    field(n, 1, word) == 1
}

// Bit 0: the generator runs.
pub fn is_running(control: u32) -> bool
    ensures bit { result ≡ running control }
{
    bit(0, control)
}

// Bit 1: the screen is interlaced.
pub fn is_interlaced(control: u32) -> bool
    ensures bit { result ≡ interlaced control }
{
    bit(1, control)
}

// Bit 4: plain flyback sync; tesselated where it is 0.
pub fn is_plain(control: u32) -> bool
    ensures bit { result ≡ plain control }
{
    bit(4, control)
}

// Bit 10: blanking is forced.
pub fn is_forced_blank(control: u32) -> bool
    ensures bit { result ≡ forced_blank control }
{
    bit(10, control)
}

// Bit 14 switches row transfers off.
pub fn is_transferring(control: u32) -> bool
    ensures bit { result ≡ transferring control }
{
    !bit(14, control)
}

// Bit 23 switches the cursor off.
pub fn is_cursor_on(control: u32) -> bool
    ensures bit { result ≡ cursor_on control }
{
    !bit(23, control)
}

// Refusal 4: a mode that the build does not have.
pub fn is_outside(control: u32) -> bool
    ensures refusal { result ≡ outside control }
{
    (field(3, 1, control) != 0)
        | (field(11, 1, control) != 0)
        | (field(15, 5, control) != 0)
        | (field(22, 1, control) != 0)
}

// 0, 1, 2 and 3 for 1, 2, 4 and 8 bits a pixel.
// As it is: a number, which the definition depth says, and shifts go by it.
pub fn depth_code(control: u32) -> u32
    ensures code { result ≡ depth control }
{
    field(20, 2, control)
}

// The shift period, in screen units.
pub fn shift_period(control: u32) -> u32
    ensures period { result ≡ shift_period control }
{
    let depth = depth_code(control) as usize;
    SHIFT_PERIODS[depth]
}

// Bits 13 and 12: 0, 1, 2 and 3 for the rows of the tables.
fn increment_code(control: u32) -> u32
    ensures code { result ≡ increment_code control }
{
    field(12, 2, control)
}

// The address increment.
pub fn address_increment(control: u32) -> u32
    ensures increment { result ≡ increment control }
{
    let code = increment_code(control) as usize;
    let interlaced = is_interlaced(control);
    if interlaced {
        return INTERLACED_INCREMENTS[code];
    }
    INCREMENTS[code]
}

// What is added to top for the second field.
pub fn field_offset(control: u32) -> u32
    ensures offset { result ≡ offset control }
{
    let code = increment_code(control) as usize;
    OFFSETS[code]
}

// The row's divisor as the power of two that it is, so that an address is divided by it by a shift.
pub fn divisor_power(control: u32) -> u32
    ensures power { 2 ^ result ≡ row_divisor control }
    ensures bound { result < 32 }
{
    let code = increment_code(control) as usize;
    let interlaced = is_interlaced(control);
    if interlaced {
        return OFFSET_POWERS[code];
    }
    INCREMENT_POWERS[code]
}
