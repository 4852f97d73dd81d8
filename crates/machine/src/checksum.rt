// The checksum words (01, "Rows and pixels"): the bytes of the three sums as they are read. Any number may be asked about.
ghost use Rattle.std.specs.Prelude.{◌≡◌, get_or};
ghost use Rattle.machine.specs.Words.{checksum_words};

use base::channels;
use pixel::Sums;

// The place value of byte k of a sum.
const BYTES: [u32; 3] = [1, 0x100, 0x10000];

// Checksum word k: byte k of each sum, red leftmost; past the third there is none.
pub fn checksum_word(k: u32, sums: Sums) -> u32
    ensures word { result ≡ get_or (checksum_words sums) k 0 }
{
    let Some(one) = BYTES.get(k as usize) else {
        return 0;
    };
    let red = sums.red / one % 0x100;
    let green = sums.green / one % 0x100;
    let blue = sums.blue / one % 0x100;
    channels::join(red as u8, green as u8, blue as u8)
}
