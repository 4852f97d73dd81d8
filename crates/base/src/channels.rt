// The three bytes of a colour, of the mask or of a checksum word (01, "Rows and pixels"): red in bits 23 to 16, green, blue.
ghost use Rattle.std.specs.Prelude.{◌≡◌};
ghost use Rattle.base.specs.Channels.{red, green, blue, joined};

// Bits 23 to 16.
pub fn red_byte(word: u32) -> u8
    ensures byte { result ≡ red word }
{
    let [_, red, _, _] = word.to_be_bytes();
    red
}

// Bits 15 to 8.
pub fn green_byte(word: u32) -> u8
    ensures byte { result ≡ green word }
{
    let [_, _, green, _] = word.to_be_bytes();
    green
}

// Bits 7 to 0.
pub fn blue_byte(word: u32) -> u8
    ensures byte { result ≡ blue word }
{
    let [_, _, _, blue] = word.to_be_bytes();
    blue
}

// A word from its three bytes.
// As it is: tried with from_be_bytes, 0.86 s for 0.73 s over 400,000,000 splits and joins; each tick joins four, and is held to docs/SPEED.md.
pub fn join(red: u8, green: u8, blue: u8) -> u32
    ensures word { result ≡ joined red green blue }
{
    red as u32 * 0x10000 + green as u32 * 0x100 + blue as u32
}
