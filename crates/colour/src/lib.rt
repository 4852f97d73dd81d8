// Colours (01, "Rows and pixels"): the palette under the mask.
#![tactic(auto)]

ghost use Rattle.std.specs.Prelude.{◌≡◌, get_or};
ghost use Rattle.std.specs.Int.Bits.{bit_and};
ghost use Rattle.colour.specs.Colour.{masked_colour, masked_palette};

use base::channels;

// The palette entry that a pixel picks under one byte of the mask.
fn entry(palette: &[u32; 256], pixel: u8, mask: u8) -> u32
    ensures entry { result ≡ get_or palette.now (bit_and pixel mask) 0 }
{
    let index = (pixel & mask) as usize;
    palette[index]
}

// The colour of a pixel: each channel has its own byte of the mask.
#[tactic(auto, unfolding(crate::specs::Colour::masked_colour))]
pub fn masked_colour(palette: &[u32; 256], mask: u32, pixel: u8) -> u32
    ensures colour { result ≡ masked_colour palette.now mask pixel }
{
    let red = entry(palette, pixel, channels::red_byte(mask));
    let green = entry(palette, pixel, channels::green_byte(mask));
    let blue = entry(palette, pixel, channels::blue_byte(mask));
    channels::join(
        channels::red_byte(red),
        channels::green_byte(green),
        channels::blue_byte(blue),
    )
}

// The mask applied to the whole palette: the colour of each of the 256 pixels.
pub fn masked_palette(palette: &[u32; 256], mask: u32) -> [u32; 256]
    ensures table { result ≡ masked_palette palette.now mask }
{
    let mut table = [0u32; 256];
    for (pixel, colour) in table.iter_mut().enumerate() {
        *colour = masked_colour(palette, mask, pixel as u8);
    }
    table
}
