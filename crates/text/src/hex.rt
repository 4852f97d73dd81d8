// Numbers in hexadecimal digits.
ghost use Rattle.std.specs.Prelude.{◌≡◌};
ghost use Rattle.text.specs.Hex.{hex_text, byte_text, glyph as Hex·glyph};

// A hexadecimal digit, in capitals.
fn glyph(digit: u32) -> u8
    ensures byte { result ≡ Hex·glyph digit }
{
    let k = digit % 16;
    if k < 10 {
        return (48 + k) as u8;
    }
    (55 + k) as u8
}

// `#` and six digits.
pub fn hex_text(value: u32) -> [u8; 7]
    ensures text { result ≡ hex_text value }
{
    [
        b'#',
        glyph(value / 0x100000),
        glyph(value / 0x10000),
        glyph(value / 0x1000),
        glyph(value / 0x100),
        glyph(value / 0x10),
        glyph(value),
    ]
}

// A byte as two digits.
pub fn byte_text(byte: u8) -> [u8; 2]
    ensures text { result ≡ byte_text byte }
{
    let value = base::wide(byte);
    [glyph(value / 0x10), glyph(value)]
}
