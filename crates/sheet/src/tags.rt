// The tags of a screen sheet's fields (01, "Screen sheet"), from one table.
ghost use Rattle.std.specs.Prelude.{◌≡◌, get_or};
ghost use Rattle.sheet.specs.Encoding.{tags};

// By field, in register order.
const TAGS: [u8; 14] = [
    0x21, 0x22, 0x23, 0x24, 0x25, 0x26, 0x27, 0x28, 0x29, 0x2A, 0x2B, 0x2C, 0x2D, 0x2E,
];

// The tag of a field by its number, from 0; past the fourteenth there is none.
pub fn tag_of(number: usize) -> u8
    ensures tag { result ≡ get_or tags number 0 }
{
    TAGS.get(number).copied().unwrap_or(0)
}
