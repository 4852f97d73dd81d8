// Picture memory (01, "Rows and pixels"; 02, Q-3): a pixel out of packed bytes, at any depth, and where the memory ends. Shifts and masks
// alone, for processors with no multiply.
#![tactic(auto)]

ghost use Rattle.std.specs.Prelude.{◌≡◌, ◌*◌, ◌/◌, ◌%◌, ◌^◌, ◌<◌};
ghost use Rattle.control.specs.Control.{pixel_bits};
ghost use Rattle.memory.specs.Memory.{byte_of, pixel_in, ends_beyond, pixel_shown};

// Pixels in a byte.
fn per_byte(control: u32) -> u64
    ensures whole { result * pixel_bits control ≡ 8 }
{
    let depth = control::depth_code(control);
    1u64 << (3 - depth)
}

// One pixel out of a byte, by its number there, lowest bits first.
fn picked(byte: u8, number: u32, depth: u32) -> u8
    requires { (number < 8) × (depth < 4) }
    ensures pixel { result ≡ byte / 2 ^ (number * 2 ^ depth) % 2 ^ (2 ^ depth) }
{
    let bits = 1u64 << depth;
    let from = number << depth;
    let mask = (1u64 << bits) - 1;
    let above = byte as u64 >> from;
    (above & mask) as u8
}

// The byte that the pixel at a place stands in.
pub fn byte_of(control: u32, place: u64) -> u64
    ensures byte { result ≡ byte_of (pixel_bits control) place }
{
    let depth = control::depth_code(control);
    place >> (3 - depth)
}

// The pixel at a place, out of its byte.
pub fn pixel_in(control: u32, byte: u8, place: u64) -> u8
    ensures pixel { result ≡ pixel_in (pixel_bits control) byte place }
{
    let per = per_byte(control);
    // a loop over places is then made twice, once without the shifts
    if per == 1 {
        return byte;
    }
    let number = (place & (per - 1)) as u32;
    picked(byte, number, control::depth_code(control))
}

// The pixel at a place; past the memory 0, and with transfers switched off 0 everywhere.
pub fn pixel_shown(control: u32, memory: &[u8], place: u64) -> u8
    ensures pixel { result ≡ pixel_shown control memory.now place }
{
    let on = control::is_transferring(control);
    if on {
        let byte = base::byte_at(memory, byte_of(control, place) as usize);
        return pixel_in(control, byte, place);
    }
    0
}

// Refusal 20: the pixel at a place ends beyond the memory.
pub fn ends_beyond(control: u32, memory: &[u8], place: u64) -> bool
    ensures refusal { result ≡ ends_beyond (pixel_bits control) memory.now place }
{
    memory.len() as u64 <= byte_of(control, place)
}
