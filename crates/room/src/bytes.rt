// Numbers as bytes, and the bytes of a picture memory.
ghost use Rattle.std.specs.Prelude.{◌≡◌, ◌+◌, ◌-◌, ◌%◌, length, get_or};
ghost use Rattle.room.specs.Bytes.{fill_memory, bytes_from};

// Number from + k as a byte; 0 past the last number.
fn byte_of(values: &[u32], from: usize, k: usize) -> u8
    ensures byte { result ≡ get_or values.now (from + k) 0 % 256 }
{
    match values.get(from.saturating_add(k)) {
        Some(value) => (value % 256) as u8,
        None => 0,
    }
}

// Eighty numbers from number `from` on, as bytes.
pub fn bytes_of(values: &[u32], from: usize) -> [u8; 80]
    ensures bytes { result ≡ bytes_from values.now from }
{
    let mut bytes = [0u8; 80];
    for (k, byte) in bytes.iter_mut().enumerate() {
        *byte = byte_of(values, from, k);
    }
    bytes
}

// Byte i of `count` bytes from `at` on becomes (start + i x step) mod 256. Where they do not fit nothing is changed.
#[tactic(auto, unfolding(crate::specs::Bytes::fill_memory), using(crate::proofs::Laying::laid_over))]
pub fn fill(memory: &mut [u8], at: usize, count: usize, start: u32, step: u32)
    ensures bytes { memory.new ≡ fill_memory memory.old at count start step }
    ensures room { length memory.new ≡ length memory.old }
{
    let end = memory.len();
    if end < at {
        return;
    }
    if end - at < count {
        return;
    }
    let mut value = start as u64 % 256;
    for byte in &mut memory[at..at + count] {
        *byte = value as u8;
        value = (value + step as u64) % 256;
    }
}
