// What `memory`, `poke` and `fill` leave in the memory lent.
ghost use Rattle.std.specs.Prelude.{◌≡◌, length, get_or};
ghost use Rattle.room.specs.Room.{put_text};
ghost use Rattle.room.specs.Bytes.{fill_memory, poke_bytes};
ghost use Rattle.changes.specs.LentMemory.{memory_after, lent_after};

use room::bytes::bytes_of;
use room::{bytes, lent};
use script::command::Command;
use script::names;

// `fill`, by its numbers.
fn filled(memory: &mut [u8], values: [u32; 81])
    ensures bytes { memory.new ≡ fill_memory memory.old (get_or values 0 0) (get_or values 1 0) (get_or values 2 0) (get_or values 3 0) }
    ensures room { length memory.new ≡ length memory.old }
{
    let at = values[0] as usize;
    let count = values[1] as usize;
    bytes::fill(memory, at, count, values[2], values[3]);
}

// `poke`, by its numbers.
fn poked(memory: &mut [u8], values: [u32; 81], count: usize)
    ensures bytes { memory.new ≡ put_text memory.old (get_or values 0 0) (poke_bytes values count) }
    ensures room { length memory.new ≡ length memory.old }
{
    let bytes = bytes_of(&values, 1);
    let at = values[0] as usize;
    let many = count.saturating_sub(1);
    room::put(memory, at, lent(&bytes, many));
}

// `memory`, `poke` and `fill`: the bytes after it, and how many are lent from now on.
pub fn change(c: Command, memory: &mut [u8], before: u32) -> u32
    ensures room { length memory.new ≡ length memory.old }
    ensures lent { result ≡ lent_after c before }
    ensures bytes { memory.new ≡ memory_after c memory.old }
{
    let left = c.left;
    let values = left.values;
    let first = values[0];
    match c.name {
        names::MEMORY => {
            bytes::fill(memory, 0, first as usize, 0, 0);
            first
        }
        names::POKE => {
            poked(memory, values, left.count);
            before
        }
        names::FILL => {
            filled(memory, values);
            before
        }
        _ => before,
    }
}
