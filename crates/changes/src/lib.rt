// What a good command does (docs/SCRIPT.md): to the machine, to the memory lent and to the picture.
#![tactic(auto)]

mod lent_memory;

ghost use Rattle.std.specs.Prelude.{◌≡◌, ◌++◌, ◌≤◌, length, take, drop};
ghost use Rattle.generator.specs.Sound.{Sound};
ghost use Rattle.picture.specs.Picture.{buffer_of};
ghost use Rattle.changes.specs.LentMemory.{memory_after};
ghost use Rattle.changes.specs.Changes.{within, write_done, run_done, draw_done, done_of, picture_after};

use machine::Machine;
use script::command::Command;
use script::names;
use script::names::Kind;

// Its refusal or 0, as document 01 numbers it, the ticks that it has run, the bytes of memory lent from then on, and the machine after it.
#[derive(Clone, Copy)]
pub struct Done {
    // As it is: a number, document 01's, beside a machine that stands when it is refused too (`done_of`).
    pub refusal: u32,
    pub ticks: u32,
    pub memory: u32,
    pub machine: Machine,
}

// `write ADDRESS VALUE`.
fn write(m: Machine, lent: u32, address: u32, value: u32) -> Done
    requires { Sound m.regs m.generator }
    ensures done { result ≡ write_done m lent address value }
    ensures sound { Sound result.machine.regs result.machine.generator }
{
    let w = calls::write(m, address, value);
    let machine = w.machine;
    Done {
        refusal: w.refusal,
        ticks: 0,
        memory: lent,
        machine,
    }
}

// `tick COUNT` or `run COUNT`.
// As it is: memory and the count of its bytes that are lent, since the definition done_of speaks of both: a later command lends more of them.
fn run(m: Machine, lent: u32, memory: &[u8], count: u32) -> Done
    requires { Sound m.regs m.generator }
    ensures done { result ≡ run_done m lent (take lent memory.now) count }
    ensures sound { Sound result.machine.regs result.machine.generator }
{
    let ran = calls::run(m, room::lent(memory, lent as usize), count);
    let machine = ran.machine;
    Done {
        refusal: ran.refusal,
        ticks: ran.done,
        memory: lent,
        machine,
    }
}

// A picture into a buffer, with the bytes lent.
fn draw(m: Machine, lent: u32, memory: &[u8], buffer: &mut [u8]) -> Done
    requires { Sound m.regs m.generator }
    ensures done { result ≡ draw_done m lent (take lent memory.now) (length buffer.old) }
    ensures bytes { buffer.new ≡ buffer_of m.regs (take lent memory.now) m.generator buffer.old }
    ensures sound { Sound result.machine.regs result.machine.generator }
{
    let drawn = picture::draw_machine(m, room::lent(memory, lent as usize), buffer);
    let machine = drawn.machine;
    Done {
        refusal: drawn.refusal,
        ticks: 0,
        memory: lent,
        machine,
    }
}

// `picture LENGTH`, into the first bytes of the picture's room.
fn draw_wanted(m: Machine, lent: u32, memory: &[u8], picture: &mut [u8], wanted: u32) -> Done
    requires { Sound m.regs m.generator }
    ensures done { result ≡ draw_done m lent (take lent memory.now) (within wanted (length picture.old)) }
    ensures bytes { picture.new ≡
        buffer_of m.regs (take lent memory.now) m.generator (take (within wanted (length picture.old)) picture.old)
        ++ drop (within wanted (length picture.old)) picture.old }
    ensures sound { Sound result.machine.regs result.machine.generator }
{
    let size = (wanted as usize).min(picture.len());
    draw(m, lent, memory, &mut picture[..size])
}

// A good command: what it does to the machine, the memory and the picture. One that only asks does nothing.
pub fn apply(c: Command, m: Machine, lent: u32, memory: &mut [u8], picture: &mut [u8]) -> Done
    requires { Sound m.regs m.generator }
    ensures done { result ≡ done_of c m lent memory.old (length picture.old) }
    ensures memory { memory.new ≡ memory_after c memory.old }
    ensures picture { picture.new ≡ picture_after c m lent memory.old picture.old }
    ensures sound { Sound result.machine.regs result.machine.generator }
{
    let left = c.left;
    let values = left.values;
    let first = values[0];
    match names::kind_of(c.name) {
        Kind::WritesRegister => write(m, lent, first, values[1]),
        Kind::RunsTicks => run(m, lent, memory, script::ticks_of(c)),
        Kind::DrawsPicture => draw_wanted(m, lent, memory, picture, first),
        Kind::ChangesMemory | Kind::OnlyAsks => {
            let bytes = lent_memory::change(c, memory, lent);
            Done {
                refusal: 0,
                ticks: 0,
                memory: bytes,
                machine: m,
            }
        }
    }
}
