// A whole picture of the machine: the generator's, the registers as they were.
ghost use Rattle.std.specs.Prelude.{◌≡◌, length};
ghost use Rattle.generator.specs.Sound.{Sound};
ghost use Rattle.picture.specs.Picture.{buffer_of};
ghost use Rattle.picture.specs.Machines.{pictured};

use machine::Machine;

// The refusal, or 0, and the machine after the picture.
// As it is: the demands speak of the refusal by its number, `demands/specs/Demand1.antt:Demand1`, its `picture` and `picture_refused`.
#[derive(Clone, Copy)]
pub struct Pictured {
    pub refusal: u32,
    pub machine: Machine,
}

// The picture of the frame that begins with the machine's next tick. A refusal leaves buffer and machine as they were.
#[tactic(auto, unfolding(crate::specs::Machines::pictured))]
pub fn draw_machine(m: Machine, memory: &[u8], buffer: &mut [u8]) -> Pictured
    requires { Sound m.regs m.generator }
    ensures whole { result ≡ pictured m memory.now (length buffer.old) }
    ensures bytes { buffer.new ≡ buffer_of m.regs memory.now m.generator buffer.old }
{
    let regs = m.regs;
    let before = m.generator;
    let drawn = crate::draw(regs, before, memory, buffer);
    let generator = drawn.next;
    Pictured {
        refusal: drawn.refusal,
        machine: Machine { regs, generator },
    }
}
