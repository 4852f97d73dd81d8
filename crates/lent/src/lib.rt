// One tick with the generator lent: a call advances the record that its caller keeps.
#![tactic(auto)]

ghost use Rattle.std.specs.Prelude.{◌≡◌};
ghost use Rattle.generator.specs.Tick.{tick_of};
ghost use Rattle.generator.specs.Sound.{Sound};
ghost use Rattle.lent.specs.Lent.{answer_of};

use generator::Generator;
use registers::Registers;
use signals::Signals;

// A tick's refusal or 0, and what it puts out.
// As it is: `lent/specs/Lent.antt`, `answer_of`, speaks of the number 0, and of silence beside a refusal.
#[derive(Clone, Copy)]
pub struct Answer {
    pub refusal: u32,
    pub signals: Signals,
}

// One tick, lent: the record is then the generator after it. A refused tick leaves it as it was.
pub fn advance(g: &mut Generator, r: Registers, memory: &[u8]) -> Answer
    requires { Sound r g.old }
    ensures answer { result ≡ answer_of (tick_of r memory.now g.old) }
    ensures lent { g.new ≡ (tick_of r memory.now g.old).next }
{
    let ticked = generator::tick(r, *g, memory);
    *g = ticked.next;
    Answer {
        refusal: ticked.refusal,
        signals: ticked.signals,
    }
}
