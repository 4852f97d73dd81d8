// The machine (01): registers and generator by value. Every call hands back the next machine beside its answer.
#![tactic(auto)]

pub mod access;
mod checksum;

ghost use Rattle.std.specs.Prelude.{◌≡◌};
ghost use Rattle.machine.specs.Conditions.{SoundMachine};
ghost use Rattle.machine.specs.Rules.{beginning, stored, written, read_refusal, value_at, answered, advanced};

use generator::Generator;
use registers::map::Place;
use registers::{Registers, map};
use signals::Signals;

// As it is: no ghost field says the one condition `Sound`: `write` and the theorems on it speak of any machine; a type that had it would ask more.
#[derive(Clone, Copy)]
pub struct Machine {
    pub regs: Registers,
    pub generator: Generator,
}

// A write's refusal or 0, and the machine after it.
// As it is: `demands/specs/Demand1.antt`, `write` and `write_refused`, speak of the number 0 and of the machine beside a refusal.
#[derive(Clone, Copy)]
pub struct Written {
    pub refusal: u32,
    pub machine: Machine,
}

// A read's refusal or 0, the value, and the machine after it.
// As it is: `demands/specs/Demand1.antt`, `read` and `read_refused`, speak of the number 0 and of value and machine beside a refusal.
#[derive(Clone, Copy)]
pub struct Answered {
    pub refusal: u32,
    pub value: u32,
    pub machine: Machine,
}

// A tick's refusal or 0, what it puts out, and the machine after it.
// As it is: `demands/specs/Demand1.antt`, `tick` and `tick_refused`, speak of the number 0 and of signals and machine beside a refusal.
#[derive(Clone, Copy)]
pub struct Advanced {
    pub refusal: u32,
    pub signals: Signals,
    pub machine: Machine,
}

// The first of 2, 3 and 5 that holds of a read, or 0.
#[tactic(auto, unfolding(crate::specs::Rules::read_refusal))]
fn read_refusal(m: Machine, p: Place) -> u32
    requires { SoundMachine m }
    ensures refusal { result ≡ read_refusal m p }
{
    let regs = m.regs;
    let generator = m.generator;
    let busy = map::is_parameter(p) & control::is_running(regs.control);
    let summing = map::is_checksum(p) & generator::is_displaying(regs, generator);
    let n5 = base::choose(summing, 5, 0);
    let n3 = base::choose(busy, 3, n5);
    base::choose(map::is_reserved(p), 2, n3)
}

// What stands at a place.
#[tactic(auto, unfolding(crate::specs::Rules::value_at))]
fn value_at(m: Machine, p: Place) -> u32
    ensures value { result ≡ value_at m p }
{
    let regs = m.regs;
    let sums = m.generator.sums;
    let word = checksum::checksum_word(map::number_in_row(p), sums);
    base::choose(map::is_checksum(p), word, regs.value(p))
}

impl Machine {
    // All registers at 0, and the generator stopped.
    pub fn beginning() -> Machine
        ensures machine { result ≡ beginning }
    {
        let regs = Registers::zeros();
        let generator = Generator::fresh();
        Machine { regs, generator }
    }

    // The machine after an accepted write.
    #[tactic(auto, unfolding(crate::specs::Rules::stored))]
    fn stored(self, p: Place, value: u32) -> Machine
        ensures machine { result ≡ stored self p value }
    {
        let old = self.regs;
        let starting = map::is_control(p)
            & control::is_running(value)
            & !control::is_running(old.control);
        Machine {
            regs: old.stored(p, value),
            generator: base::choose(starting, Generator::fresh(), self.generator),
        }
    }

    // A register write.
    #[tactic(auto, unfolding(crate::specs::Rules::written))]
    pub fn write(self, address: u32, value: u32) -> Written
        ensures written { result ≡ written self address value }
    {
        let p = map::place_of(address);
        let regs = self.regs;
        let refusal = access::write_refusal(regs, p, value);
        if refusal == 0 {
            let machine = self.stored(p, value);
            return Written { refusal, machine };
        }
        Written {
            refusal,
            machine: self,
        }
    }

    // A register read.
    #[tactic(auto, unfolding(crate::specs::Rules::answered))]
    pub fn read(self, address: u32) -> Answered
        requires { SoundMachine self }
        ensures answered { result ≡ answered self address }
    {
        let p = map::place_of(address);
        let refusal = read_refusal(self, p);
        if refusal == 0 {
            return Answered {
                refusal,
                value: value_at(self, p),
                machine: self,
            };
        }
        Answered {
            refusal,
            value: 0,
            machine: self,
        }
    }

    // One tick, with a picture memory lent.
    #[tactic(auto, unfolding(crate::specs::Rules::advanced))]
    pub fn tick(self, memory: &[u8]) -> Advanced
        requires { SoundMachine self }
        ensures advanced { result ≡ advanced self memory.now }
    {
        let regs = self.regs;
        let before = self.generator;
        let ticked = generator::tick(regs, before, memory);
        let signals = ticked.signals;
        let generator = ticked.next;
        Advanced {
            refusal: ticked.refusal,
            signals,
            machine: Machine { regs, generator },
        }
    }
}
