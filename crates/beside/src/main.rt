// Two screens ticked twice side by side, with the generator lent and by value: the bench screen with the sixteen bytes that a frame shows, with
// one byte less, and stopped; then an interlaced one. Prints for each how many calls were accepted and at how many the two differed.
#![tactic(auto)]

ghost use Rattle.std.specs.Prelude.{◌+◌, ◌<◌, ◌≡◌, length};
ghost use Rattle.generator.specs.Tick.{tick_of};
ghost use Rattle.generator.specs.Sound.{Sound};

use generator::{Generator, Ticked};
use machine::Machine;
use registers::Registers;

// A frame of the interlaced screen and ten ticks.
const CALLS: u64 = 108;

// Control A at 8 bits, increment 1, transfers on, cursor off: running and stopped; and interlaced, increment 2, running.
const RUNNING: u32 = 0xB00001;

const STOPPED: u32 = 0xB00000;

const INTERLACED: u32 = 0xB01003;

// One tick with the record lent, answered as the tick by value is.
fn lent_tick(r: Registers, mut g: Generator, memory: &[u8]) -> Ticked
    requires { Sound r g }
    ensures ticked { result ≡ tick_of r memory.now g }
{
    let answer = lent::advance(&mut g, r, memory);
    Ticked {
        refusal: answer.refusal,
        signals: answer.signals,
        next: g,
    }
}

// Two answers to one call are the same, and a refused call leaves the record before it.
fn same(before: Generator, a: Ticked, b: Ticked) -> bool {
    (a == b) & ((a.refusal == 0) | (a.next == before))
}

// A write that fails is not told of.
fn say(out: &impl Print, name: &str, accepted: u64, unlike: u64) {
    let _ = println!(out; "{name}: {CALLS} calls, {accepted} accepted, {unlike} unlike");
}

// Ticks both ways from one record, and says how it went.
#[tactic(auto, using(generator::proofs::Kept::tick_sound))]
fn run(out: &impl Print, name: &str, r: Registers, g: Generator, memory: &[u8])
    requires { Sound r g }
{
    let mut lent = g;
    let mut kept = g;
    let mut accepted: u64 = 0;
    let mut unlike: u64 = 0;
    for _ in 0..CALLS {
        let one = lent_tick(r, lent, memory);
        let other = generator::tick(r, kept, memory);
        accepted += (one.refusal == 0) as u64;
        unlike += !same(lent, one, other) as u64;
        lent = one.next;
        kept = other.next;
    }
    say(out, name, accepted, unlike);
}

#[tactic(auto, using(machine::proofs::Soundness::write_sound))]
fn write(m: Machine, address: u32, value: u32) -> Machine
    requires { Sound m.regs m.generator }
    ensures sound { Sound result.regs result.generator }
{
    let w = m.write(address, value);
    w.machine
}

// Registers written from an address on, one after the other.
fn writes(before: Machine, address: u32, values: &[u32]) -> Machine
    requires sound { Sound before.regs before.generator }
    requires fits { address + length values.now < 4096 }
    ensures sound { Sound result.regs result.generator }
{
    let mut m = before;
    for (k, value) in values.iter().enumerate() {
        m = write(m, address + k as u32, *value);
    }
    m
}

// A screen from the beginning, with sixteen colours and a full mask, under a control word.
#[tactic(auto, using(machine::proofs::Soundness::beginning_sound))]
fn started(screen: [u32; 14], control: u32) -> Machine
    ensures sound { Sound result.regs result.generator }
{
    let colours: [u32; 16] = [
        0x400000, 0x410203, 0x420406, 0x430609, 0x44080C, 0x450A0F, 0x460C12, 0x470E15, 0x481018,
        0x49121B, 0x4A141E, 0x4B1621, 0x4C1824, 0x4D1A27, 0x4E1C2A, 0x4F1E2D,
    ];
    let begun = Machine::beginning();
    let set = writes(begun, 0x021, &screen);
    let coloured = writes(set, 0x100, &colours);
    let masked = write(coloured, 0x040, 0xFFFFFF);
    write(masked, 0x060, control)
}

fn main(rt: HostRuntime) {
    let memory: [u8; 16] = [15, 14, 13, 12, 11, 10, 9, 8, 7, 6, 5, 4, 3, 2, 1, 0];
    let m = started([1, 3, 2, 1, 4, 1, 1, 1, 2, 4, 14, 0, 1, 1], RUNNING);
    run(&rt, "16 bytes", m.regs, m.generator, &memory);
    run(&rt, "15 bytes", m.regs, m.generator, &memory[..15]);
    let stopped = write(m, 0x060, STOPPED);
    run(&rt, "stopped", stopped.regs, stopped.generator, &memory);
    // as many bytes as its two fields reach
    let longer = [9u8; 88];
    let laced = started([1, 3, 6, 1, 4, 1, 1, 1, 1, 3, 14, 0, 2, 1], INTERLACED);
    run(&rt, "interlaced", laced.regs, laced.generator, &longer);
}
