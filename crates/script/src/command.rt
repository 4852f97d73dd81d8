// A line as a command: its name, its numbers and its first fault.
ghost use Rattle.std.specs.Prelude.{◌≡◌, ◌≤◌, ◌<◌};
ghost use Rattle.script.specs.Commands.{compare_of, rest_fault, plain_of, command_of, faulty as Commands·faulty};

use crate::numbers::Numbers;
use crate::{names, numbers};
use words::slash;

// A command: its name, a fault or 0, its numbers, and for `compare` those of the right side.
// As it is: the fault stands beside the rest, since `line_command` says of a line at fault its name and numbers too; `report::fault` takes any.
#[derive(Clone, Copy)]
pub struct Command {
    pub name: u32,
    pub fault: u32,
    pub left: Numbers,
    pub right: Numbers,
}

// A command with a fault and no numbers.
pub(crate) fn faulty(name: u32, fault: u32) -> Command
    ensures command { result ≡ Commands·faulty name fault }
{
    let none = numbers::no_numbers(0);
    Command {
        name,
        fault,
        left: none,
        right: none,
    }
}

// A `compare`: the left side and then the right.
fn compare_of(rest: &[u8]) -> Command
    ensures command { result ≡ compare_of rest.now }
{
    let slash = slash::slash_at(rest);
    if slash < rest.len() {
        let past = slash + 1;
        let left = numbers::numbers_for(names::COMPARE, &rest[..slash]);
        let right = numbers::numbers_for(names::COMPARE, &rest[past..]);
        let fault = base::choose(left.fault == 0, right.fault, left.fault);
        return Command {
            name: names::COMPARE,
            fault,
            left,
            right,
        };
    }
    faulty(names::COMPARE, 2)
}

// What is checked last: sizes, and the memory's end.
fn rest_fault(name: u32, first: u32, second: u32, count: usize, memory: u32) -> u32
    requires { (name < 12) × (count ≤ 81) }
    ensures fault { result ≡ rest_fault name first second count memory }
{
    let takes = numbers::takes_of(name);
    let poked = first as u64 + count as u64;
    let filled = first as u64 + second as u64;
    let lent = memory as u64;
    let beyond = ((name == names::POKE) & (lent + 1 < poked))
        | ((name == names::FILL) & (lent < filled));
    base::choose(takes.size < first, 7, base::choose(beyond, 6, 0))
}

// Any other command: its numbers, then the rest.
fn plain_of(name: u32, rest: &[u8], memory: u32) -> Command
    requires { name < 12 }
    ensures command { result ≡ plain_of name rest.now memory }
{
    let left = numbers::numbers_for(name, rest);
    let values = left.values;
    let later = rest_fault(name, values[0], values[1], left.count, memory);
    let fault = base::choose(left.fault == 0, later, left.fault);
    Command {
        name,
        fault,
        left,
        right: numbers::no_numbers(0),
    }
}

// The command of a line, with the length of the memory lent.
pub fn command_of(line: &[u8], memory: u32) -> Command
    ensures command { result ≡ command_of line.now memory }
{
    let word = words::word_after(line, 0);
    let from = word.from;
    let to = word.to;
    let name = names::name_of(&line[from..to]);
    match name {
        names::UNKNOWN => faulty(names::UNKNOWN, 1),
        names::COMPARE => compare_of(&line[to..]),
        _ => plain_of(name, &line[to..], memory),
    }
}
