// The lines of a bench script (docs/SCRIPT.md): those that answer nothing, and the command of any other.
#![tactic(auto)]

pub mod command;
pub mod names;
mod numbers;

ghost use Rattle.std.specs.Prelude.{◌≡◌};
ghost use Rattle.script.specs.Script.{skipped, line_command, ticks_of};

use crate::command::Command;
use crate::names::UNKNOWN;

// A line that answers nothing: empty, or a remark.
pub fn is_skipped(line: &[u8]) -> bool
    ensures test { result ≡ skipped line.now }
{
    if line.len() == 0 {
        return true;
    }
    (line.len() <= 1000) & (line[0] == b';')
}

// The command of a line of any length: one of more than 1,000 bytes is too long, whatever it holds.
pub fn line_command(line: &[u8], memory: u32) -> Command
    ensures command { result ≡ line_command line.now memory }
{
    if 1000 < line.len() {
        return command::faulty(UNKNOWN, 8);
    }
    command::command_of(line, memory)
}

// The ticks that `tick` or `run` asks for: `tick` alone is one.
pub fn ticks_of(c: Command) -> u32
    ensures ticks { result ≡ ticks_of c }
{
    let left = c.left;
    let values = left.values;
    base::choose(left.count == 0, 1, values[0])
}
