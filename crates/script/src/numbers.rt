// The numbers of a command: how many words its name takes, and each as a number.
ghost use Rattle.std.specs.Prelude.{◌≡◌, ◌≤◌, ◌<◌, get_or};
ghost use Rattle.script.specs.Commands.{sizes};
ghost use Rattle.script.specs.Arguments.{leasts, mosts, plains, argument_of, fault_of, fault_up_to, values_up_to, no_numbers, numbers_of, numbers_for};

use words::number;
use words::number::NumberFault;

// What a name takes: the fewest and the most words, how many of them, from the left, may be any number, and the largest first one. The words
// past those are bytes.
#[derive(Clone, Copy)]
pub(crate) struct Takes {
    least: usize,
    most: usize,
    plain: usize,
    pub(crate) size: u32,
}

const ANY: u32 = 0xFFFFFFFF;

const TAKES: [Takes; 13] = [
    // `write`
    Takes {
        least: 2,
        most: 2,
        plain: 2,
        size: ANY,
    },
    // `read`
    Takes {
        least: 1,
        most: 1,
        plain: 1,
        size: ANY,
    },
    // `memory`
    Takes {
        least: 1,
        most: 1,
        plain: 1,
        size: 1048576,
    },
    // `poke`
    Takes {
        least: 2,
        most: 65,
        plain: 1,
        size: ANY,
    },
    // `fill`
    Takes {
        least: 4,
        most: 4,
        plain: 4,
        size: ANY,
    },
    // `tick`
    Takes {
        least: 0,
        most: 1,
        plain: 1,
        size: ANY,
    },
    // `run`
    Takes {
        least: 1,
        most: 1,
        plain: 1,
        size: ANY,
    },
    // `picture`
    Takes {
        least: 1,
        most: 1,
        plain: 1,
        size: 3145728,
    },
    // `nine`
    Takes {
        least: 0,
        most: 0,
        plain: 0,
        size: ANY,
    },
    // `sheet`
    Takes {
        least: 0,
        most: 80,
        plain: 0,
        size: ANY,
    },
    // `field`
    Takes {
        least: 1,
        most: 81,
        plain: 1,
        size: ANY,
    },
    // `store`
    Takes {
        least: 15,
        most: 15,
        plain: 15,
        size: 80,
    },
    // `compare`
    Takes {
        least: 0,
        most: 16,
        plain: 0,
        size: ANY,
    },
];

// What a name takes; what is no name takes nothing.
pub(crate) fn takes_of(name: u32) -> Takes
    ensures least { result.least ≡ get_or leasts name 0 }
    ensures most { result.most ≡ get_or mosts name 0 }
    ensures bound { result.most ≤ 81 }
    ensures plain { result.plain ≡ get_or plains name 0 }
    ensures size { name < 12 → result.size ≡ get_or sizes name 0 }
{
    if name < 13 {
        return TAKES[name as usize];
    }
    Takes {
        least: 0,
        most: 0,
        plain: 0,
        size: 0,
    }
}

// The numbers of a command: a fault or 0, how many there are, and their values, 0 past them.
// As it is: the values before a fault are answered with it (`line_command`), and no heap holds a list of as many as there are.
#[derive(Clone, Copy)]
pub struct Numbers {
    pub fault: u32,
    pub count: usize,
    pub values: [u32; 81],
}

// Word k as a number: one past the first `plain` is a byte.
fn argument_of(word: &[u8], k: usize, plain: usize) -> Result<u32, NumberFault>
    ensures number { result ≡ argument_of plain k word.now }
{
    let n = number::number_of(word)?;
    if (plain <= k) & (255 < n) {
        return Err(NumberFault::TooLarge);
    }
    Ok(n)
}

// A number's fault as a line's, or 0.
// As it is: no plainer; a line's fault is a number in `Command`, 0 for none, and a `From` of a Result needs the same match.
fn fault_of(n: Result<u32, NumberFault>) -> u32
    ensures fault { result ≡ fault_of n }
{
    match n {
        Ok(_) => 0,
        Err(NumberFault::NotANumber) => 4,
        Err(NumberFault::TooLarge) => 5,
    }
}

// The first `count` words as numbers.
fn values_of(rest: &[u8], count: usize, plain: usize) -> Numbers
    requires { count ≤ 81 }
    ensures fault { result.fault ≡ fault_up_to plain rest.now count }
    ensures count { result.count ≡ count }
    ensures values { result.values ≡ values_up_to plain rest.now count }
{
    let mut values = [0u32; 81];
    let mut fault: u32 = 0;
    let mut at: usize = 0;
    for k in 0..count {
        let w = words::word_after(rest, at);
        let from = w.from;
        let to = w.to;
        let n = argument_of(&rest[from..to], k, plain);
        fault = base::choose(fault == 0, fault_of(n), fault);
        values[k] = n.unwrap_or(0);
        at = to;
    }
    Numbers {
        fault,
        count,
        values,
    }
}

// No numbers, with a fault or with none.
pub fn no_numbers(fault: u32) -> Numbers
    ensures numbers { result ≡ no_numbers fault }
{
    Numbers {
        fault,
        count: 0,
        values: [0; 81],
    }
}

// The numbers of what is left of a line: the count of words first, then each from left to right.
fn numbers_of(rest: &[u8], least: usize, most: usize, plain: usize) -> Numbers
    requires { most ≤ 81 }
    ensures numbers { result ≡ numbers_of least most plain rest.now }
    ensures bound { result.count ≤ 81 }
{
    let count = words::count_words(rest);
    if count < least {
        return no_numbers(2);
    }
    if most < count {
        return no_numbers(3);
    }
    values_of(rest, count, plain)
}

// The numbers that a name takes; what is no name takes none.
pub fn numbers_for(name: u32, rest: &[u8]) -> Numbers
    ensures numbers { result ≡ numbers_for name rest.now }
    ensures bound { result.count ≤ 81 }
{
    let takes = takes_of(name);
    numbers_of(rest, takes.least, takes.most, takes.plain)
}
