// The thirteen names of a script's commands (docs/SCRIPT.md), and what a command of each does.
ghost use Rattle.std.specs.Prelude.{◌≡◌, ◌≤◌};
ghost use Rattle.script.specs.Names.{name_of, kind_of};

// The names, in docs/SCRIPT.md's order.
// As it is: numbers, since `kind_of`, and with a `Command` `changes::apply`, `questions::answer` and `ticks_of`, take any name's number.
pub const WRITE: u32 = 0;

pub const READ: u32 = 1;

pub const MEMORY: u32 = 2;

pub const POKE: u32 = 3;

pub const FILL: u32 = 4;

pub const TICK: u32 = 5;

pub const RUN: u32 = 6;

pub const PICTURE: u32 = 7;

pub const NINE: u32 = 8;

pub const SHEET: u32 = 9;

pub const FIELD: u32 = 10;

pub const STORE: u32 = 11;

pub const COMPARE: u32 = 12;

pub const UNKNOWN: u32 = 13;

// What a command does.
#[derive(Clone, Copy, PartialEq, Eq)]
pub enum Kind {
    WritesRegister,
    ChangesMemory,
    RunsTicks,
    DrawsPicture,
    OnlyAsks,
}

// What a command of a name does; what is no name only asks.
pub fn kind_of(name: u32) -> Kind
    ensures kind { result ≡ kind_of name }
{
    match name {
        WRITE => Kind::WritesRegister,
        MEMORY | POKE | FILL => Kind::ChangesMemory,
        TICK | RUN => Kind::RunsTicks,
        PICTURE => Kind::DrawsPicture,
        _ => Kind::OnlyAsks,
    }
}

// The names' words, in their order.
const WORDS: [&[u8]; 13] = [
    b"write", b"read", b"memory", b"poke", b"fill", b"tick", b"run", b"picture", b"nine", b"sheet",
    b"field", b"store", b"compare",
];

// A word's name: its place among the words.
pub fn name_of(word: &[u8]) -> u32
    ensures name { result ≡ name_of word.now }
    ensures bound { result ≤ 13 }
{
    WORDS
        .iter()
        .position(|name| word == *name)
        .map_or(UNKNOWN, |place| place as u32)
}
