// Reads a patient's thresholds on standard input and writes the bench script that draws their chart, in today's rooms or, asked by the word
// `interlaced`, in the oldest; a wrong line is named on standard error.
#![tactic(auto)]

use input::{LINE, PIECE};
use patient::Fault;
use patient::thresholds::{self, Chart};
use scribe::{ending, pokes, settings};
use std::env::FillError;
use std::io::{Read, Write};
use std::rt::Env;

// The chart read so far or what is wrong with the last line read, and how many lines were read.
#[derive(Clone, Copy)]
struct Desk {
    chart: Result<Chart, Fault>,
    lines: u64,
}

// The picture memory of a chart, in any room.
fn picture_room() -> [u8; 77824] {
    [0; 77824]
}

// Writes what waits. A write that fails is not told of.
// As it is: script, out and waiting go side by side: tried as a struct, which lends two of its fields at once, and no proof is made for that yet.
fn write_out<W: Write>(script: &mut W, out: &[u8], waiting: usize) -> usize {
    let _ = script.write_all(room::lent(out, waiting));
    0
}

// Writes what waits where the room for another line is short.
fn spaced<W: Write>(script: &mut W, out: &[u8], waiting: usize) -> usize {
    if waiting < 65000 {
        return waiting;
    }
    write_out(script, out, waiting)
}

// The line that pokes a part of the memory; none for a part with nothing on it.
fn poke<W: Write>(script: &mut W, out: &mut [u8], waiting: usize, part: &[u8], at: u32) -> usize {
    if part.iter().all(|byte| *byte == 0) {
        return waiting;
    }
    let room = spaced(script, out, waiting);
    pokes::put_poke(out, room, at, part)
}

// The picture memory, 64 bytes a line.
fn pokes<W: Write>(script: &mut W, out: &mut [u8], at: usize, memory: &[u8]) -> usize {
    let mut waiting = at;
    let mut from: usize = 0;
    for part in memory.chunks(64) {
        waiting = poke(script, out, waiting, part, (from % 0x1000000) as u32);
        from = room::later(from, 64, memory.len());
    }
    waiting
}

// The whole script: the registers and the palette, the memory and its pokes, the start, a frame's ticks, the picture and the checksums.
fn script_for<W: Write>(script: &mut W, chart: Chart, interlaced: bool, out: &mut [u8]) {
    let mut memory = picture_room();
    let size = audiogram::size_of(interlaced);
    audiogram::draw(chart, interlaced, &mut memory);
    let set = settings::put_settings(out, 0, interlaced);
    let lent = ending::put_memory(out, set, interlaced);
    let poked = pokes(script, out, lent, room::lent(&memory, size));
    let room = spaced(script, out, poked);
    let started = settings::put_start(out, room, interlaced);
    let end = ending::put_end(out, started, interlaced);
    write_out(script, out, end);
}

// What is wrong with a line, in words.
// As it is: bytes, which are put into the lent room; a Display would have to be written into it first, and is no plainer.
fn phrase(fault: Fault) -> &'static [u8] {
    match fault {
        Fault::UnknownFrequency => b"unknown frequency\n",
        Fault::GivenTwice => b"frequency given twice\n",
        Fault::MissingEar => b"missing ear\n",
        Fault::TooManyWords => b"too many words\n",
        Fault::NotALevel => b"level not a number\n",
        Fault::OutOfRange => b"level out of range, -10 to 120\n",
        Fault::NotAStep => b"level not a step of 5\n",
        Fault::TooLong | Fault::Other(_) => b"line too long\n",
    }
}

// `line N: what is wrong`.
fn complain<W: Write>(said: &mut W, lines: u64, fault: Fault, out: &mut [u8]) {
    let word = room::put(out, 0, b"line ");
    let number = text::put_decimal(out, word, lines);
    let colon = room::put(out, number, b": ");
    let end = room::put(out, colon, phrase(fault));
    write_out(said, out, end);
}

// A whole line; after a wrong one no other is read.
fn line_read(desk: Desk, line: &[u8]) -> Desk {
    match desk.chart {
        Ok(chart) => Desk {
            chart: patient::read_line(chart, line),
            lines: input::one_more(desk.lines),
        },
        Err(_) => desk,
    }
}

// The whole input.
fn read_all<R: Read>(input: &mut R) -> Desk {
    let mut piece = [0u8; PIECE];
    let mut line = [0u8; LINE];
    let mut desk = Desk {
        chart: Ok(thresholds::fresh()),
        lines: 0,
    };
    let mut reader = input::begin();
    // As it is: no index: the clause `fewer` of `next` ends it. `session` does another thing with a line, and keeps another desk.
    while 0 < reader.turns {
        reader = input::next(input, reader, &mut piece, &mut line);
        if input::is_line(reader) {
            desk = line_read(desk, input::line_of(reader, &line));
        }
    }
    desk
}

// Whether the program was given a word of that number; its own name is word 0.
fn is_given(env: &impl Env, number: usize) -> bool {
    match env.arg(number, &mut [0u8; 16]) {
        Err(FillError::NotPresent) => false,
        Err(FillError::TooLong) | Ok(_) => true,
    }
}

// Whether the room that the program's words ask for is interlaced: today's by none, the oldest by `interlaced` alone, and no room by any other.
fn asked_room(env: &impl Env) -> Option<bool> {
    let mut word = [0u8; 16];
    match env.arg(1, &mut word) {
        Err(FillError::NotPresent) => Some(false),
        Ok(length) if check::same(room::lent(&word, length), b"interlaced") & !is_given(env, 2) =>
            Some(true),
        Err(FillError::TooLong) | Ok(_) => None,
    }
}

fn main(rt: HostRuntime) {
    let mut out = [0u8; 65536];
    let Some(interlaced) = asked_room(&rt) else {
        let _ = rt.stderr().write_all(
            b"chart: no such room; usage: chart < PATIENT, or chart interlaced < PATIENT\n",
        );
        return;
    };
    let desk = read_all(&mut rt.stdin());
    match desk.chart {
        Ok(chart) => script_for(&mut rt.stdout(), chart, interlaced, &mut out),
        Err(fault) => complain(&mut rt.stderr(), desk.lines, fault, &mut out),
    }
}
