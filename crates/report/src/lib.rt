// What is shown of a script, in each of the three forms that the programs write.
#![tactic(auto)]

mod notes;
pub mod phrases;
mod ticks;

ghost use Rattle.std.specs.Prelude.{◌≡◌};
ghost use Rattle.room.specs.Room.{put_texts, put_ends};
ghost use Rattle.report.specs.Notes.{refused_texts, fault_texts};
ghost use Rattle.report.specs.Pages.{blank_page, turned, spaced, next_line, counted, verdict_texts, step_texts};

use signals::Signals;
use std::io::Write;

// The form; the lines read; the bytes that wait to be written; the ticks so far and what the last one put out; the last picture's size, 0
// before one, and the pixels of a line's first half where it is interlaced.
#[derive(Clone, Copy)]
pub struct Page {
    // As it is: a number. `blank_page`, `session::session` and each function of a `Page` take any, and an enum would take three.
    pub form: u32,
    pub lines: u64,
    pub waiting: usize,
    pub ticks: u64,
    pub last: Signals,
    pub width: u64,
    pub height: u64,
    pub half: u64,
}

// Before a script's first line.
pub fn blank_page(form: u32) -> Page
    ensures page { result ≡ blank_page form }
{
    let last = signals::silence();
    Page {
        form,
        lines: 0,
        waiting: 0,
        ticks: 0,
        last,
        width: 0,
        height: 0,
        half: 0,
    }
}

// The page with other bytes waiting.
pub fn turn(p: Page, waiting: usize) -> Page
    ensures page { result ≡ turned p waiting }
{
    Page { waiting, ..p }
}

// The page after one tick more.
fn count(p: Page, waiting: usize, s: Signals) -> Page
    ensures page { result ≡ counted p waiting s }
{
    Page {
        waiting,
        ticks: input::one_more(p.ticks),
        last: s,
        ..p
    }
}

// Writes what waits. A write that fails is not told of.
// As it is: page, out and said go apart, here and above: two are lent at once, and of a struct that lends two of its fields no proof is made yet.
pub fn write<W: Write>(p: Page, out: &[u8], said: &mut W) -> Page
    ensures page { result ≡ turned p 0 }
{
    let _ = said.write_all(room::lent(out, p.waiting));
    turn(p, 0)
}

// Writes what waits where the room for more is short.
pub fn space<W: Write>(p: Page, out: &[u8], said: &mut W) -> Page
    ensures page { result ≡ turned p (spaced p) }
{
    if p.waiting < 32768 {
        return turn(p, p.waiting);
    }
    write(p, out, said)
}

// The page at the next line of the script.
pub fn next_line<W: Write>(p: Page, out: &[u8], said: &mut W) -> Page
    ensures page { result ≡ next_line p }
{
    Page {
        lines: input::one_more(p.lines),
        ..space(p, out, said)
    }
}

// A refusal.
// As it is: refusals and faults here are numbers, since `refuse`, `fault` and `verdict` take any; a refusal's is document 01's.
pub fn refuse(p: Page, out: &mut [u8], refusal: u32) -> Page
    ensures page { result ≡ turned p (put_ends out.old p.waiting (refused_texts p.form p.lines refusal)) }
    ensures bytes { out.new ≡ put_texts out.old p.waiting (refused_texts p.form p.lines refusal) }
{
    let end = notes::put_refused(out, p.waiting, p.form, p.lines, refusal);
    turn(p, end)
}

// A fault of a line.
pub fn fault(p: Page, out: &mut [u8], fault: u32) -> Page
    ensures page { result ≡ turned p (put_ends out.old p.waiting (fault_texts p.form p.lines fault)) }
    ensures bytes { out.new ≡ put_texts out.old p.waiting (fault_texts p.form p.lines fault) }
{
    let end = notes::put_fault(out, p.waiting, p.form, p.lines, fault);
    turn(p, end)
}

// A command that answers nothing but `ok`, or a refusal.
pub fn verdict(p: Page, out: &mut [u8], refusal: u32) -> Page
    ensures page { result ≡ turned p (put_ends out.old p.waiting (verdict_texts p.form p.lines refusal)) }
    ensures bytes { out.new ≡ put_texts out.old p.waiting (verdict_texts p.form p.lines refusal) }
{
    if refusal != 0 {
        return refuse(p, out, refusal);
    }
    if p.form == ANSWERS {
        let end = room::put(out, p.waiting, b"ok\n");
        return turn(p, end);
    }
    turn(p, p.waiting)
}

// A tick.
pub fn tick(p: Page, out: &mut [u8], s: Signals) -> Page
    ensures page { result ≡ counted p (put_ends out.old p.waiting (step_texts p s)) s }
    ensures bytes { out.new ≡ put_texts out.old p.waiting (step_texts p s) }
{
    let last = p.last;
    match p.form {
        ANSWERS => {
            let end = ticks::put_tick(out, p.waiting, s);
            count(p, end, s)
        }
        WAVE => {
            let end = waveform::put_tick(out, p.waiting, p.ticks == 0, p.ticks, last, s);
            count(p, end, s)
        }
        _ => count(p, p.waiting, s),
    }
}

// The forms: an answer to each command, a waveform of the ticks, the last picture, which every number beyond stands for too.
pub const ANSWERS: u32 = 0;

pub const WAVE: u32 = 1;

pub const PICTURE: u32 = 2;
