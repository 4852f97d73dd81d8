// The commands that only ask: in answers what they found is shown, elsewhere nothing unless they are refused.
#![tactic(auto)]

ghost use Rattle.std.specs.Prelude.{◌≡◌, length, take};
ghost use Rattle.generator.specs.Sound.{Sound};
ghost use Rattle.room.specs.Room.{put_texts, put_ends};
ghost use Rattle.machine.specs.Rules.{answered};
ghost use Rattle.calls.specs.Nine.{nine_of};
ghost use Rattle.questions.specs.Questions.{read_texts, nine_texts, sheet_asked, sheet_texts, field_asked, field_texts, compare_asked, compare_texts, find_refusal, find_texts};
ghost use Rattle.questions.specs.Answers.{is_brief, rows_shown, bytes_shown, answer_shown};
ghost use Rattle.paperwork.specs.Store.{stored_of};

use machine::Machine;
use paperwork::store;
use report::{ANSWERS, Page, phrases};
use script::command::Command;
use script::names;
use std::io::Write;
use text::rows;

// What a command has found: its refusal or 0, and the place past its answer. Where only a verdict is due, that is put over it.
// As it is: the refusal is document 01's number, and the answer stands beside it, since a verdict is put over what a refused one has put.
#[derive(Clone, Copy)]
struct Finding {
    refusal: u32,
    end: usize,
}

// Only a verdict is due.
fn is_brief(p: Page, refusal: u32) -> bool
    ensures brief { result ≡ is_brief p refusal }
{
    (refusal != 0) | (p.form != ANSWERS)
}

// Bytes in hexadecimal, 32 a line.
fn rows<W: Write>(p: Page, out: &mut [u8], said: &mut W, bytes: &[u8]) -> Page
    ensures page { result ≡ (rows_shown p out.old bytes.now).page }
    ensures bytes { out.new ≡ (rows_shown p out.old bytes.now).bytes }
{
    let mut page = p;
    for row in bytes.chunks(32) {
        page = report::space(page, out, said);
        let end = rows::put_row(out, page.waiting, row);
        page = report::turn(page, end);
    }
    page
}

// Bytes that were asked for, or a refusal.
pub fn show_bytes<W: Write>(
    p: Page,
    out: &mut [u8],
    said: &mut W,
    refusal: u32,
    bytes: &[u8],
) -> Page
    ensures room { length out.new ≡ length out.old }
    ensures page { result ≡ (bytes_shown p out.old refusal bytes.now).page }
    ensures bytes { out.new ≡ (bytes_shown p out.old refusal bytes.now).bytes }
{
    let page = report::verdict(p, out, refusal);
    if is_brief(p, refusal) {
        return page;
    }
    rows(page, out, said, bytes)
}

// `read ADDRESS`.
fn read(at: usize, m: Machine, out: &mut [u8], address: u32) -> Finding
    requires { Sound m.regs m.generator }
    ensures refusal { result.refusal ≡ (answered m address).refusal }
    ensures place { result.end ≡ put_ends out.old at (read_texts m address) }
    ensures bytes { out.new ≡ put_texts out.old at (read_texts m address) }
{
    let answer = m.read(address);
    let value = text::put_hex(out, at, answer.value);
    let end = room::put(out, value, b"\n");
    Finding {
        refusal: answer.refusal,
        end,
    }
}

// `nine`.
fn nine(at: usize, m: Machine, out: &mut [u8]) -> Finding
    requires { Sound m.regs m.generator }
    ensures refusal { result.refusal ≡ (nine_of m).refusal }
    ensures place { result.end ≡ put_ends out.old at (nine_texts m) }
    ensures bytes { out.new ≡ put_texts out.old at (nine_texts m) }
{
    let sums = calls::nine(m);
    let words = sums.words;
    let low = text::put_hex(out, at, words[0]);
    let middle = phrases::put_colour(out, low, words[1]);
    let high = phrases::put_colour(out, middle, words[2]);
    let end = room::put(out, high, b"\n");
    Finding {
        refusal: sums.refusal,
        end,
    }
}

// `sheet BYTE...`.
fn sheet(at: usize, c: Command, out: &mut [u8]) -> Finding
    ensures refusal { result.refusal ≡ (sheet_asked c).refusal }
    ensures place { result.end ≡ put_ends out.old at (sheet_texts c) }
    ensures bytes { out.new ≡ put_texts out.old at (sheet_texts c) }
{
    let sheet = paperwork::sheet_of(c);
    let values = sheet.values;
    let ok = room::put(out, at, b"ok");
    let end = rows::put_values(out, ok, &values);
    Finding {
        refusal: sheet.refusal,
        end,
    }
}

// `field TAG BYTE...`.
fn field(at: usize, c: Command, out: &mut [u8]) -> Finding
    ensures refusal { result.refusal ≡ (field_asked c).refusal }
    ensures place { result.end ≡ put_ends out.old at (field_texts c) }
    ensures bytes { out.new ≡ put_texts out.old at (field_texts c) }
{
    let answer = paperwork::field_of(c);
    let end = text::put_count(out, at, b"", answer.value as u64);
    Finding {
        refusal: answer.refusal,
        end,
    }
}

// `compare BYTE... / BYTE...`.
fn compare(at: usize, c: Command, out: &mut [u8]) -> Finding
    ensures refusal { result.refusal ≡ (compare_asked c).refusal }
    ensures place { result.end ≡ put_ends out.old at (compare_texts c) }
    ensures bytes { out.new ≡ put_texts out.old at (compare_texts c) }
{
    let comparison = paperwork::comparison_of(c);
    let end = room::put_either(out, at, comparison.equal, b"same\n", b"different\n");
    Finding {
        refusal: comparison.refusal,
        end,
    }
}

// `store ROOM VALUE x14`.
fn store<W: Write>(p: Page, c: Command, out: &mut [u8], said: &mut W) -> Page
    ensures page { result ≡ (bytes_shown p out.old (stored_of c).refusal (take (stored_of c).room (stored_of c).bytes)).page }
    ensures bytes { out.new ≡ (bytes_shown p out.old (stored_of c).refusal (take (stored_of c).room (stored_of c).bytes)).bytes }
{
    let stored = store::stored_of(c);
    let bytes = stored.bytes;
    let room = stored.room;
    show_bytes(p, out, said, stored.refusal, room::lent(&bytes, room))
}

// A command that finds something out.
fn find(at: usize, c: Command, m: Machine, out: &mut [u8]) -> Finding
    requires { Sound m.regs m.generator }
    ensures refusal { result.refusal ≡ find_refusal c m }
    ensures place { result.end ≡ put_ends out.old at (find_texts c m) }
    ensures bytes { out.new ≡ put_texts out.old at (find_texts c m) }
{
    let left = c.left;
    let values = left.values;
    match c.name {
        names::READ => read(at, m, out, values[0]),
        names::NINE => nine(at, m, out),
        names::SHEET => sheet(at, c, out),
        names::FIELD => field(at, c, out),
        _ => compare(at, c, out),
    }
}

// A command that only asks.
pub fn answer<W: Write>(p: Page, c: Command, m: Machine, out: &mut [u8], said: &mut W) -> Page
    requires { Sound m.regs m.generator }
    ensures room { length out.new ≡ length out.old }
    ensures page { result ≡ (answer_shown p c m out.old).page }
    ensures bytes { out.new ≡ (answer_shown p c m out.old).bytes }
{
    if c.name == names::STORE {
        return store(p, c, out, said);
    }
    let answer = find(p.waiting, c, m, out);
    if is_brief(p, answer.refusal) {
        return report::verdict(p, out, answer.refusal);
    }
    report::turn(p, answer.end)
}
