// What is shown of a refusal or a fault, in each form.
ghost use Rattle.std.specs.Prelude.{◌≡◌, length};
ghost use Rattle.room.specs.Room.{put_text, put_end, put_texts, put_ends};
ghost use Rattle.report.specs.Notes.{open_text, close_text, head_texts, refused_texts, fault_texts};

use crate::{ANSWERS, WAVE, phrases};
use room::{put, put_either};
use text::{put_count, put_decimal};

// How a line that names a line of the script begins: in a waveform it is a comment.
fn put_open(room: &mut [u8], at: usize, form: u32) -> usize
    ensures place { result ≡ put_end room.old at (length (open_text form)) }
    ensures bytes { room.new ≡ put_text room.old at (open_text form) }
{
    match form {
        ANSWERS => put(room, at, b"error "),
        WAVE => put(room, at, b"$comment line "),
        _ => put(room, at, b"line "),
    }
}

// And how it ends.
fn put_close(room: &mut [u8], at: usize, form: u32) -> usize
    ensures place { result ≡ put_end room.old at (length (close_text form)) }
    ensures bytes { room.new ≡ put_text room.old at (close_text form) }
{
    put_either(room, at, form == WAVE, b" $end\n", b"\n")
}

// The line of the script that it speaks of.
fn put_head(room: &mut [u8], at: usize, form: u32, line: u64) -> usize
    ensures place { result ≡ put_ends room.old at (head_texts form line) }
    ensures bytes { room.new ≡ put_texts room.old at (head_texts form line) }
{
    let begun = put_open(room, at, form);
    let counted = put_decimal(room, begun, line);
    put_either(room, counted, form == ANSWERS, b" ", b": ")
}

// A refusal.
pub fn put_refused(room: &mut [u8], at: usize, form: u32, line: u64, refusal: u32) -> usize
    ensures place { result ≡ put_ends room.old at (refused_texts form line refusal) }
    ensures bytes { room.new ≡ put_texts room.old at (refused_texts form line refusal) }
{
    let number = refusal as u64;
    if form == ANSWERS {
        return put_count(room, at, b"refused ", number);
    }
    let named = put_head(room, at, form, line);
    let refused = put(room, named, b"refused ");
    let counted = put_decimal(room, refused, number);
    put_close(room, counted, form)
}

// A fault of a line.
pub fn put_fault(room: &mut [u8], at: usize, form: u32, line: u64, fault: u32) -> usize
    ensures place { result ≡ put_ends room.old at (fault_texts form line fault) }
    ensures bytes { room.new ≡ put_texts room.old at (fault_texts form line fault) }
{
    let named = put_head(room, at, form, line);
    let reason = phrases::put_reason(room, named, fault);
    put_close(room, reason, form)
}
