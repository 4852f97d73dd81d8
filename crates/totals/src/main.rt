// Reads one screen sheet on standard input, at 8 bits, increment 1, transfers on: prints `refused N`, or the frame's four totals.
#![tactic(auto)]

ghost use Rattle.std.specs.Prelude.{◌≤◌, length};

use screen::totals;
use screen::totals::Totals;
use std::io::Read;

// Control A at 8 bits a pixel, increment 1, transfers on, not interlaced.
const EIGHT_BITS: u32 = 0x300000;

// Reads until there is no room or the input ends: how many bytes there are.
// As it is: where the input ends early, the library's read_exact does not say how many bytes there were.
fn read_full<R: Read>(input: &mut R, bytes: &mut [u8]) -> usize
    ensures within { result ≤ length bytes.new }
{
    let mut count: usize = 0;
    while count < bytes.len() {
        let more = input::read(input, &mut bytes[count..]);
        if more == 0 {
            return count;
        }
        count += more;
    }
    count
}

// A write that fails is not told of.
fn line(out: &impl Print, name: &str, n: u64) {
    let _ = println!(out; "{name} {n}");
}

fn refused(out: &impl Print, n: u32) {
    line(out, "refused", u64::from(n));
}

fn shown(out: &impl Print, t: Totals) {
    if t.refusal == 0 {
        line(out, "ticks", t.ticks.0);
        line(out, "visible", t.visible.0);
        line(out, "transfers", t.transfers);
        line(out, "pixels", t.pixels.0);
        return;
    }
    refused(out, t.refusal);
}

fn answer(out: &impl Print, bytes: &[u8]) {
    let sheet = sheet::read(bytes);
    if sheet.refusal == 0 {
        let values = sheet.values;
        shown(out, totals::frame_totals(EIGHT_BITS, values));
        return;
    }
    refused(out, sheet.refusal);
}

fn main(rt: HostRuntime) {
    // one byte more than a sheet has, so that bytes left over are seen
    let mut bytes = [0u8; 71];
    let n = read_full(&mut rt.stdin(), &mut bytes);
    answer(&rt, &bytes[..n]);
}
