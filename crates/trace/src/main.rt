// Reads a bench script on standard input and writes a waveform (VCD) of all ticks run on standard output.
#![tactic(auto)]

use std::io;

fn main(rt: HostRuntime) {
    session::session(
        report::WAVE,
        &mut rt.stdin(),
        &mut rt.stdout(),
        &mut io::sink(),
    );
}
