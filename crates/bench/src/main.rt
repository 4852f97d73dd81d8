// Reads a bench script on standard input and answers each of its commands on standard output (docs/SCRIPT.md).
#![tactic(auto)]

use std::io;

fn main(rt: HostRuntime) {
    session::session(
        report::ANSWERS,
        &mut rt.stdin(),
        &mut rt.stdout(),
        &mut io::sink(),
    );
}
