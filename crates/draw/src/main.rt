// Reads a bench script on standard input and writes the last picture drawn on standard output, as a binary PPM; refusals and errors go to
// standard error.
#![tactic(auto)]

fn main(rt: HostRuntime) {
    session::session(
        report::PICTURE,
        &mut rt.stdin(),
        &mut rt.stderr(),
        &mut rt.stdout(),
    );
}
