// What goes out at a tick (01, "Lines and frames", "Rows and pixels"): its signals, and its pixels among them.
#![tactic(auto)]

ghost use Rattle.std.specs.Prelude.{◌≡◌};
ghost use Rattle.signals.specs.Signals.{colours_of, silent};

// A pixel that goes out: its colour, red in bits 23 to 16, green, blue.
#[derive(Clone, Copy, PartialEq, Eq)]
pub struct Dot {
    pub colour: u32,
}

// What a tick puts out. An address is answered exactly where `transfer` is set.
// As it is: an address that is not answered is 0, as `signals_with` and the demands say of it, and so no Option.
#[derive(Clone, Copy, PartialEq, Eq)]
pub struct Signals {
    pub sync: bool,
    pub vsync: bool,
    pub inactive: bool,
    pub blank: bool,
    pub request: bool,
    pub transfer: bool,
    pub address: u32,
    pub dots: [Dot; 4],
}

// The colours of a tick's four pixels.
pub fn colours(four: [Dot; 4]) -> [u32; 4]
    ensures colours { result ≡ colours_of four }
{
    let [a, b, c, d] = four;
    [a.colour, b.colour, c.colour, d.colour]
}

// What a refused tick answers, and what none has put out.
pub fn silence() -> Signals
    ensures signals { result ≡ silent }
{
    Signals {
        sync: false,
        vsync: false,
        inactive: false,
        blank: false,
        request: false,
        transfer: false,
        address: 0,
        dots: [Dot { colour: 0 }; 4],
    }
}
