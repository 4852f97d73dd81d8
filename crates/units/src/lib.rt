// A screen's counts in three units (01, "Starting a screen") and its fourteen parameters (01, "Register map"), in both formats (02, Q-4).
#![tactic(auto)]

ghost use Rattle.std.specs.Prelude.{◌≡◌};
ghost use Rattle.units.specs.Parameters.{screen_of, in_field, displayed_lines};

// Three counts that never stand in for one another. One screen unit is one tick.
#[derive(Clone, Copy, PartialEq, Eq, PartialOrd, Ord)]
pub struct ScreenUnits(pub u64);

#[derive(Clone, Copy, PartialEq, Eq, PartialOrd, Ord)]
pub struct HalfLines(pub u64);

#[derive(Clone, Copy, PartialEq, Eq, PartialOrd, Ord)]
pub struct Pixels(pub u64);

// The fourteen parameters, in register order; the format, and which of its fields is meant.
#[derive(Clone, Copy, PartialEq, Eq)]
pub struct Screen {
    pub halfsync: ScreenUnits,
    pub backporch: ScreenUnits,
    pub display: ScreenUnits,
    pub shortdisplay: ScreenUnits,
    pub broadpulse: ScreenUnits,
    pub vsync: HalfLines,
    pub vpreequalise: HalfLines,
    pub vpostequalise: HalfLines,
    pub vblank: HalfLines,
    pub vdisplay: HalfLines,
    pub linetime: ScreenUnits,
    pub linestart: ScreenUnits,
    pub meminit: ScreenUnits,
    pub transferdelay: ScreenUnits,
    pub interlaced: bool,
    pub second: bool,
}

// The registers #021 to #02E as a screen of a format, its first field.
pub fn screen_of(params: [u32; 14], interlaced: bool) -> Screen
    ensures screen { result ≡ screen_of params interlaced }
{
    Screen {
        halfsync: ScreenUnits(params[0] as u64),
        backporch: ScreenUnits(params[1] as u64),
        display: ScreenUnits(params[2] as u64),
        shortdisplay: ScreenUnits(params[3] as u64),
        broadpulse: ScreenUnits(params[4] as u64),
        vsync: HalfLines(params[5] as u64),
        vpreequalise: HalfLines(params[6] as u64),
        vpostequalise: HalfLines(params[7] as u64),
        vblank: HalfLines(params[8] as u64),
        vdisplay: HalfLines(params[9] as u64),
        linetime: ScreenUnits(params[10] as u64),
        linestart: ScreenUnits(params[11] as u64),
        meminit: ScreenUnits(params[12] as u64),
        transferdelay: ScreenUnits(params[13] as u64),
        interlaced,
        second: false,
    }
}

// A screen's first field or its second.
pub fn in_field(s: Screen, second: bool) -> Screen
    ensures screen { result ≡ in_field second s }
{
    let mut field = s;
    field.second = second;
    field
}

// The lines of a frame that are displayed: a line is two half lines, and an interlaced frame has the half lines of two fields.
pub fn displayed_lines(s: Screen) -> u64
    ensures lines { result ≡ displayed_lines s }
{
    if s.interlaced {
        s.vdisplay.0
    } else {
        s.vdisplay.0 / 2
    }
}
