// Where a tick stands (01, "Lines and frames"; 02, Q-4): its period, its line, its sync, and the tick after it; and what a field shows in all.
#![tactic(auto)]

ghost use Rattle.std.specs.Prelude.{◌≡◌, false, cond, ◌^◌, ◌<◌, min, ltb};
ghost use Rattle.units.specs.Parameters.{screen_of, in_field, display_from, halves_in_field};
ghost use Rattle.lines.specs.Narrow.{Narrow};
ghost use Rattle.lines.specs.Lines.{period, is_vdisplay, line_from, in_line, column_of, lines_above, lead, low_in, ends_of, field_visible, moment_of};
ghost use Rattle.lines.specs.declared.Period.TheVariants.{PreEqualise, VSync, PostEqualise, VBlank, VDisplay};

use units::Screen;

// The five periods, in frame order.
#[derive(Clone, Copy)]
pub enum Period {
    PreEqualise,
    VSync,
    PostEqualise,
    VBlank,
    VDisplay,
}

// What a place in a field says of its tick: it lies in VSync, in VDisplay; it is visible; sync is low; it is the first tick of VDisplay, or
// the field's last. Its column and its line, as a visible tick has them. And the place after it: its field, its half line and its number there.
// As it is: the definition moment_of says all of it of every tick, visible or not.
#[derive(Clone, Copy)]
pub struct Moment {
    pub vsyncing: bool,
    pub vdisplaying: bool,
    pub visible: bool,
    pub low: bool,
    pub opens: bool,
    pub closes: bool,
    pub column: u64,
    pub line: u64,
    pub second: bool,
    pub half: u64,
    pub at: u64,
}

// The half lines before the end of each period but the last.
#[derive(Clone, Copy)]
struct Ends {
    pre: u64,
    sync: u64,
    post: u64,
    blank: u64,
}

// The period of a half line.
fn period_of(half: u64, ends: Ends) -> Period
    ensures period { result ≡ cond (ltb half ends.pre) PreEqualise (cond (ltb half ends.sync) VSync (cond (ltb half ends.post) PostEqualise (cond (ltb half ends.blank) VBlank VDisplay))) }
{
    let display = base::choose(half < ends.blank, Period::VBlank, Period::VDisplay);
    let equal = base::choose(half < ends.post, Period::PostEqualise, display);
    let low = base::choose(half < ends.sync, Period::VSync, equal);
    base::choose(half < ends.pre, Period::PreEqualise, low)
}

// Composite sync is low: at is the tick's number in its half line, tick in its line.
fn is_low(plain: bool, period: Period, at: u64, tick: u64, halfsync: u64, broadpulse: u64) -> bool
    requires { halfsync < 0x100000000 }
    ensures test { result ≡ low_in plain halfsync broadpulse period at tick }
{
    match period {
        Period::PreEqualise | Period::PostEqualise => !plain & (at < halfsync),
        Period::VSync => plain | (at < broadpulse),
        Period::VBlank | Period::VDisplay => tick < 2 * halfsync,
    }
}

// A screen that stands in the registers, in one of its fields.
fn screen_in(params: [u32; 14], interlaced: bool, second: bool) -> Screen
    ensures screen { result ≡ in_field second (screen_of params interlaced) }
    ensures narrow { Narrow result }
{
    units::in_field(units::screen_of(params, interlaced), second)
}

// A screen in one of its fields: its periods' ends, its half lines, and what is added to a half line's number in the field, so that an even sum
// is the first half of a line.
#[derive(Clone, Copy)]
struct Field {
    s: Screen,
    ends: Ends,
    halves: u64,
    origin: u64,
    ghost narrow: { Narrow s },
    ghost ends_are: { ends ≡ ends_of s },
    ghost halves_are: { halves ≡ halves_in_field s },
    ghost origin_is: { origin ≡ line_from s },
}

impl Field {
    // The field of a screen that stands in the registers.
    fn of(params: [u32; 14], interlaced: bool, second: bool) -> Field
        ensures screen { result.s ≡ in_field second (screen_of params interlaced) }
    {
        let s = screen_in(params, interlaced, second);
        let pre = s.vpreequalise.0;
        let sync = pre + s.vsync.0;
        let post = sync + s.vpostequalise.0;
        let blank = post + s.vblank.0;
        let halves = blank + s.vdisplay.0;
        let origin = base::choose(s.interlaced, base::choose(s.second, halves, 0), post);
        let ends = Ends {
            pre,
            sync,
            post,
            blank,
        };
        Field {
            s,
            ends,
            halves,
            origin,
        }
    }

    // A tick's number in its full line.
    fn in_line(self, half: u64, at: u64) -> u64
        requires { (half < 2 ^ 40) × (at < 2 ^ 40) }
        ensures tick { result ≡ in_line self.s half at }
    {
        let late = (half + self.origin) % 2 == 1;
        base::choose(late, self.s.linetime.0 / 2 + at, at)
    }

    // Ticks of a line before its Display.
    fn display_from(self) -> u64
        ensures ticks { result ≡ display_from self.s }
    {
        2 * self.s.halfsync.0 + self.s.backporch.0
    }

    // The full lines between VDisplay's first and a half line's.
    fn lines_above(self, half: u64) -> u64
        requires { half < 2 ^ 40 }
        ensures lines { result ≡ lines_above self.s half }
    {
        let first = (self.ends.blank + self.origin) / 2;
        ((half + self.origin) / 2).saturating_sub(first)
    }

    // Of Display, what lies before the first tick of a half line.
    fn begun(self, half: u64) -> u64
        requires { half < 2 ^ 40 }
        ensures ticks { result ≡ min self.s.display.0 (column_of self.s half 0) }
    {
        let column = self.in_line(half, 0).saturating_sub(self.display_from());
        self.s.display.0.min(column)
    }

    // Sync is low at a tick. The period is asked for only before VBlank: full lines have one sync, and most of a frame is full lines.
    fn low_at(self, plain: bool, half: u64, at: u64, tick: u64) -> bool
        ensures test { result ≡ low_in plain self.s.halfsync.0 self.s.broadpulse.0 (period self.s half) at tick }
    {
        let s = self.s;
        if self.ends.post <= half {
            return tick < 2 * s.halfsync.0;
        }
        is_low(
            plain,
            period_of(half, self.ends),
            at,
            tick,
            s.halfsync.0,
            s.broadpulse.0,
        )
    }
}

// A half line of either field lies in VDisplay.
pub fn is_vdisplay(params: [u32; 14], half: u32) -> bool
    ensures test { result ≡ is_vdisplay (period (screen_of params false) half) }
{
    let f = Field::of(params, false, false);
    f.ends.blank <= half as u64
}

// The moment of a place: half is the half line's number in the field, at the tick's in the half line. Any numbers: none can overflow.
// As it is: registers, format and field apart: any numbers may be asked about, of which a `Screen` says too little, that 32 bits hold each count.
pub fn moment_of(
    params: [u32; 14],
    interlaced: bool,
    second: bool,
    plain: bool,
    half: u32,
    at: u32,
) -> Moment
    ensures moment { result ≡ moment_of (in_field second (screen_of params interlaced)) plain half at }
{
    let f = Field::of(params, interlaced, second);
    let s = f.s;
    let ends = f.ends;
    let line = s.linetime.0 / 2;
    let from = f.display_from();
    let to = from + s.display.0;
    let number = half as u64;
    let place = at as u64;
    let tick = f.in_line(number, place);
    let column = tick.saturating_sub(from);
    let vdisplaying = ends.blank <= number;
    let later = number + 1;
    let after = place + 1;
    let stays = after < line;
    let closes = (f.halves <= later) & (line <= after);
    let next = base::choose(later < f.halves, later, 0);
    Moment {
        vsyncing: (ends.pre <= number) & (number < ends.sync),
        vdisplaying,
        visible: vdisplaying & ((from <= tick) & (tick < to)),
        low: f.low_at(plain, number, place, tick),
        opens: (number == ends.blank) & (place == 0),
        closes,
        column,
        line: f.lines_above(number),
        second: base::choose(closes, s.interlaced & !s.second, s.second),
        half: base::choose(stays, number, next),
        at: base::choose(stays, after, 0),
    }
}

// What a field shows: Display ticks of its first line before its VDisplay, and its visible ticks.
#[derive(Clone, Copy)]
pub struct Shown {
    pub lead: u64,
    pub visible: u64,
}

// A field's lead and its visible ticks. Any numbers: none can overflow.
pub fn shown_in(params: [u32; 14], interlaced: bool, second: bool) -> Shown
    ensures lead { result.lead ≡ lead (in_field second (screen_of params interlaced)) }
    ensures visible { result.visible ≡ field_visible (in_field second (screen_of params interlaced)) }
{
    let f = Field::of(params, interlaced, second);
    let lead = f.begun(f.ends.blank);
    let all = f.lines_above(f.halves) * f.s.display.0 + f.begun(f.halves);
    Shown {
        lead,
        visible: all.saturating_sub(lead),
    }
}
