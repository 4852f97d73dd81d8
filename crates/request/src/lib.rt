// The transfer request (01, "Rows and pixels"). Any numbers may be asked about.
#![tactic(auto)]

ghost use Rattle.std.specs.Prelude.{◌≡◌};
ghost use Rattle.request.specs.Request.{asking, requested};

// The request at a visible tick, with transfers on or off: `rest` is v mod R.
pub fn is_asking(on: bool, meminit: u64, rest: u64) -> bool
    ensures test { result ≡ asking on meminit rest }
{
    on & (meminit <= rest)
}

// What is known of a tick. Row transfers are on, the tick is visible; what a visible tick asks, and whether this one leads, before the field's
// first visible one; the field's visible ticks so far, and all of them; what the last visible tick asked.
#[derive(Clone, Copy, PartialEq, Eq)]
pub struct Known {
    pub on: bool,
    pub visible: bool,
    pub asks: bool,
    pub leads: bool,
    pub seen: u64,
    pub all: u64,
    pub asked: bool,
}

// The request at any tick: what it asks at a visible one, its prelude before the first, and what is kept between lines.
pub fn is_requested(k: Known) -> bool
    ensures test { result ≡ requested k }
{
    let kept = base::choose(k.seen == 0, k.leads, (k.seen < k.all) & k.asked);
    k.on & base::choose(k.visible, k.asks, kept)
}
