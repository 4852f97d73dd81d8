// The register map (01, "Register map"): what stands at each word address, and the rules of each place.
ghost use Rattle.std.specs.Prelude.{◌≡◌, cond, ◌&&◌, leb, drop};
ghost use Rattle.registers.specs.Map.{register_map, place_among, place_of, number_in_row, is_parameter, is_control, is_checksum, is_reserved, widest};

// What stands at an address, with its number in its row of the map.
#[derive(Clone, Copy, PartialEq, Eq)]
pub enum Place {
    Reserved,
    Parameter(u32),
    Mask,
    Control,
    Top,
    Colour(u32),
    Checksum(u32),
    Position,
    Palette(u32),
    Store(u32),
}

// A row of the map, and the rows after it.
fn row(a: u32, first: u32, last: u32, place: Place, later: Place) -> Place
    ensures chosen { result ≡ cond (leb first a && leb a last) place later }
{
    base::choose((first <= a) & (a <= last), place, later)
}

// What stands at a word address from #0A1 on.
fn high_place_of(a: u32) -> Place
    ensures place { result ≡ place_among (drop 4 register_map) a }
{
    let none = Place::Reserved;
    let store = row(a, 0x200, 0x3FF, Place::Store(a.saturating_sub(0x200)), none);
    let palette = row(
        a,
        0x100,
        0x1FF,
        Place::Palette(a.saturating_sub(0x100)),
        store,
    );
    let position = row(a, 0x0C7, 0x0C7, Place::Position, palette);
    let checksum = row(
        a,
        0x0C0,
        0x0C2,
        Place::Checksum(a.saturating_sub(0x0C0)),
        position,
    );
    row(
        a,
        0x0A1,
        0x0A3,
        Place::Colour(a.saturating_sub(0x0A1)),
        checksum,
    )
}

// What stands at a word address.
pub fn place_of(a: u32) -> Place
    ensures place { result ≡ place_of a }
{
    let top = row(a, 0x080, 0x080, Place::Top, high_place_of(a));
    let control = row(a, 0x060, 0x060, Place::Control, top);
    let mask = row(a, 0x040, 0x040, Place::Mask, control);
    row(
        a,
        0x021,
        0x02E,
        Place::Parameter(a.saturating_sub(0x021)),
        mask,
    )
}

// A place's number in its row of the map.
pub fn number_in_row(p: Place) -> u32
    ensures number { result ≡ number_in_row p }
{
    match p {
        Place::Parameter(k)
        | Place::Colour(k)
        | Place::Checksum(k)
        | Place::Palette(k)
        | Place::Store(k) => k,
        Place::Mask | Place::Control | Place::Top | Place::Position | Place::Reserved => 0,
    }
}

// #021 to #02E, touched only while stopped.
pub fn is_parameter(p: Place) -> bool
    ensures rule { result ≡ is_parameter p }
{
    matches!(p, Place::Parameter(_))
}

// #060.
pub fn is_control(p: Place) -> bool
    ensures rule { result ≡ is_control p }
{
    p == Place::Control
}

// #0C0 to #0C2, read only.
pub fn is_checksum(p: Place) -> bool
    ensures rule { result ≡ is_checksum p }
{
    matches!(p, Place::Checksum(_))
}

// All that the map does not have.
pub fn is_reserved(p: Place) -> bool
    ensures rule { result ≡ is_reserved p }
{
    p == Place::Reserved
}

// The largest value that a place holds.
pub fn widest(p: Place) -> u32
    ensures value { result ≡ widest p }
{
    base::choose(matches!(p, Place::Store(_)), 0xFFFF, 0xFFFFFF)
}
