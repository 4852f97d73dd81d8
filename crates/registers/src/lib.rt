// The register file (01, "Register map"): the registers by value.
#![tactic(auto)]

pub mod map;

ghost use Rattle.std.specs.Prelude.{◌≡◌, get_or, set};
ghost use Rattle.registers.specs.File.{zeros, numbers_of, Lends, value_in, store_in};

use crate::map::Place;

// An entry of a list, or `none` past its end.
fn entry<T: Copy>(list: &[T], k: u32, none: T) -> T
    ensures entry { result ≡ get_or list.now k none }
{
    list.get(k as usize).copied().unwrap_or(none)
}

// One entry of a list changed; past its end nothing is.
// As it is: a test and an index need no answer; tried with `get_mut`, of which the check finds no proof alone, it is no plainer.
fn set_entry<T: Copy>(list: &mut [T], k: u32, v: T)
    ensures list { list.new ≡ set list.old k v }
{
    let i = k as usize;
    if i < list.len() {
        list[i] = v;
    }
}

#[derive(Clone, Copy, PartialEq, Eq)]
pub struct Registers {
    pub params: [u32; 14],
    pub mask: u32,
    pub control: u32,
    pub top: u32,
    pub colours: [u32; 3],
    pub position: u32,
    pub palette: [u32; 256],
    pub store: [u16; 512],
}

// What a tick asks of them for a number: all but the cursor colours, the palette and the cursor store.
#[derive(Clone, Copy, PartialEq, Eq)]
pub struct Numbers {
    pub params: [u32; 14],
    pub mask: u32,
    pub control: u32,
    pub top: u32,
    pub position: u32,
}

// The tables that a tick looks things up in, lent: the cursor colours, the palette and the cursor store.
// As it is: apart from `Numbers`, since where a tick stands is asked of the numbers alone (`bare`).
#[derive(Clone, Copy)]
pub struct Tables<'a> {
    pub colours: &'a [u32; 3],
    pub palette: &'a [u32; 256],
    pub store: &'a [u16; 512],
}

impl Registers {
    // All registers begin at 0.
    pub fn zeros() -> Registers
        ensures file { result ≡ zeros }
    {
        Registers {
            params: [0; 14],
            mask: 0,
            control: 0,
            top: 0,
            colours: [0; 3],
            position: 0,
            palette: [0; 256],
            store: [0; 512],
        }
    }

    // Those that are asked for a number.
    pub fn numbers(self) -> Numbers
        ensures numbers { result ≡ numbers_of self }
    {
        let params = self.params;
        Numbers {
            params,
            mask: self.mask,
            control: self.control,
            top: self.top,
            position: self.position,
        }
    }

    // Those that a tick looks things up in.
    pub fn tables(&self) -> Tables<'_>
        ensures tables { Lends self.now result }
    {
        Tables {
            colours: &self.colours,
            palette: &self.palette,
            store: &self.store,
        }
    }

    // What stands at a place; 0 where nothing stands in the file.
    #[tactic(auto, unfolding(crate::specs::File::value_in))]
    pub fn value(self, p: Place) -> u32
        ensures value { result ≡ value_in self p }
    {
        match p {
            Place::Parameter(k) => entry(&self.params, k, 0),
            Place::Mask => self.mask,
            Place::Control => self.control,
            Place::Top => self.top,
            Place::Colour(k) => entry(&self.colours, k, 0),
            Place::Reserved | Place::Checksum(_) => 0,
            Place::Position => self.position,
            Place::Palette(k) => entry(&self.palette, k, 0),
            Place::Store(k) => entry(&self.store, k, 0) as u32,
        }
    }

    // The file with a value at a place, and every other register as it was.
    #[tactic(auto, unfolding(crate::specs::File::store_in))]
    pub fn stored(self, p: Place, v: u32) -> Registers
        ensures file { result ≡ store_in self p v }
    {
        let mut r = self;
        match p {
            Place::Parameter(k) => {
                set_entry(&mut r.params, k, v);
                r
            }
            Place::Mask => {
                r.mask = v;
                r
            }
            Place::Control => {
                r.control = v;
                r
            }
            Place::Top => {
                r.top = v;
                r
            }
            Place::Colour(k) => {
                set_entry(&mut r.colours, k, v);
                r
            }
            Place::Reserved | Place::Checksum(_) => r,
            Place::Position => {
                r.position = v;
                r
            }
            Place::Palette(k) => {
                set_entry(&mut r.palette, k, v);
                r
            }
            Place::Store(k) => {
                set_entry(&mut r.store, k, (v % 0x10000) as u16);
                r
            }
        }
    }
}
