// The whole picture and the tick exported to C for docs/SPEED.md: the registers lent as they stand, the generator at the frame's start.
#![tactic(auto)]

ghost use Rattle.std.specs.Prelude.{◌≡◌, ◌+◌, ◌≤◌, length};
ghost use Rattle.std.proofs.lemmas.List.Edits.{sets};
ghost use Rattle.registers.specs.File.{file_with};
ghost use Rattle.generator.specs.Counters.{fresh};
ghost use Rattle.generator.specs.Sound.{Sound};
ghost use Rattle.picture.specs.Picture.{drawn_of, buffer_of};
ghost use Rattle.speed.specs.Speed.{file, shown};
ghost use Rattle.speed.specs.Ticks.{bit, levels_of, words_of, ticks_in, answer_in, words_in, sums_in, Filled};

use generator::{Generator, Went};
use registers::{Numbers, Registers, Tables};
use signals::Signals;

// The refusal or 0, and the three sums.
// As it is: the C interface.
#[repr(C)]
#[derive(Clone, Copy)]
pub struct Shown {
    pub refusal: u32,
    pub red: u32,
    pub green: u32,
    pub blue: u32,
}

// The picture of a frame.
// As it is: the C interface.
#[unsafe(no_mangle)]
pub extern "C" fn speed_draw(
    params: &[u32; 14],
    mask: u32,
    control: u32,
    top: u32,
    colours: &[u32; 3],
    position: u32,
    palette: &[u32; 256],
    store: &[u16; 512],
    memory: &[u8],
    buffer: &mut [u8],
) -> Shown
    requires { Sound (file params.now mask control top colours.now position palette.now store.now) fresh }
    ensures answer { result ≡ shown (drawn_of (file params.now mask control top colours.now position palette.now store.now) memory.now fresh (length buffer.old)) }
    ensures bytes { buffer.new ≡ buffer_of (file params.now mask control top colours.now position palette.now store.now) memory.now fresh buffer.old }
{
    let r = Registers {
        params: *params,
        mask,
        control,
        top,
        colours: *colours,
        position,
        palette: *palette,
        store: *store,
    };
    let drawn = picture::draw(r, Generator::fresh(), memory, buffer);
    let next = drawn.next;
    Shown {
        refusal: drawn.refusal,
        red: next.sums.red,
        green: next.sums.green,
        blue: next.sums.blue,
    }
}

// A level's bit, with its bound.
fn bit(high: bool, weight: u32) -> u32
    ensures bit { result ≡ bit high weight }
    ensures bound { result ≤ weight }
{
    if high { weight } else { 0 }
}

// The six levels of a tick in one word.
#[tactic(auto, unfolding(crate::specs::Ticks::levels_of))]
fn levels_of(s: Signals) -> u32
    ensures levels { result ≡ levels_of s }
{
    bit(s.sync, 1)
        + bit(s.vsync, 2)
        + bit(s.inactive, 4)
        + bit(s.blank, 8)
        + bit(s.request, 16)
        + bit(s.transfer, 32)
}

// The six words of a tick put from k on.
fn put(out: &mut [u32], k: usize, s: Signals)
    requires { k + 6 ≤ length out.old }
    ensures stored { out.new ≡ sets out.old k (words_of s) }
{
    let dots = s.dots;
    let levels = levels_of(s);
    out[k] = levels;
    out[k + 1] = s.address;
    out[k + 2] = dots[0].colour;
    out[k + 3] = dots[1].colour;
    out[k + 4] = dots[2].colour;
    out[k + 5] = dots[3].colour;
}

// How many ticks so many words have room for.
fn ticks_in(words: usize) -> u32
    ensures ticks { result ≡ ticks_in words }
{
    (words / 6).min(0xFFFFFFFF) as u32
}

// Ticks for as long as there is room for six words more. A refused one ends them, and writes nothing.
fn fill(n: Numbers, tables: Tables, g: Generator, memory: &[u8], out: &mut [u32]) -> Went
    requires { Sound (file_with n tables) g }
    ensures filled { Filled (file_with n tables.entry) memory.now g
        out.old out.new result }
{
    let most = ticks_in(out.len());
    let mut now = g;
    let mut k: usize = 0;
    for done in 0..most {
        let t = generator::tick_with(n, tables, now, memory);
        let refusal = t.refusal;
        if refusal != 0 {
            return Went {
                done,
                refusal,
                next: now,
            };
        }
        put(out, k, t.signals);
        now = t.next;
        k += 6;
    }
    Went {
        done: most,
        refusal: 0,
        next: now,
    }
}

// Ticks from a frame's start on, six words of `out` to a tick: the levels (bit 0 sync, 1 vertical sync, 2 FrameInactive, 3 blank, 4 request,
// 5 transfer), the address, the four colours. They end where one is refused or no room for six words is left. Answers the refusal or 0 above
// bit 32, and the ticks done; `sums` is then red, green, blue.
// As it is: the C interface.
#[unsafe(no_mangle)]
pub extern "C" fn speed_ticks(
    params: &[u32; 14],
    mask: u32,
    control: u32,
    top: u32,
    colours: &[u32; 3],
    position: u32,
    palette: &[u32; 256],
    store: &[u16; 512],
    memory: &[u8],
    out: &mut [u32],
    sums: &mut [u32; 3],
) -> u64
    requires { Sound (file params.now mask control top colours.now position palette.now store.now) fresh }
    ensures answer { result ≡ answer_in (file params.now mask control top colours.now position palette.now store.now) memory.now fresh out.old }
    ensures words { out.new ≡ words_in (file params.now mask control top colours.now position palette.now store.now) memory.now fresh out.old }
    ensures sums { sums.new ≡ sums_in (file params.now mask control top colours.now position palette.now store.now) memory.now fresh out.old }
{
    let n = Numbers {
        params: *params,
        mask,
        control,
        top,
        position,
    };
    let tables = Tables {
        colours,
        palette,
        store,
    };
    let w = fill(n, tables, Generator::fresh(), memory, out);
    let last = w.next.sums;
    *sums = [last.red, last.green, last.blue];
    w.refusal as u64 * 0x100000000 + w.done as u64
}
