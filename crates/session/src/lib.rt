// A whole script (docs/SCRIPT.md), in one of three forms: answers, a waveform of the ticks, or the last picture.
#![tactic(auto)]

ghost use Rattle.std.specs.Prelude.{◌≤◌, ◌<◌, ◌≡◌, length};
ghost use Rattle.generator.specs.Sound.{Sound};
ghost use Rattle.changes.specs.LentMemory.{memory_after};
ghost use Rattle.changes.specs.Changes.{run_done, done_of, picture_after};
ghost use Rattle.session.specs.Session.{first_done, line_done, line_memory, line_picture};
ghost use Rattle.session.specs.Shows.{open_shown, close_shown, page_weave, woven_shown, ppm_shown, is_shown, shows_ticks, tick_shown, ticks_shown, run_shown, picture_shown, result_shown, command_shown, line_shown};

use changes::Done;
use input::{LINE, PIECE};
use machine::Machine;
use report::{ANSWERS, PICTURE, Page, WAVE};
use script::command::Command;
use script::names;
use script::names::Kind;
use std::io::{Read, Write};
use text::ppm;
use weave::Weave;

// What the last command has done, the machine and the memory lent with it; and what has been shown.
#[derive(Clone, Copy)]
struct Desk {
    done: Done,
    page: Page,
}

// The largest memory, the largest picture, and what may wait to be written.
const MEMORY: usize = 1048576;

const PICTURE_BYTES: usize = 3145728;

const ROOM: usize = 65536;

// One tick's signals, or its refusal.
fn show_tick<W: Write>(
    p: Page,
    out: &mut [u8; ROOM],
    said: &mut W,
    refusal: u32,
    s: signals::Signals,
) -> Page
    ensures page { result ≡ (tick_shown p out.old refusal s).page }
    ensures bytes { out.new ≡ (tick_shown p out.old refusal s).bytes }
{
    let page = report::space(p, out, said);
    if refusal == 0 {
        return report::tick(page, out, s);
    }
    report::refuse(page, out, refusal)
}

// Ticks that are shown, each as the form shows it; they end where one is refused.
fn ticks<W: Write>(d: Desk, memory: &[u8], out: &mut [u8; ROOM], said: &mut W, count: u32) -> Desk
    requires { Sound d.done.machine.regs d.done.machine.generator }
    ensures done { result.done ≡ run_done d.done.machine d.done.memory memory.now count }
    ensures sound { Sound result.done.machine.regs result.done.machine.generator }
    ensures page { result.page ≡ (ticks_shown d.done.machine.regs memory.now d.done.machine.generator (record { page = d.page; bytes = out.old }) count).page }
    ensures bytes { out.new ≡ (ticks_shown d.done.machine.regs memory.now d.done.machine.generator (record { page = d.page; bytes = out.old }) count).bytes }
{
    let before = d.done;
    let machine = before.machine;
    let regs = machine.regs;
    let tables = regs.tables();
    let n = regs.numbers();
    let mut generator = machine.generator;
    let mut page = d.page;
    for ticks in 0..count {
        let next = generator::tick_with(n, tables, generator, memory);
        let refusal = next.refusal;
        let signals = next.signals;
        generator = next.next;
        page = show_tick(page, out, said, refusal, signals);
        if refusal != 0 {
            let machine = Machine { regs, generator };
            let done = Done {
                refusal,
                ticks,
                memory: before.memory,
                machine,
            };
            return Desk { done, page };
        }
    }
    let machine = Machine { regs, generator };
    let done = Done {
        refusal: 0,
        ticks: count,
        memory: before.memory,
        machine,
    };
    Desk { done, page }
}

// A run that is not shown: in answers how many ticks it has done. Its line is kept only there.
fn show_run(p: Page, out: &mut [u8; ROOM], done: u32, refusal: u32) -> Page
    ensures page { result ≡ (run_shown p out.old done refusal).page }
    ensures bytes { out.new ≡ (run_shown p out.old done refusal).bytes }
{
    let end = text::put_count(out, p.waiting, b"ran ", done as u64);
    let waiting = base::choose(p.form == ANSWERS, end, p.waiting);
    let page = report::turn(p, waiting);
    if refusal == 0 {
        return page;
    }
    report::refuse(page, out, refusal)
}

// `picture LENGTH`: a picture that was drawn is shown, and its size kept.
fn show_picture<W: Write>(
    p: Page,
    m: Machine,
    picture: &[u8; PICTURE_BYTES],
    out: &mut [u8; ROOM],
    said: &mut W,
    refusal: u32,
    length: u32,
) -> Page
    requires { Sound m.regs m.generator }
    ensures page { result ≡ (picture_shown p m picture.now out.old refusal length).page }
    ensures bytes { out.new ≡ (picture_shown p m picture.now out.old refusal length).bytes }
{
    let mut page = p;
    let size = calls::size_of(m);
    page.width = base::choose(refusal == 0, size.width, page.width);
    page.height = base::choose(refusal == 0, size.height, page.height);
    page.half = base::choose(refusal == 0, size.half, page.half);
    let bytes = room::lent(picture, length as usize);
    questions::show_bytes(page, out, said, refusal, bytes)
}

// What is shown of a command that has done something, or has only asked.
fn show_result<W: Write>(
    p: Page,
    c: Command,
    done: Done,
    picture: &[u8; PICTURE_BYTES],
    out: &mut [u8; ROOM],
    said: &mut W,
) -> Page
    requires { Sound done.machine.regs done.machine.generator }
    ensures page { result ≡ (result_shown p c done picture.now out.old).page }
    ensures bytes { out.new ≡ (result_shown p c done picture.now out.old).bytes }
{
    let left = c.left;
    let values = left.values;
    let machine = done.machine;
    let refusal = done.refusal;
    match names::kind_of(c.name) {
        Kind::RunsTicks => show_run(p, out, done.ticks, refusal),
        Kind::DrawsPicture => show_picture(p, machine, picture, out, said, refusal, values[0]),
        Kind::OnlyAsks => questions::answer(p, c, machine, out, said),
        Kind::WritesRegister | Kind::ChangesMemory => report::verdict(p, out, refusal),
    }
}

// A waveform shows the ticks of `tick` and of `run`, answers those of `tick`, a picture none.
fn is_shown(form: u32, name: u32) -> bool
    ensures shown { result ≡ is_shown form name }
{
    (form == WAVE) | ((form == ANSWERS) & (name == names::TICK))
}

// A command that runs ticks which are shown.
fn shows_ticks(form: u32, name: u32) -> bool
    ensures shown { result ≡ shows_ticks form name }
{
    match names::kind_of(name) {
        Kind::RunsTicks => is_shown(form, name),
        Kind::WritesRegister | Kind::ChangesMemory | Kind::DrawsPicture | Kind::OnlyAsks => false,
    }
}

// A good command.
fn do_command<W: Write>(
    d: Desk,
    c: Command,
    memory: &mut [u8; MEMORY],
    picture: &mut [u8; PICTURE_BYTES],
    out: &mut [u8; ROOM],
    said: &mut W,
) -> Desk
    requires { Sound d.done.machine.regs d.done.machine.generator }
    ensures done { result.done ≡ done_of c d.done.machine d.done.memory memory.old (length picture.old) }
    ensures memory { memory.new ≡ memory_after c memory.old }
    ensures picture { picture.new ≡ picture_after c d.done.machine d.done.memory memory.old picture.old }
    ensures sound { Sound result.done.machine.regs result.done.machine.generator }
    ensures page { result.page ≡ (command_shown d.page c d.done memory.old picture.old out.old).page }
    ensures bytes { out.new ≡ (command_shown d.page c d.done memory.old picture.old out.old).bytes }
{
    let before = d.done;
    let p = d.page;
    if shows_ticks(p.form, c.name) {
        let lent = room::lent(memory, before.memory as usize);
        return ticks(d, lent, out, said, script::ticks_of(c));
    }
    let machine = before.machine;
    let done = changes::apply(c, machine, before.memory, memory, picture);
    let page = show_result(p, c, done, picture, out, said);
    Desk { done, page }
}

// A whole line of the script. It is made part of the loop over lines, so that a line that is skipped does not copy the machine twice more.
#[inline(always)]
fn do_line<W: Write>(
    d: Desk,
    line: &[u8],
    memory: &mut [u8; MEMORY],
    picture: &mut [u8; PICTURE_BYTES],
    out: &mut [u8; ROOM],
    said: &mut W,
) -> Desk
    requires { Sound d.done.machine.regs d.done.machine.generator }
    ensures done { result.done ≡ line_done line.now d.done memory.old (length picture.old) }
    ensures memory { memory.new ≡ line_memory line.now d.done memory.old }
    ensures picture { picture.new ≡ line_picture line.now d.done memory.old picture.old }
    ensures sound { Sound result.done.machine.regs result.done.machine.generator }
    ensures page { result.page ≡ (line_shown line.now d.page d.done memory.old picture.old out.old).page }
    ensures bytes { out.new ≡ (line_shown line.now d.page d.done memory.old picture.old out.old).bytes }
{
    let done = d.done;
    let before = d.page;
    let page = report::next_line(before, out, said);
    if script::is_skipped(line) {
        return Desk { done, page };
    }
    let c = script::line_command(line, done.memory);
    if c.fault == 0 {
        return do_command(Desk { done, page }, c, memory, picture, out, said);
    }
    let page = report::fault(page, out, c.fault);
    Desk { done, page }
}

// The last time of a waveform, after its last tick; what waits is written.
fn close<W: Write>(p: Page, out: &mut [u8; ROOM], said: &mut W) -> Page
    ensures page { result ≡ (close_shown p out.old).page }
    ensures bytes { out.new ≡ (close_shown p out.old).bytes }
{
    if p.form == WAVE {
        let end = text::put_count(out, p.waiting, b"#", p.ticks);
        let page = report::turn(p, end);
        return report::write(page, out, said);
    }
    report::write(p, out, said)
}

// An interlaced picture's rows from the top, each put over the one before it and written.
fn write_woven<W: Write>(
    p: Page,
    picture: &[u8; PICTURE_BYTES],
    out: &mut [u8; ROOM],
    drawn: &mut W,
)
    requires { 0 < p.height }
    ensures bytes { out.new ≡ woven_shown (page_weave p) picture.now out.old p.height }
{
    let w = Weave {
        width: p.width,
        lines: p.height - 1,
        half: p.half,
        late: false,
    };
    for row in 0..p.height {
        let count = weave::put_row(out, picture, w, row);
        let _ = drawn.write_all(room::lent(out, count));
    }
}

// A picture drawn, as a PPM, where an interlaced one is woven; or it is said that there is none.
fn write_picture<S: Write, W: Write>(
    p: Page,
    picture: &[u8; PICTURE_BYTES],
    out: &mut [u8; ROOM],
    said: &mut S,
    drawn: &mut W,
)
    ensures bytes { out.new ≡ ppm_shown p picture.now out.old }
{
    if (p.width == 0) | (p.height == 0) {
        let _ = said.write_all(b"draw: no picture was drawn\n");
        return;
    }
    let head = ppm::put_ppm(out, 0, p.width, p.height);
    let _ = drawn.write_all(room::lent(out, head));
    if p.half == 0 {
        let pixels = base::product(p.width, p.height);
        let size = picture::bytes_for(pixels);
        let _ = drawn.write_all(room::lent(picture, size as usize));
        return;
    }
    write_woven(p, picture, out, drawn);
}

// Before a script's first line.
fn first_desk(p: Page) -> Desk
    ensures sound { Sound result.done.machine.regs result.done.machine.generator }
    ensures done { result.done ≡ first_done }
    ensures page { result.page ≡ p }
{
    let machine = calls::begin();
    let done = Done {
        refusal: 0,
        ticks: 0,
        memory: 0,
        machine,
    };
    Desk { done, page: p }
}

// The whole script.
fn do_script<R: Read, W: Write>(
    p: Page,
    script: &mut R,
    memory: &mut [u8; MEMORY],
    picture: &mut [u8; PICTURE_BYTES],
    out: &mut [u8; ROOM],
    said: &mut W,
) -> Page {
    let mut piece = [0u8; PIECE];
    let mut line = [0u8; LINE];
    let mut desk = first_desk(p);
    let mut reader = input::begin();
    // As it is: no index: the clause `fewer` of `next` ends it. `chart` does another thing with a line, and keeps another desk.
    while 0 < reader.turns {
        reader = input::next(script, reader, &mut piece, &mut line);
        if input::is_line(reader) {
            desk = do_line(
                desk,
                input::line_of(reader, &line),
                memory,
                picture,
                out,
                said,
            );
        }
    }
    desk.page
}

// A page with its head.
fn open(form: u32, out: &mut [u8; ROOM]) -> Page
    ensures page { result ≡ (open_shown form out.old).page }
    ensures bytes { out.new ≡ (open_shown form out.old).bytes }
{
    let page = report::blank_page(form);
    if form == WAVE {
        let end = waveform::put_head(out, 0);
        return report::turn(page, end);
    }
    page
}

// Reads a script and says it in a form; the last picture is drawn apart. Answers the ticks that were shown. The clause bounds a number that
// is bounded anyway: what it promises is that every script comes to an end.
pub fn session<R: Read, S: Write, W: Write>(
    form: u32,
    script: &mut R,
    said: &mut S,
    drawn: &mut W,
) -> u64
    ensures ticks { result ≤ 0xFFFFFFFFFFFFFFFF }
{
    let mut memory = [0u8; MEMORY];
    let mut picture = [0u8; PICTURE_BYTES];
    let mut out = [0u8; ROOM];
    let page = open(form, &mut out);
    let last = do_script(page, script, &mut memory, &mut picture, &mut out, said);
    let end = close(last, &mut out, said);
    if form == PICTURE {
        write_picture(end, &picture, &mut out, said, drawn);
    }
    end.ticks
}
