// The script's register writes, as text from a table.
ghost use Rattle.std.specs.Prelude.{◌≡◌};
ghost use Rattle.room.specs.Room.{put_texts, put_ends};
ghost use Rattle.scribe.specs.Settings.{write_texts, rows_texts, settings_texts, start_texts};

// A register's address and its value, a row. Today's rooms: a monitor's 640 by 480 at 60 Hz in screen units of four pixels and half lines.
const SCREEN: [(u32, u32); 14] = [
    (0x021, 0x00000C), // HalfSync: twice 12 units of sync
    (0x022, 0x00000C), // BackPorch
    (0x023, 0x0000A0), // Display: 160 units are 640 pixels
    (0x024, 0x00003C), // ShortDisplay
    (0x025, 0x000058), // BroadPulse
    (0x026, 0x000004), // VSync: 2 lines
    (0x027, 0x000014), // VPreEqualise: the front porch's 10 lines
    (0x028, 0x000006), // VPostEqualise
    (0x029, 0x00003C), // VBlank: with it the back porch's 33 lines
    (0x02A, 0x0003C0), // VDisplay: 480 lines
    (0x02B, 0x0000C8), // LineTime: 200 units are 800 pixels
    (0x02C, 0x000000), // LineStart
    (0x02D, 0x0003F8), // MemInit
    (0x02E, 0x000008), // TransferDelay: a row of 1,024 units
];

// The oldest rooms: a monitor of 525 interlaced lines, of which 480 and two halves are shown.
const INTERLACED: [(u32, u32); 14] = [
    (0x021, 0x000007), // HalfSync: twice 7 units of sync
    (0x022, 0x000010), // BackPorch
    (0x023, 0x0000A0), // Display: the same 640 pixels
    (0x024, 0x00003E), // ShortDisplay
    (0x025, 0x000054), // BroadPulse: half a line but for a sync
    (0x026, 0x000006), // VSync: 3 lines
    (0x027, 0x000006), // VPreEqualise: 3 lines
    (0x028, 0x000006), // VPostEqualise: 3 lines
    (0x029, 0x00001A), // VBlank: 13 lines
    (0x02A, 0x0001E1), // VDisplay: 240 lines and a half
    (0x02B, 0x0000C4), // LineTime: 196 units are 784 pixels
    (0x02C, 0x000000), // LineStart
    (0x02D, 0x0003F8), // MemInit
    (0x02E, 0x000008), // TransferDelay: a row of 1,024 units
];

// In all rooms.
const COLOURS: [(u32, u32); 6] = [
    (0x040, 0xFFFFFF), // mask
    (0x080, 0x000000), // top of screen
    (0x100, 0xFFFFFF), // paper: white
    (0x101, 0xFF0000), // right ear: red
    (0x102, 0x0000FF), // left ear: blue
    (0x103, 0x606060), // form: grey
];

// Control A: the generator runs at 2 bits a pixel, flyback tesselated, the cursor off; interlaced, with 01 in bits 13 and 12.
const START: u32 = 0x900001;

const INTERLACED_START: u32 = 0x901003;

// A register write as a line of the script.
#[tactic(auto, unfolding(room::specs::Room::put_texts, room::specs::Room::put_ends))]
fn put_write(room: &mut [u8], at: usize, address: u32, value: u32) -> usize
    ensures place { result ≡ put_ends room.old at (write_texts address value) }
    ensures bytes { room.new ≡ put_texts room.old at (write_texts address value) }
{
    let named = room::put(room, at, b"write ");
    let placed = text::put_hex(room, named, address);
    let parted = room::put(room, placed, b" ");
    let valued = text::put_hex(room, parted, value);
    room::put(room, valued, b"\n")
}

// Register writes as lines of the script.
#[tactic(auto, unfolding(room::specs::Room::put_texts, room::specs::Room::put_ends, room::specs::Room::texts_of), using(room::proofs::Laying::puts))]
fn put_rows(room: &mut [u8], at: usize, rows: &[(u32, u32)]) -> usize
    ensures place { result ≡ put_ends room.old at (rows_texts rows.now) }
    ensures bytes { room.new ≡ put_texts room.old at (rows_texts rows.now) }
{
    let mut end = at;
    for (address, value) in rows {
        end = put_write(room, end, *address, *value);
    }
    end
}

// The whole table as lines of the script.
pub fn put_settings(room: &mut [u8], at: usize, interlaced: bool) -> usize
    ensures place { result ≡ put_ends room.old at (settings_texts interlaced) }
    ensures bytes { room.new ≡ put_texts room.old at (settings_texts interlaced) }
{
    let screen = base::choose(interlaced, INTERLACED, SCREEN);
    let placed = put_rows(room, at, &screen);
    put_rows(room, placed, &COLOURS)
}

// The write that starts the generator.
pub fn put_start(room: &mut [u8], at: usize, interlaced: bool) -> usize
    ensures place { result ≡ put_ends room.old at (start_texts interlaced) }
    ensures bytes { room.new ≡ put_texts room.old at (start_texts interlaced) }
{
    let control = base::choose(interlaced, INTERLACED_START, START);
    put_write(room, at, 0x060, control)
}
