// The two calls of `station`, exported to C. include/station.h declares them.
#![tactic(auto)]

ghost use Rattle.std.specs.Prelude.{◌≡◌};
ghost use Rattle.station.specs.Number.{checksums_number, field_number};

// 1 where two checksums of nine bytes are equal, 0 where they differ.
#[unsafe(no_mangle)]
pub extern "C" fn station_compare_checksums(a: &[u8], b: &[u8]) -> u64
    ensures number { result ≡ checksums_number a.now b.now }
{
    station::station_compare_checksums(a, b)
}

// The value of one field of a whole good sheet.
#[unsafe(no_mangle)]
pub extern "C" fn station_sheet_field(sheet: &[u8], tag: u32) -> u64
    ensures number { result ≡ field_number sheet.now tag }
{
    station::station_sheet_field(sheet, tag)
}
