// What the station's host program calls (01): the comparison of checksums, and one field of a sheet. `station_c` exports both to C.
#![tactic(auto)]

ghost use Rattle.std.specs.Prelude.{◌≡◌};
ghost use Rattle.station.specs.Number.{number, checksums_number, field_number};

use sheet::field;

// The refusal above, the value below.
// As it is: the C interface, one number for both.
fn numbered(refusal: u32, value: u32) -> u64
    ensures number { result ≡ number refusal value }
{
    refusal as u64 * 0x100000000 + value as u64
}

// 1 where two checksums of nine bytes are equal, 0 where they differ.
pub fn station_compare_checksums(a: &[u8], b: &[u8]) -> u64
    ensures number { result ≡ checksums_number a.now b.now }
{
    let compared = vault::compare(a, b);
    numbered(compared.refusal, base::choose(compared.equal, 1, 0))
}

// The value of one field of a whole good sheet.
pub fn station_sheet_field(sheet: &[u8], tag: u32) -> u64
    ensures number { result ≡ field_number sheet.now tag }
{
    let answer = field::field(sheet, tag);
    numbered(answer.refusal, answer.value)
}
