// The reader of screen sheets (01, "Screen sheet"). Any bytes may be given.
#![tactic(auto)]

pub mod field;
mod tags;
pub mod writer;

ghost use Rattle.std.specs.Prelude.{◌≡◌, ◌*◌, ◌<◌, get_or, drop};
ghost use Rattle.sheet.specs.Encoding.{tags};
ghost use Rattle.sheet.specs.Reader.{field_refusal, refusal_from, values_from, read_sheet};

// What a sheet answers: a refusal, or 0 and the fourteen values.
// As it is: a number beside the values, not a Result: the definition read_sheet and the theorems encoding_accepted and accepted_encoding have it.
#[derive(Clone, Copy)]
pub struct Sheet {
    pub refusal: u32,
    pub values: [u32; 14],
}

// A byte made wide, and 0 past the end: so the tests of a field may stand in a row.
fn wide_at(bytes: &[u8], at: usize) -> u32
    ensures same { result ≡ get_or bytes.now at 0 }
    ensures bound { result < 256 }
{
    base::wide(base::byte_at(bytes, at))
}

// The bytes left from `at` on, none where the sheet has ended.
fn left_from(sheet: &[u8], at: usize) -> &[u8]
    ensures left { result.now ≡ drop at sheet.now }
{
    let from = at.min(sheet.len());
    &sheet[from..]
}

// The refusal of the field that begins the bytes left.
fn field_refusal(tag: u32, left: &[u8]) -> u32
    ensures refusal { result ≡ field_refusal tag left.now }
{
    let found = wide_at(left, 0);
    let length = 256 * wide_at(left, 1) + wide_at(left, 2);
    let past_length = base::choose(left.len() < 5, 30, 0);
    let past_tag = base::choose(length != 2, 32, past_length);
    let begun = base::choose(found != tag, 31, past_tag);
    base::choose(left.len() < 3, 30, begun)
}

// The refusal of a field by its number, from 0.
fn refusal_at(sheet: &[u8], number: usize) -> u32
    requires { number < 14 }
    ensures refusal { result ≡ field_refusal (get_or tags number 0) (drop (5 * number) sheet.now) }
{
    field_refusal(
        base::wide(tags::tag_of(number)),
        left_from(sheet, 5 * number),
    )
}

// The refusal of a whole sheet: the first one that a field gives, or 33.
fn sheet_refusal(sheet: &[u8]) -> u32
    ensures refusal { result ≡ refusal_from tags sheet.now }
{
    for i in 0..14 {
        let field = refusal_at(sheet, i);
        if field != 0 {
            return field;
        }
    }
    let over = left_from(sheet, 70).len();
    base::choose(over == 0, 0, 33)
}

// The value of every field, good or not.
fn sheet_values(sheet: &[u8]) -> [u32; 14]
    ensures values { result ≡ values_from tags sheet.now }
{
    let mut values = [0u32; 14];
    for i in 0..14 {
        let left = left_from(sheet, 5 * i);
        values[i] = 256 * wide_at(left, 3) + wide_at(left, 4);
    }
    values
}

// The fourteen values of a sheet.
pub fn read(sheet: &[u8]) -> Sheet
    ensures whole { result ≡ read_sheet sheet.now }
{
    let refusal = sheet_refusal(sheet);
    if refusal == 0 {
        let values = sheet_values(sheet);
        Sheet { refusal, values }
    } else {
        let values = [0u32; 14];
        Sheet { refusal, values }
    }
}
