// One field of a screen sheet by its tag (01, "Rows and pixels", "Screen sheet"). Any bytes may be given.
ghost use Rattle.std.specs.Prelude.{◌≡◌};
ghost use Rattle.sheet.specs.Field.{field_of};

// What one field answers: a refusal, or 0 and the value.
// As it is: a number beside the value, not a Result: the definition field_of and the theorem field_by_tag have it so.
#[derive(Clone, Copy)]
pub struct Answer {
    pub refusal: u32,
    pub value: u32,
}

// One field of a whole good sheet, by its tag.
pub fn field(sheet: &[u8], tag: u32) -> Answer
    ensures answer { result ≡ field_of sheet.now tag }
{
    if tag < 0x21 || 0x2E < tag {
        return Answer {
            refusal: 31,
            value: 0,
        };
    }
    let whole = crate::read(sheet);
    let values = whole.values;
    let i = (tag - 0x21) as usize;
    Answer {
        refusal: whole.refusal,
        value: values[i],
    }
}
