// The commands over sheets and checksums: `sheet`, `field`, `compare` and `store`.
#![tactic(auto)]

pub mod store;

ghost use Rattle.std.specs.Prelude.{◌≡◌, ◌-◌, get_or, take};
ghost use Rattle.sheet.specs.Reader.{read_sheet};
ghost use Rattle.sheet.specs.Field.{field_of};
ghost use Rattle.vault.specs.Compare.{compared};
ghost use Rattle.room.specs.Bytes.{bytes_from};

use room::bytes::bytes_of;
use room::lent;
use script::command::Command;
use sheet::field;

// `sheet`: the fourteen values of its bytes.
pub fn sheet_of(c: Command) -> sheet::Sheet
    ensures sheet { result ≡ read_sheet (take c.left.count (bytes_from c.left.values 0)) }
{
    let left = c.left;
    let values = left.values;
    let count = left.count;
    let bytes = bytes_of(&values, 0);
    sheet::read(lent(&bytes, count))
}

// `field`: one field of its bytes, by its tag.
pub fn field_of(c: Command) -> field::Answer
    ensures answer { result ≡ field_of (take (c.left.count - 1) (bytes_from c.left.values 1)) (get_or c.left.values 0 0) }
{
    let left = c.left;
    let values = left.values;
    let count = left.count.saturating_sub(1);
    let bytes = bytes_of(&values, 1);
    field::field(lent(&bytes, count), values[0])
}

// `compare`: its two sides.
pub fn comparison_of(c: Command) -> vault::Comparison
    ensures comparison { result ≡ compared (take c.left.count (bytes_from c.left.values 0)) (take c.right.count (bytes_from c.right.values 0)) }
{
    let left = c.left;
    let right = c.right;
    let values = left.values;
    let others = right.values;
    let a = bytes_of(&values, 0);
    let b = bytes_of(&others, 0);
    vault::compare(lent(&a, left.count), lent(&b, right.count))
}
