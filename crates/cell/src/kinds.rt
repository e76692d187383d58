// Which kind a value is of.
// The module is private: its functions are helpers of `cell::write`.
ghost use Rattle.std.specs.Prelude.{◌≡◌, ◌+◌, leb, length};
ghost use Rattle.cell.specs.Values.{content_of};
ghost use Rattle.cell.specs.Writing.{of_kind};

use crate::value::Value;
use header::FieldKind;

// Whether bytes have the part of this start and length.
fn is_part(s: &[u8], start: usize, len: usize) -> bool
    ensures { result ≡ leb (start + len) (length s.now) }
{
    start.checked_add(len).is_some_and(|end| end <= s.len())
}

// Whether a value is of a kind; a text must be a part of the bytes lent for it.
#[tactic(auto, using(crate::proofs::ValueKinds::kind_tests), unfolding(crate::specs::Values::content_of))]
pub fn is_of_kind(kind: FieldKind, value: Value, text: &[u8]) -> bool
    ensures { result ≡ of_kind (content_of text.now value) kind }
{
    match value {
        Value::Blank => true,
        Value::Short(_) => kind == FieldKind::Short,
        Value::Long(_) => kind == FieldKind::Long,
        Value::Date(_) => kind == FieldKind::Date,
        Value::Number(_) => kind == FieldKind::Number,
        Value::Logical(_) => kind == FieldKind::Logical,
        Value::Text { start, len } => is_part(text, start, len) & (kind == FieldKind::Text),
    }
}
