// The four numbers of a cell.
// The module is private: its functions are helpers of the calls, which meet what they require.
ghost use Rattle.std.specs.Prelude.{◌≡◌};
ghost use Rattle.numbers.specs.Cells.{cell_list, signed_bits, value_list};
ghost use Rattle.numbers.specs.Steps.{Finite, FiniteCell};

use crate::what;
use cell::Value;
use header::Refusal;

// A signed number as 64 bits.
#[tactic(auto, using(crate::proofs::CellLaws::bits_are))]
fn signed_bits(z: i64) -> u64
    ensures { result ≡ signed_bits z }
{
    z.cast_unsigned()
}

// A value by its kind.
pub fn value_list(value: Value) -> [u64; 4]
    requires { Finite value }
    ensures { result ≡ value_list value }
{
    match value {
        Value::Blank => [what::BLANK, 0, 0, 0],
        Value::Short(z) => [what::SHORT, signed_bits(i64::from(z)), 0, 0],
        Value::Long(z) => [what::LONG, signed_bits(i64::from(z)), 0, 0],
        Value::Date(day) => [what::DATE, u64::from(day), 0, 0],
        Value::Number(x) => [what::NUMBER, x.to_bits(), 0, 0],
        Value::Logical(b) => [what::LOGICAL, u64::from(b), 0, 0],
        Value::Text { start, len } => [what::TEXT, start as u64, len as u64, 0],
    }
}

// A cell among others: a refusal's number is its value.
pub fn cell_list(cell: Result<Value, Refusal>) -> [u64; 4]
    requires { FiniteCell cell }
    ensures { result ≡ cell_list cell }
{
    match cell {
        Ok(value) => value_list(value),
        Err(refusal) => [what::REFUSED, u64::from(u8::from(refusal)), 0, 0],
    }
}
