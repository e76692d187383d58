// What the bytes of a cell mean, kind by kind.
// Its functions are helpers of `cell::read_in`, `cell_at` also of the crates above, which meet what they require.
ghost use Rattle.std.specs.Prelude.{◌≡◌, ◌+◌, ◌≤◌, ◌<◌, length};
ghost use Rattle.words.specs.Signed.{complemented, half, signed};
ghost use Rattle.words.specs.Zeros.{before_zero};
ghost use Rattle.header.specs.Kinds.{Permitted};
ghost use Rattle.cell.specs.Doubles.{double_of};
ghost use Rattle.cell.specs.Reading.{cell_at, date_cell, logical_cell, number_cell, text_with};

use crate::value::Value;
use crate::{double, limits};
use header::{FieldKind, Refusal};

// A short of two bytes: the top bit complemented, then signed.
fn short_of(n: u64) -> i16
    requires { n < 65536 }
    ensures { result ≡ signed (half 2) (complemented (half 2) n) }
{
    (n as i64 - limits::SHORT_TOP) as i16
}

// A long of four bytes, in the same way.
fn long_of(n: u64) -> i32
    requires { n < 4294967296 }
    ensures { result ≡ signed (half 4) (complemented (half 4) n) }
{
    (n as i64 - limits::LONG_TOP) as i32
}

// A date: the number of a long, from LEAST_DATE to MOST_DATE.
#[tactic(auto, using(crate::proofs::ReadingLaws::dates))]
fn date_of(n: u64) -> Result<Value, Refusal>
    requires { n < 4294967296 }
    ensures { result ≡ date_cell (signed (half 4) (complemented (half 4) n)) }
{
    if n < limits::DATE_TOP {
        return Err(Refusal::NoMeaning);
    }
    let day = n - limits::DATE_TOP;
    if day < limits::LEAST_DATE {
        return Err(Refusal::NoMeaning);
    }
    if limits::MOST_DATE < day {
        return Err(Refusal::NoMeaning);
    }
    Ok(Value::Date(day as u32))
}

// A number or currency: finite doubles only.
#[tactic(auto, using(crate::proofs::ReadingLaws::numbers), unfolding(crate::specs::Doubles::double_of))]
fn number_of(n: u64) -> Result<Value, Refusal>
    ensures { result ≡ number_cell (double_of 8 n) }
{
    let bits = double::bits_of(n);
    if !double::is_finite(bits) {
        return Err(Refusal::NoMeaning);
    }
    Ok(Value::Number(f64::from_bits(bits)))
}

// A logical: FALSE or TRUE.
#[tactic(auto, unfolding(crate::specs::Reading::logical_cell))]
fn logical_of(n: u64) -> Result<Value, Refusal>
    ensures { result ≡ logical_cell n }
{
    if n == limits::FALSE {
        return Ok(Value::Logical(false));
    }
    if n == limits::TRUE {
        return Ok(Value::Logical(true));
    }
    Err(Refusal::NoMeaning)
}

// The bytes before the first zero, where nothing but zeros follows.
#[tactic(auto, using(crate::proofs::ReadingLaws::texts))]
fn text_at(t: &[u8], at: usize, width: usize) -> Result<Value, Refusal>
    requires { at + width ≤ length t.now }
    ensures { result ≡ text_with t.now at width (before_zero t.now at width) }
{
    let len = words::before_zero(t, at, width);
    if !words::all_zero(t, at + len, width - len) {
        return Err(Refusal::NoMeaning);
    }
    Ok(Value::Text { start: at, len })
}

// The meaning of the `width` bytes at `at`. The last arm is not reached: blobs are refused first.
// A helper of `read_in` and of the crates above, and no call for users: its caller has found the cell in the table.
#[tactic(auto, using(crate::proofs::ReadingLaws::cells), unfolding(header::specs::Kinds::Permitted))]
pub fn cell_at(t: &[u8], kind: FieldKind, at: usize, width: usize) -> Result<Value, Refusal>
    requires { Permitted kind width × (at + width ≤ length t.now) }
    ensures { result ≡ cell_at kind t.now at width }
{
    if kind.is_blob() {
        return Err(Refusal::BlobCell);
    }
    if words::all_zero(t, at, width) {
        return Ok(Value::Blank);
    }
    match kind {
        FieldKind::Text => text_at(t, at, width),
        FieldKind::Date => date_of(words::number(t, at, FieldKind::DATE_WIDTH)),
        FieldKind::Short => Ok(Value::Short(short_of(words::number(
            t,
            at,
            FieldKind::SHORT_WIDTH,
        )))),
        FieldKind::Long => Ok(Value::Long(long_of(words::number(t, at, FieldKind::LONG_WIDTH)))),
        FieldKind::Number => number_of(words::eight(t, at)),
        FieldKind::Logical => logical_of(words::number(t, at, FieldKind::LOGICAL_WIDTH)),
        FieldKind::Blob => Err(Refusal::BlobCell),
    }
}
