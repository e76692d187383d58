// A value that a program gives by numbers, written as a cell.
ghost use Rattle.std.specs.Prelude.{◌≡◌, ℕ, List, from_bits};
ghost use Rattle.std.specs.Float.{binary64};
ghost use Rattle.cell.specs.Writing.{write_of};
ghost use Rattle.numbers.specs.Given.{content_given, date_given, logical_given, long_given, short_given, write_given};
ghost use Rattle.numbers.specs.Steps.{content_if};

use crate::{lent, what};
use cell::Value;
use header::{FieldKind, Refusal};

// A signed number of 64 bits as a short, where it is one.
#[tactic(auto, using(crate::proofs::GivenLaws::shorts))]
fn short_given(value: u64) -> Option<Value>
    ensures { (text : List ℕ) → content_if text result ≡ short_given value }
{
    i16::try_from(value.cast_signed()).ok().map(Value::Short)
}

// The same as a long.
#[tactic(auto, using(crate::proofs::GivenLaws::longs))]
fn long_given(value: u64) -> Option<Value>
    ensures { (text : List ℕ) → content_if text result ≡ long_given value }
{
    i32::try_from(value.cast_signed()).ok().map(Value::Long)
}

#[tactic(auto, using(crate::proofs::GivenLaws::days))]
fn date_given(value: u64) -> Option<Value>
    ensures { (text : List ℕ) → content_if text result ≡ date_given value }
{
    u32::try_from(value).ok().map(Value::Date)
}

// The double of any 64 bits: without the sign, which is the top bit, a pattern above infinity's is a not-a-number's.
// All of those are one.
#[tactic(auto, using(crate::proofs::GivenLaws::not_numbers))]
fn double_of(bits: u64) -> f64
    ensures { result ≡ from_bits binary64 bits }
{
    if cell::INFINITE < bits % cell::NUMBER_TOP {
        return f64::NAN;
    }
    f64::from_bits(bits)
}

#[tactic(auto, using(crate::proofs::GivenLaws::logicals))]
fn logical_given(value: u64) -> Option<Value>
    ensures { (text : List ℕ) → content_if text result ≡ logical_given value }
{
    if 1 < value {
        return None;
    }
    Some(Value::Logical(value == 1))
}

// The value by what it is, where it is one; a text is all the lent bytes.
fn value_given(what: u64, value: u64, text: &[u8]) -> Option<Value>
    ensures { content_if text.now result ≡ content_given what value text.now }
{
    match what {
        what::BLANK => Some(Value::Blank),
        what::SHORT => short_given(value),
        what::LONG => long_given(value),
        what::DATE => date_given(value),
        what::NUMBER => Some(Value::Number(double_of(value))),
        what::LOGICAL => logical_given(value),
        what::TEXT => Some(Value::Text {
            start: 0,
            len: text.len(),
        }),
        _ => None,
    }
}

// Writes a value as a cell of this type code and width to the front of a buffer; or the first of 13, 12, 14 and 11 that
// applies, and then the buffer is as it was. What is no value is 13, where the code is no blob's.
#[tactic(auto, using(crate::proofs::GivenLaws::unwritten), unfolding(crate::specs::Steps::content_if))]
fn write_value(
    code: u64,
    width: usize,
    value: Option<Value>,
    text: &[u8],
    out: &mut [u8],
) -> Result<(), Refusal>
    ensures { (result, out.new) ≡ write_of code width (content_if text.now value) out.old }
{
    let code = u8::try_from(code).map_err(|_| Refusal::BadArgument)?;
    if let Some(value) = value {
        return cell::write(code, width, value, text, out);
    }
    let kind = FieldKind::of(code, width).ok_or(Refusal::BadArgument)?;
    if kind.is_blob() {
        return Err(Refusal::BlobCell);
    }
    Err(Refusal::BadArgument)
}

// Writes a value that is given by numbers: 0, or the number of the refusal, of 13, 12, 14 and 11.
#[tactic(auto, using(crate::proofs::GivenLaws::as_number), unfolding(crate::specs::Given::write_given))]
pub fn write(code: u64, width: usize, what: u64, value: u64, text: &[u8], out: &mut [u8]) -> u8
    ensures { (result, out.new) ≡ write_given code width what value text.now out.old }
{
    lent::number_of(write_value(code, width, value_given(what, value, text), text, out))
}
