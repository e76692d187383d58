// The number that a cell stores for a value, where there is one, kind by kind.
// The module is private: its functions are helpers of `cell::write`.
ghost use Rattle.std.specs.Prelude.{◌≡◌};
ghost use Rattle.words.specs.Numbers.{digits};
ghost use Rattle.cell.specs.Writing.{bytes, date_form, logical_byte, number_form, signed_form};
ghost use Rattle.cell.specs.Steps.{coded_form};

use crate::{double, limits, signed};

// A short: the top bit added. The least short would be the blank.
pub fn short_form(z: i16) -> Option<u64>
    ensures { coded_form 2 result ≡ signed_form 2 z }
{
    if z == limits::LEAST_SHORT {
        return None;
    }
    Some(signed::shifted_short(z))
}

// A long, in the same way.
pub fn long_form(z: i32) -> Option<u64>
    ensures { coded_form 4 result ≡ signed_form 4 z }
{
    if z == limits::LEAST_LONG {
        return None;
    }
    Some(signed::shifted_long(z))
}

// A date: a day from LEAST_DATE to MOST_DATE, stored as a long.
#[tactic(auto, unfolding(crate::specs::Steps::coded_form, crate::specs::Writing::date_form))]
pub fn date_form(day: u32) -> Option<u64>
    ensures { coded_form 4 result ≡ date_form 4 day }
{
    let d = day as u64;
    if d < limits::LEAST_DATE {
        return None;
    }
    if limits::MOST_DATE < d {
        return None;
    }
    Some(d + limits::DATE_TOP)
}

// A double: every finite one. Only of one that is no not-a-number are the bits asked for.
#[tactic(auto, using(crate::proofs::StoredLaws::forms), unfolding(crate::specs::Steps::coded_form))]
pub fn number_form(x: f64) -> Option<u64>
    ensures { coded_form 8 result ≡ number_form 8 x }
{
    if x.is_nan() {
        return None;
    }
    if !double::is_finite(x.to_bits()) {
        return None;
    }
    Some(double::stored_of(x))
}

// A logical always has a form.
#[tactic(auto, unfolding(crate::specs::Steps::coded_form))]
pub fn logical_form(b: bool) -> Option<u64>
    ensures { coded_form 1 result ≡ bytes (digits 1 (logical_byte b)) }
{
    if b {
        return Some(limits::TRUE);
    }
    Some(limits::FALSE)
}
