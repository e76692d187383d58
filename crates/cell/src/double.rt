// The bits of a double, as a cell stores them and as IEEE 754 reads them.
// The module is private: its functions are helpers of reading and writing a number.
ghost use Rattle.std.specs.Prelude.{◌≡◌, true};
ghost use Rattle.std.specs.Float.{binary64};
ghost use Rattle.std.specs.Float.Ieee.{of_bits};
ghost use Rattle.std.specs.Float.Ieee.Scale.{finite};
ghost use Rattle.words.specs.Signed.{half};
ghost use Rattle.cell.specs.Doubles.{meant_bits, stored_double};

use crate::limits;

// The bits that a stored number means: top bit 1: cleared; top bit 0: all 64 bits complemented.
#[tactic(auto, using(crate::proofs::StoredLaws::meant_from, crate::proofs::StoredLaws::meant_below))]
pub fn bits_of(n: u64) -> u64
    ensures { result ≡ meant_bits (half 8) n }
{
    if limits::NUMBER_TOP <= n {
        return n - limits::NUMBER_TOP;
    }
    !n
}

// The number that a finite double is stored as. Its sign is a bit, which negative zero has too.
// A helper of `form::number_form` and no call for users: its caller has tested the double.
#[tactic(auto, using(crate::proofs::StoredLaws::stored), unfolding(crate::specs::Doubles::stored_double))]
pub fn stored_of(x: f64) -> u64
    requires { finite x ≡ true }
    ensures { result ≡ stored_double 8 x }
{
    let bits = x.to_bits();
    if limits::NUMBER_TOP <= bits {
        return !bits;
    }
    bits + limits::NUMBER_TOP
}

// Whether these are the bits of a finite number: a test of bits, which no not-a-number gets through.
#[tactic(auto, using(crate::proofs::DoubleLaws::finite_is))]
pub fn is_finite(bits: u64) -> bool
    ensures { result ≡ finite (of_bits binary64 bits) }
{
    bits % limits::NUMBER_TOP < limits::INFINITE
}
