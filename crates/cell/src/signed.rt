// Signed numbers with the top bit of their width added: none is below 0.
// Helpers of `cell::write` and of the crates above.
ghost use Rattle.std.specs.Prelude.{◌≡◌};
ghost use Rattle.words.specs.Signed.{half, shifted};

use crate::limits;

// A short with its top bit added.
pub fn shifted_short(z: i16) -> u64
    ensures { result ≡ shifted (half 2) z }
{
    (z as i64 + limits::SHORT_TOP) as u64
}

// A long, in the same way.
pub fn shifted_long(z: i32) -> u64
    ensures { result ≡ shifted (half 4) z }
{
    (z as i64 + limits::LONG_TOP) as u64
}
