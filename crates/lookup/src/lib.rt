// What both ways to find a key share: what they answer, whether a key fits a table, and the first record with it in a
// block.
#![tactic(auto)]

mod block;
mod found;

ghost use Rattle.std.specs.Prelude.{◌≡◌};
ghost use Rattle.lookup.specs.Sought.{key_fits};

pub use block::find_in_block;
pub use found::Found;
use header::Header;

// Whether the table has key fields, and keys of this length.
pub fn key_fits(h: &Header, key: &[u8]) -> bool
    ensures { result ≡ key_fits h.now key.now }
{
    (1 <= h.key_fields) & (key.len() == h.key_length as usize)
}
