// Index rules 22 and 25 as tests of the stored numbers, and the limits that they name.
// The module is private: its functions are helpers of `index::read`.
ghost use Rattle.std.specs.Prelude.{◌≡◌};
ghost use Rattle.index.specs.Header.{is_index, limits_kept, root_right};

use crate::stored::Stored;

// The limits of rules 21, 22 and 25.
pub const LEAST_LENGTH: usize = 88;

const LEAST_HEADER: u16 = 88;

// Byte 04 of an index.
const INDEX: u8 = 1;

// An entry's three numbers behind its key, in bytes.
const ENTRY_NUMBERS: u32 = 6;

const MOST_LEVELS: u8 = 8;

// Rule 22.
pub fn is_index(s: Stored) -> bool
    ensures { result ≡ is_index s }
{
    s.kind == INDEX
}

// Rule 25, of the root.
fn root_right(s: Stored) -> bool
    ensures { result ≡ root_right s }
{
    let none = (s.root == 0) & (s.levels == 0);
    let in_file = (1 <= s.root) & (s.root <= s.blocks);
    none | (in_file & (1 <= s.levels) & (s.levels <= MOST_LEVELS))
}

// Rule 25, for keys of a length.
pub fn limits_kept(s: Stored, key_length: u16) -> bool
    ensures { result ≡ limits_kept key_length s }
{
    let block = header::block_size(s.units);
    let size = s.record_size as u32;
    (size == key_length as u32 + ENTRY_NUMBERS)
        & (LEAST_HEADER <= s.header_size)
        & (1 <= s.units)
        & (s.units <= header::MOST_UNITS)
        & (s.blocks <= header::MOST_BLOCKS)
        & (size + header::BLOCK_HEAD <= block)
        & root_right(s)
}
