// Table rules 2 to 6 as tests of the stored numbers, and the limits that they name. The module is private: its
// functions are helpers of the two that try the rules, `front::limits` and `answer::rest`, which meet what they
// require. Those for 23 and 26 serve the index too.
ghost use Rattle.std.specs.Prelude.{◌≡◌, ◌+◌, ◌≤◌, ltb, length};
ghost use Rattle.header.specs.Stored.{names_at};
ghost use Rattle.header.specs.Header.{is_table, keyed_right, known_version, length_right, limits_kept};
ghost use Rattle.header.specs.Header.{most_fields, unencrypted};

use crate::stored::{Stored, block_size, names_at};

// Byte 04 of a keyed table and of one without key; the sort byte of plain byte order.
const KEYED: u8 = 0;

const UNKEYED: u8 = 2;

const PLAIN_ORDER: u8 = 0;
// The limits of rules 1, 3 and 5.
pub const LEAST_LENGTH: usize = 120;

const LEAST_HEADER: u16 = 120;

const LEAST_VERSION: u8 = 0x03;

const MOST_VERSION: u8 = 0x0b;

pub const MOST_UNITS: u8 = 4;

pub const BLOCK_HEAD: u32 = 6;

pub const MOST_BLOCKS: u16 = 32767;

const MOST_FIELDS: u16 = 255;

const MOST_RECORDS: u32 = 2147483647;

// Rule 2.
pub fn is_table(s: Stored) -> bool
    ensures { result ≡ is_table s }
{
    (s.kind == KEYED) | (s.kind == UNKEYED)
}

// Rule 3, and 23 of an index.
pub fn known_version(version: u8) -> bool
    ensures { result ≡ known_version version }
{
    (LEAST_VERSION <= version) & (version <= MOST_VERSION)
}

// Rule 4, of the four bytes at a place. A helper of `front::limits` and no call for users: its caller has them there.
pub fn is_unencrypted(t: &[u8], at: usize) -> bool
    requires { at + 4 ≤ length t.now }
    ensures { result ≡ unencrypted t.now at }
{
    words::all_zero(t, at, 4)
}

// Rule 5, of the key fields.
fn is_keyed_right(s: Stored) -> bool
    ensures { result ≡ keyed_right s }
{
    if 1 <= s.key_fields {
        return (s.kind == KEYED) & (s.sort == PLAIN_ORDER);
    }
    s.kind != KEYED
}

// Rule 5.
pub fn limits_kept(s: Stored) -> bool
    ensures { result ≡ limits_kept s }
{
    let block = block_size(s.units);
    let size = s.record_size as u32;
    (1 <= s.units)
        & (s.units <= MOST_UNITS)
        & (1 <= s.record_size)
        & (size + BLOCK_HEAD <= block)
        & (LEAST_HEADER <= s.header_size)
        & (s.blocks <= MOST_BLOCKS)
        & (1 <= s.fields)
        & (s.fields <= MOST_FIELDS)
        & (s.key_fields <= s.fields)
        & (s.records <= MOST_RECORDS)
        & is_keyed_right(s)
}

// Rule 6, and 26 of an index, of a file's length.
pub fn is_length_right(long: usize, header: u16, blocks: u16, units: u8) -> bool
    ensures { result ≡ length_right long header blocks units }
{
    let block = block_size(units) as usize;
    long == header as usize + blocks as usize * block
}

// Whether the names begin inside the header: where they don't, rule 7 is broken and no field is read. A helper of
// `answer::rest` and no call for users: its caller has tried rule 5.
pub fn has_room(s: Stored) -> bool
    requires { s.fields ≤ most_fields }
    ensures { result ≡ ltb (names_at s) s.header_size }
{
    names_at(s) < s.header_size
}
