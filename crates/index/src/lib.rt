// The index file of a table: index rules 21 to 26 in one call, and the walk from its root to a record.
#![tactic(auto)]

mod entries;
mod rules;
mod stored;
mod walking;

ghost use Rattle.std.specs.Prelude.{◌≡◌, ◌≤◌};
ghost use Rattle.header.specs.Header.{most_units};
ghost use Rattle.index.specs.Header.{accepted_of, index_of};

use crate::stored::Stored;
use blocks::Shape;
pub use entries::{block_named, entries_in};
use header::Refusal;
pub use walking::{Walked, walk};

// The numbers of an index's header.
#[derive(Clone, Copy)]
pub struct IndexHeader {
    // The file's shape; its records are the entries.
    pub shape: Shape,
    // The block at which a walk begins, 0 where the index has none, and the levels of index blocks.
    pub root: u16,
    pub levels: u8,
}

// The header of an index to a table with keys of this length: its numbers, or the first of 21, 22, 23, 25 and 26 that
// any bytes break.
pub fn read(index: &[u8], key_length: u16) -> Result<IndexHeader, Refusal>
    ensures { result ≡ index_of index.now key_length }
{
    if index.len() < rules::LEAST_LENGTH {
        return Err(Refusal::IndexTooShort);
    }
    let s = stored::read_stored(index);
    if !rules::is_index(s) {
        return Err(Refusal::NotAnIndex);
    }
    if !header::known_version(s.version) {
        return Err(Refusal::IndexVersion);
    }
    if !rules::limits_kept(s, key_length) {
        return Err(Refusal::IndexLimit);
    }
    if !header::is_length_right(index.len(), s.header_size, s.blocks, s.units) {
        return Err(Refusal::IndexLength);
    }
    Ok(accepted(s))
}

// The numbers of a header that keeps every rule.
fn accepted(s: Stored) -> IndexHeader
    requires { s.units ≤ most_units }
    ensures { result ≡ accepted_of s }
{
    IndexHeader {
        shape: Shape {
            header_size: s.header_size,
            block_size: header::block_bytes(s.units),
            blocks: s.blocks,
            record_size: s.record_size,
        },
        root: s.root,
        levels: s.levels,
    }
}
