// A memo or another blob of a table: in which file it stands and where, and its bytes as the part of that file.
#![tactic(auto)]

mod answer;
mod leader;
mod mb;

ghost use Rattle.std.specs.Prelude.{◌≡◌};
ghost use Rattle.blob.specs.Blob.{blob_of, block_blob, find_numbers, part_numbers, read_address, read_bytes};

pub use answer::Blob;
use blocks::BlockFile;
use header::{Refusal, Table};

// The blob at a block, a place (from 0) and a field (from 1) of any bytes: blank, a part of the table, a part of the MB
// file, or the first of 1 to 7, 13, 9, 13 and 18 that applies. A free block is read like a used one.
pub fn find(
    table: &[u8],
    mb: &[u8],
    block: usize,
    place: usize,
    field: usize,
) -> Result<Blob, Refusal>
    ensures value { result ≡ blob_of table.now mb.now block place field }
    ensures result_value { part_numbers result ≡ find_numbers table.now mb.now block place field }
{
    find_in(&Table::open(table)?, mb, block, place, field)
}

// The blob of a table whose header is accepted: what `find` answers once rules 1 to 7 are kept.
// A helper of the crates above and no call for users: its caller has opened the table.
pub fn find_in(
    table: &Table,
    mb: &[u8],
    block: usize,
    place: usize,
    field: usize,
) -> Result<Blob, Refusal>
    ensures { result ≡ block_blob table.now.bytes.now mb.now table.now.header block place field }
{
    let found = cell::field_in(table, block, field).ok_or(Refusal::BadArgument)?;
    if !found.kind.is_blob() {
        return Err(Refusal::BadArgument);
    }
    let at = cell::place_in(&BlockFile::of(table), block, place, found.offset)?;
    leader::blob_at(table.bytes, mb, at, found.width as usize)
}

// The bytes of a blob as the part of the table or of the MB file that they are, bytes and address; empty where `find`
// finds it blank or refuses.
pub fn read<'a>(table: &'a [u8], mb: &'a [u8], block: usize, place: usize, field: usize) -> &'a [u8]
    ensures result_value { result.now ≡ read_bytes table.entry mb.entry block place field }
    ensures ref_ptr_value { result.ref_ptr ≡ read_address table.entry mb.entry block place field }
{
    match find(table, mb, block, place, field) {
        Ok(Blob::Blank) => &table[0..0],
        Ok(Blob::InTable(part)) => &table[part.start..part.start + part.len],
        Ok(Blob::InMb(part)) => &mb[part.start..part.start + part.len],
        Err(_) => &table[0..0],
    }
}
