// One cell: read by block, place and field; its text as the part of the table it is; one value written.
#![tactic(auto)]

mod decode;
mod double;
mod form;
mod kinds;
mod limits;
mod locate;
mod put;
mod signed;
mod value;

ghost use Rattle.std.specs.Prelude.{◌≡◌};
ghost use Rattle.words.specs.Order.{behind};
ghost use Rattle.cell.specs.Values.{answer_of, text_of};
ghost use Rattle.cell.specs.Reading.{block_cell, cell_of, read_of, text_start};
ghost use Rattle.cell.specs.Writing.{GivesBack, written_of};

use blocks::BlockFile;
pub use decode::cell_at;
use header::{FieldKind, Refusal, Table};
pub use limits::{INFINITE, LONG_TOP, NUMBER_TOP, SHORT_TOP};
pub use locate::{field_in, place_in};
pub use signed::{shifted_long, shifted_short};
pub use value::Value;

// The cell at a block, a place (from 0) and a field (from 1) of any bytes: its value, or the first of
// 1 to 7, 13, 9, 13, 12 and 11 that applies. A free block is read like a used one.
pub fn read(table: &[u8], block: usize, place: usize, field: usize) -> Result<Value, Refusal>
    ensures value { result ≡ cell_of table.now block place field }
    ensures result_value { answer_of table.now result ≡ read_of table.now block place field }
{
    let opened = Table::open(table)?;
    read_in(&opened, block, place, field)
}

// The cell of a table whose header is accepted: what `read` answers once rules 1 to 7 are kept.
// A helper of the crates above and no call for users: its caller has opened the table.
pub fn read_in(table: &Table, block: usize, place: usize, field: usize) -> Result<Value, Refusal>
    ensures { result ≡ block_cell table.now.bytes.now table.now.header block place field }
{
    let found = locate::field_in(table, block, field).ok_or(Refusal::BadArgument)?;
    let file = BlockFile::of(table);
    let at = locate::place_in(&file, block, place, found.offset)?;
    decode::cell_at(table.bytes, found.kind, at, found.width as usize)
}

// The text of a cell as the part of the table it is, bytes and address; empty where `read` gives no text.
pub fn text(table: &[u8], block: usize, place: usize, field: usize) -> &[u8]
    ensures result_value { result.now ≡ text_of (read_of table.now block place field).1 }
    ensures ref_ptr_value { result.ref_ptr ≡ behind table.entry.ref_ptr (text_start table.now block place field) }
{
    let Ok(value) = read(table, block, place, field) else {
        return &table[..0];
    };
    let Value::Text { start, len } = value else {
        return &table[..0];
    };
    &table[start..start + len]
}

// Writes a value as a cell of this type code and width to the front of a buffer. A text is the part of
// `text` that the value names; 13 where there is no such part. Refuses with the first of 13, 12, 14 and 11 that
// applies, and then the buffer is as it was. Behind the width no byte is touched. Where the value is written the first
// `width` bytes read as it, a double bit by bit.
pub fn write(
    code: u8,
    width: usize,
    value: Value,
    text: &[u8],
    buffer: &mut [u8],
) -> Result<(), Refusal>
    ensures buffer_after { (result, buffer.new) ≡ written_of code width text.now value buffer.old }
    ensures gives_back { GivesBack code width text.now value buffer.old (result, buffer.new) }
{
    let kind = FieldKind::of(code, width).ok_or(Refusal::BadArgument)?;
    if kind.is_blob() {
        return Err(Refusal::BlobCell);
    }
    if !kinds::is_of_kind(kind, value, text) {
        return Err(Refusal::BadArgument);
    }
    if buffer.len() < width {
        return Err(Refusal::ShortBuffer);
    }
    put::put_value(value, width, text, buffer)
}
