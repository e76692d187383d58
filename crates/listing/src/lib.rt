// The listing of a table: its first line, and a line for each record. What a program prints of any bytes is `head` and,
// for each record in chain order, `line`.
#![tactic(auto)]

mod cells;

ghost use Rattle.std.specs.Prelude.{◌≡◌};
ghost use Rattle.io.specs.Counts.{IsPrefixLen};
ghost use Rattle.buffer.specs.Pieces.{AtFront};
ghost use Rattle.listing.specs.Listing.{head_of, head_text, line_of, listed_count, refused_text};

use buffer::{put, put_byte, put_decimal};
use header::{Refusal, Table};

// The longest table that is listed, in bytes.
pub const MOST_BYTES: usize = 65536;

// A mark for each block of any table.
const MARKS: usize = 32767;

// The first line: its length, and how many records' lines come after it; none with a refusal.
#[derive(Clone, Copy)]
pub struct HeadLine {
    pub len: usize,
    pub records: u32,
}

// Puts the first line of any bytes' listing to the front of a buffer: the numbers of fields, key fields and records;
// or the refusal, 14 for a table of more than MOST_BYTES, else the table check's. Behind the line no byte is touched.
pub fn head(table: &[u8], out: &mut [u8; 65536]) -> HeadLine
    ensures prefix_len { IsPrefixLen result.len out.new }
    ensures at_front { AtFront out.old (head_of table.now) out.new result.len }
    ensures records_value { result.records ≡ listed_count table.now }
{
    if MOST_BYTES < table.len() {
        return refused(Refusal::ShortBuffer, out);
    }
    let mut marks = [0u8; MARKS];
    match table::read(table, &mut marks) {
        Ok(opened) => {
            let h = &opened.header;
            HeadLine {
                len: put_head(out, h.fields, h.key_fields, h.records),
                records: h.records,
            }
        }
        Err(refusal) => refused(refusal, out),
    }
}

// The line of a refusal.
fn refused(refusal: Refusal, out: &mut [u8; 65536]) -> HeadLine
    ensures prefix_len { IsPrefixLen result.len out.new }
    ensures at_front { AtFront out.old (refused_text refusal) out.new result.len }
    ensures records_value { result.records ≡ 0 }
{
    let number_at = put(out, 0, b"refused ");
    let end = put_decimal(out, number_at, u64::from(u8::from(refusal)));
    let len = put_byte(out, end, b'\n');
    HeadLine { len, records: 0 }
}

// The head line.
fn put_head(out: &mut [u8; 65536], fields: u16, keys: u16, records: u32) -> usize
    ensures prefix_len { IsPrefixLen result out.new }
    ensures at_front { AtFront out.old (head_text fields keys records) out.new result }
{
    let fields_at = put(out, 0, b"fields ");
    let fields_end = put_decimal(out, fields_at, fields as u64);
    let keys_at = put(out, fields_end, b" key ");
    let keys_end = put_decimal(out, keys_at, keys as u64);
    let records_at = put(out, keys_end, b" records ");
    let end = put_decimal(out, records_at, records as u64);
    put_byte(out, end, b'\n')
}

// Puts the line of the record at a block and a place (from 0) of any bytes to the front of a buffer: block.place, then
// each cell after a bar. Behind the line no byte is touched.
pub fn line(table: &[u8], block: u16, place: u16, out: &mut [u8; 65536]) -> usize
    ensures prefix_len { IsPrefixLen result out.new }
    ensures at_front { AtFront out.old (line_of table.now block place) out.new result }
{
    let block_end = put_decimal(out, 0, block as u64);
    let place_at = put_byte(out, block_end, b'.');
    let cells_at = put_decimal(out, place_at, place as u64);
    let Ok(opened) = Table::open(table) else {
        return put_byte(out, cells_at, b'\n');
    };
    let end = cells::put_cells(out, cells_at, &opened, block as usize, place as usize);
    put_byte(out, end, b'\n')
}
