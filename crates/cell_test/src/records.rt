// Every cell of a table, record by record: ` 1.0|text 3 at 1286 [cog]|short 12`. A block ends at the place that is
// refused, ` 1.2!13`. A refused table is shown as ` !7`.
use crate::cells::show;
use cell::Value;
use header::Refusal;
use test_lines::print::{letter, number, refused};

// More places than any block has.
const PLACES: usize = 4096;

// The refusal of a place that is no record's, by the cell of its first field.
fn no_record(cell: Result<Value, Refusal>) -> Option<Refusal> {
    match cell {
        Err(Refusal::WrongCount) => Some(Refusal::WrongCount),
        Err(Refusal::BadArgument) => Some(Refusal::BadArgument),
        _ => None,
    }
}

// The name of a place.
fn begin(block: usize, place: usize) {
    letter(b' ');
    number(block as u64);
    letter(b'.');
    number(place as u64);
}

// The cells of a record.
fn record(table: &[u8], block: usize, place: usize, fields: u16) {
    for f in 1..=fields {
        show(b'|', table, block, place, f as usize);
    }
}

// The records of a block.
fn records(table: &[u8], block: usize, fields: u16) {
    for place in 0..PLACES {
        begin(block, place);
        if let Some(refusal) = no_record(cell::read(table, block, place, 1)) {
            refused(b"!", refusal);
            return;
        }
        record(table, block, place, fields);
    }
}

// The records of every block, used or free.
pub fn list(table: &[u8]) {
    match header::read(table) {
        Ok(h) => {
            for block in 1..=h.blocks {
                records(table, block as usize, h.fields);
            }
        }
        Err(refusal) => {
            letter(b' ');
            refused(b"!", refusal);
        }
    }
}
