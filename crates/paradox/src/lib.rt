// The library for C: the calls of the crates below, with numbers and lent slices only.
#![tactic(auto)]

ghost use Rattle.std.specs.Prelude.{◌≡◌, length};
ghost use Rattle.header.specs.Refusals.{answer_number};
ghost use Rattle.table.specs.Table.{table_answer, table_marks};
ghost use Rattle.lookup.specs.Found.{lookup_of};
ghost use Rattle.scan.specs.Scan.{scan_marks};
ghost use Rattle.pair.specs.Pair.{pair_answer, pair_marks};
ghost use Rattle.numbers.specs.Header.{field_numbers, header_numbers};
ghost use Rattle.numbers.specs.Cells.{cell_numbers, record_numbers};
ghost use Rattle.numbers.specs.Blob.{blob_in};
ghost use Rattle.numbers.specs.Cursor.{start_lent, step_lent};
ghost use Rattle.numbers.specs.Given.{write_given};
ghost use Rattle.paradox.specs.Packing.{ScanUnpacked, Unpacked, WalkUnpacked, packed, packed_scan, packed_walk};

use header::Refusal;
use lookup::Found;
use numbers::number_of;

// Checks a table: 0, or the refusal's number. The mark buffer holds what the table check leaves in it.
#[unsafe(no_mangle)]
pub extern "C" fn paradox_table_check(table: &[u8], marks: &mut [u8]) -> u32
    ensures value { result ≡ answer_number (table_answer table.now (length marks.old)) }
    ensures marks_after { marks.new ≡ table_marks table.now marks.old }
{
    u32::from(number_of(table::check(table, marks)))
}

// Checks a table with its index: 0, or the refusal's number. The mark buffer holds what the table check leaves in it.
#[unsafe(no_mangle)]
pub extern "C" fn paradox_pair_check(table: &[u8], index: &[u8], marks: &mut [u8]) -> u32
    ensures value { result ≡ answer_number (pair_answer table.now index.now (length marks.old)) }
    ensures marks_after { marks.new ≡ pair_marks table.now marks.old }
{
    u32::from(number_of(pair::check(table, index, marks)))
}

// Looks a key up by a scan of every record: the lookup's numbers, packed. The mark buffer holds what the table check
// leaves in it.
#[unsafe(no_mangle)]
pub extern "C" fn paradox_scan(table: &[u8], key: &[u8], marks: &mut [u8]) -> u64
    ensures value { result ≡ packed_scan table.now key.now (length marks.old) }
    ensures scan_unpacked { ScanUnpacked table.now key.now (length marks.old) result }
    ensures marks_after { marks.new ≡ scan_marks table.now marks.old }
{
    pack(scan::find(table, key, marks), 0)
}

// Looks a key up by a walk down the index: the lookup's numbers and the index blocks read, packed.
#[unsafe(no_mangle)]
pub extern "C" fn paradox_walk(table: &[u8], index: &[u8], key: &[u8]) -> u64
    ensures value { result ≡ packed_walk table.now index.now key.now }
    ensures walk_unpacked { WalkUnpacked table.now index.now key.now result }
{
    match index::walk(table, index, key) {
        Ok(walked) => pack(Ok(walked.found), walked.reads),
        Err(refusal) => pack(Err(refusal), 0),
    }
}

// The header's numbers: 0, or the refusal's number with every lent number 0.
#[unsafe(no_mangle)]
pub extern "C" fn paradox_header(table: &[u8], numbers: &mut [u64]) -> u32
    ensures { (result, numbers.new) ≡ header_numbers table.now numbers.old }
{
    u32::from(numbers::of_header(table, numbers))
}

// The numbers of a field, counted from 1: 0, or the refusal's number with every lent number 0.
#[unsafe(no_mangle)]
pub extern "C" fn paradox_field(table: &[u8], field: usize, numbers: &mut [u64]) -> u32
    ensures { (result, numbers.new) ≡ field_numbers table.now field numbers.old }
{
    u32::from(numbers::of_field(table, field, numbers))
}

// The numbers of the cell at a block, a place and a field: 0, or the refusal's number with every lent number 0.
#[unsafe(no_mangle)]
pub extern "C" fn paradox_cell(
    table: &[u8],
    block: usize,
    place: usize,
    field: usize,
    cell: &mut [u64],
) -> u32
    ensures { (result, cell.new) ≡ cell_numbers table.now block place field cell.old }
{
    u32::from(numbers::of_cell(table, block, place, field, cell))
}

// The numbers of all cells of a record: 0, or the refusal's number with every lent number 0.
#[unsafe(no_mangle)]
pub extern "C" fn paradox_record(table: &[u8], block: usize, place: usize, cells: &mut [u64]) -> u32
    ensures { (result, cells.new) ≡ record_numbers table.now block place cells.old }
{
    u32::from(numbers::of_record(table, block, place, cells))
}

// The file in which a blob is, 0 for a blank, and the part of it; or the refusal's number with every lent number 0.
#[unsafe(no_mangle)]
pub extern "C" fn paradox_blob(
    table: &[u8],
    mb: &[u8],
    block: usize,
    place: usize,
    field: usize,
    part: &mut [u64],
) -> u32
    ensures { (result, part.new) ≡ blob_in table.entry mb.entry block place field part.old }
{
    numbers::of_blob(table, mb, block, place, field, part)
}

// Writes a value as a cell to the front of a buffer: 0, or the refusal's number with the buffer as it was.
#[unsafe(no_mangle)]
pub extern "C" fn paradox_write(
    code: u64,
    width: usize,
    what: u64,
    value: u64,
    text: &[u8],
    out: &mut [u8],
) -> u32
    ensures { (result, out.new) ≡ write_given code width what value text.now out.old }
{
    u32::from(numbers::write(code, width, what, value, text, out))
}

// Starts a cursor: the refusal's number and whether a record came, packed. Refused, every lent number is 0.
#[unsafe(no_mangle)]
pub extern "C" fn paradox_start(table: &[u8], cursor: &mut [u64]) -> u32
    ensures { (result, cursor.new) ≡ start_lent table.now cursor.old }
{
    numbers::start(table, cursor)
}

// Steps a cursor: the refusal's number and whether a record came, packed. Refused, the cursor stays.
#[unsafe(no_mangle)]
pub extern "C" fn paradox_step(table: &[u8], cursor: &mut [u64]) -> u32
    ensures { (result, cursor.new) ≡ step_lent table.now cursor.old }
{
    numbers::step(table, cursor)
}

// A lookup's answer as one number, with the index blocks read.
fn pack(answer: Result<Option<Found>, Refusal>, reads: u8) -> u64
    ensures value { result ≡ packed (lookup_of answer) reads }
    ensures unpacked { Unpacked result (lookup_of answer) reads }
{
    match answer {
        Ok(Some(found)) => {
            0x100
                + 0x10000 * (found.block as u64)
                + 0x100000000 * (found.place as u64)
                + 0x1000000000000 * (reads as u64)
        }
        Ok(None) => 0x1000000000000 * (reads as u64),
        Err(refusal) => u8::from(refusal) as u64 + 0x1000000000000 * (reads as u64),
    }
}
