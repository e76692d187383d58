// Cells as numbers: one cell, and all cells of a record.
ghost use Rattle.std.specs.Prelude.{◌≡◌};
ghost use Rattle.numbers.specs.Cells.{cell_numbers, record_numbers, record_place};
ghost use Rattle.numbers.specs.Steps.{cell_answer, run_answer};

use crate::{lent, list, run};
use blocks::BlockFile;
use header::{Refusal, Table};
use run::Run;

// The numbers of a cell.
const CELL_NUMBERS: usize = 4;

// The numbers of a cell of any bytes, where there is room for them; or 1 to 7, 14, 13, 9, 13, 12, 11.
fn cell_answer(
    table: &[u8],
    block: usize,
    place: usize,
    field: usize,
    room: usize,
) -> Result<[u64; 4], Refusal>
    ensures { result ≡ cell_answer table.now block place field room }
{
    let opened = lent::open(table, room, CELL_NUMBERS)?;
    let value = cell::read_in(&opened, block, place, field)?;
    Ok(list::value_list(value))
}

// The cell at a block, a place (from 0) and a field (from 1) of any bytes; or 1 to 7, 14, 13, 9, 13, 12, 11.
pub fn of_cell(table: &[u8], block: usize, place: usize, field: usize, four: &mut [u64]) -> u8
    ensures { (result, four.new) ≡ cell_numbers table.now block place field four.old }
{
    let answer = cell_answer(table, block, place, field, four.len());
    lent::give(four, answer)
}

// Where the record at a block and a place begins; or 13, 9, 13.
#[tactic(auto, using(crate::proofs::RecordLaws::places))]
fn record_place(file: &BlockFile, block: usize, place: usize) -> Result<usize, Refusal>
    ensures { result ≡ record_place file.now.bytes.now file.now.shape block place }
{
    if !file.shape.has_block(block) {
        return Err(Refusal::BadArgument);
    }
    cell::place_in(file, block, place, 0)
}

// The cells of the record at a block and a place of any bytes, where there is room for them; or 1 to 7, 14, 13, 9, 13.
fn run_answer(table: &[u8], block: usize, place: usize, room: usize) -> Result<Run, Refusal>
    ensures { result ≡ run_answer table.now block place room }
{
    let opened = Table::open(table)?;
    let fields = opened.header.fields as usize;
    if room < CELL_NUMBERS * fields {
        return Err(Refusal::ShortBuffer);
    }
    let start = record_place(&BlockFile::of(&opened), block, place)?;
    Ok(Run {
        area: opened.header.area as usize,
        fields,
        start,
    })
}

// All cells of the record at a block and a place of any bytes, in the order of the fields; or 1 to 7, 14, 13, 9, 13. A
// cell that is refused has its refusal's number among the others.
pub fn of_record(table: &[u8], block: usize, place: usize, cells: &mut [u64]) -> u8
    ensures { (result, cells.new) ≡ record_numbers table.now block place cells.old }
{
    match run_answer(table, block, place, cells.len()) {
        Ok(found) => {
            run::put_cells(cells, table, found);
            0
        }
        Err(refusal) => lent::refuse(cells, refusal),
    }
}
