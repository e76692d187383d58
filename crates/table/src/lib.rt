// The table check: chains, counts and key order of the used blocks, in one pass along each chain.
#![tactic(auto)]

mod chains;
mod free;
mod keys;
mod tally;
mod used;

ghost use Rattle.std.specs.Prelude.{◌≡◌, IfOk, length};
ghost use Rattle.header.specs.Opened.{header_in};
ghost use Rattle.table.specs.Table.{blocks_answer, buffer_after, checked_header, table_answer, table_marks};

use chain::marks;
use header::{Refusal, Table};

// Checks a table: it keeps the rules, or breaks first one of 1 to 7, 14, 8, 9 and 10, for any bytes. With 1 to 7 and
// 14 the mark buffer is as it was. With 8 the mark of every block is 0, else 1 for a used block and 2 for a free one;
// bytes past those of the blocks never change.
pub fn check(bytes: &[u8], marks: &mut [u8]) -> Result<(), Refusal>
    ensures value { result ≡ table_answer bytes.now (length marks.old) }
    ensures marks_after { marks.new ≡ table_marks bytes.now marks.old }
{
    let opened = Table::open(bytes)?;
    check_blocks(&opened, marks)
}

// Checks a table and opens it, or gives the table check's refusal. The mark buffer holds what the table check leaves
// in it. A helper of the crates above, for any bytes.
pub fn read<'a>(bytes: &'a [u8], marks: &mut [u8]) -> Result<Table<'a>, Refusal>
    ensures value { header_in result ≡ checked_header bytes.now (length marks.old) }
    ensures its_bytes { IfOk result (λ table. table.bytes ≡ bytes.entry) }
    ensures marks_after { marks.new ≡ table_marks bytes.now marks.old }
{
    let table = Table::open(bytes)?;
    check_blocks(&table, marks)?;
    Ok(table)
}

// The table check behind rules 1 to 7.
fn check_blocks(table: &Table, marks: &mut [u8]) -> Result<(), Refusal>
    ensures value { result ≡ blocks_answer table.now.bytes.now table.now.header (length marks.old) }
    ensures marks_after { marks.new ≡ buffer_after table.now.bytes.now table.now.header marks.old }
{
    let blocks = table.header.blocks as usize;
    if marks.len() < blocks {
        return Err(Refusal::ShortBuffer);
    }
    marks::clear(marks, blocks);
    let Some(used) = chains::mark_chains(table, &mut marks[..blocks]) else {
        marks::clear(marks, blocks);
        return Err(Refusal::ChainRule);
    };
    let Some(tally) = used.tally else {
        return Err(Refusal::WrongCount);
    };
    tally.answer(table.header.records)
}
