// Records one after another: a cursor that steps along the used chain of a table.
#![tactic(auto)]

mod moves;

ghost use Rattle.std.specs.Prelude.{◌≡◌};
ghost use Rattle.cursor.specs.Cursor.{answer_numbers, at_end, start_numbers, start_of, step_in, step_numbers, step_of};

use blocks::BlockFile;
use header::{Refusal, Table};

// Where stepping stands: on the record at a place (from 0) of a block, after so many moves from block to
// block; or ended. An ended one that starting or stepping makes has its numbers 0.
#[derive(Clone, Copy)]
pub struct Cursor {
    pub block: u16,
    pub place: u16,
    pub moves: u16,
    pub ended: bool,
}

// What starting and stepping give, with the cursor to go on with.
#[derive(Clone, Copy)]
pub enum Step {
    // The cursor stands on a record.
    Record(Cursor),
    // No record is left.
    End(Cursor),
}

// Why they give nothing, with the cursor that was stepped; with an ended one where starting is refused.
#[derive(Clone, Copy)]
pub struct Refused {
    pub refusal: Refusal,
    pub cursor: Cursor,
}

impl Cursor {
    // The first record of any bytes, or the end; or the first of 1 to 7 that applies, then 8 or 9, whichever
    // is met first along the chain.
    pub fn start(table: &[u8]) -> Result<Step, Refused>
        ensures value { result ≡ start_of table.now }
        ensures result_value { answer_numbers result ≡ start_numbers table.now }
    {
        let opened = Table::open(table).map_err(|refusal| Cursor::at_end().refused(refusal))?;
        let file = BlockFile::of(&opened);
        moves::first_from(&file, Cursor::at_end(), 0, opened.header.first as usize)
    }

    // The record after that of a cursor, whoever made it, or the end; or the first of 1 to 7, 13, 9 and 13
    // that applies, then 8 or 9, whichever is met first along the chain. An ended cursor steps to the end.
    pub fn step(self, table: &[u8]) -> Result<Step, Refused>
        ensures value { result ≡ step_of table.now self }
        ensures result_value { answer_numbers result ≡ step_numbers table.now self }
    {
        let opened = Table::open(table).map_err(|refusal| self.refused(refusal))?;
        if self.ended {
            return Ok(Step::End(Cursor::at_end()));
        }
        next_record(&BlockFile::of(&opened), self)
    }

    // An ended cursor.
    fn at_end() -> Cursor
        ensures { result ≡ at_end }
    {
        Cursor {
            block: 0,
            place: 0,
            moves: 0,
            ended: true,
        }
    }

    // A refusal that hands this cursor back.
    fn refused(self, refusal: Refusal) -> Refused
        ensures { (result.refusal ≡ refusal) × (result.cursor ≡ self) }
    {
        Refused {
            refusal,
            cursor: self,
        }
    }
}

// What a cursor that has not ended steps to, once rules 1 to 7 are kept.
fn next_record(file: &BlockFile, cursor: Cursor) -> Result<Step, Refused>
    ensures { result ≡ step_in file.now.bytes.now file.now.shape cursor }
{
    let block = cursor.block as usize;
    if !moves::in_reach(file.shape, block, cursor.moves) {
        return Err(cursor.refused(Refusal::BadArgument));
    }
    let count = file
        .count(block)
        .ok_or(cursor.refused(Refusal::WrongCount))?;
    if count <= cursor.place {
        return Err(cursor.refused(Refusal::BadArgument));
    }
    let place = cursor.place + 1;
    if place < count {
        return Ok(Step::Record(Cursor {
            block: cursor.block,
            place,
            moves: cursor.moves,
            ended: false,
        }));
    }
    let next = chain::next_of(file.bytes, file.shape, block);
    moves::first_from(file, cursor, cursor.moves + 1, next)
}
