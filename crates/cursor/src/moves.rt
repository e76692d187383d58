// Moves from block to block along the used chain, up to the next one that holds records.
// The module is private: its functions are helpers of the cursor.
ghost use Rattle.std.specs.Prelude.{◌≡◌, ◌<◌};
ghost use Rattle.cursor.specs.Cursor.{first_from, in_reach};

use crate::{Cursor, Refused, Step};
use blocks::{BlockFile, Shape};
use chain::next_of;
use header::Refusal;

// Whether the file has the block, and so many moves are at most the number of its blocks less 1. That number fits 16
// bits, so the block's does, and so does one move more.
pub fn in_reach(shape: Shape, block: usize, moves: u16) -> bool
    ensures value { result ≡ in_reach shape block moves }
    ensures fits { shape.blocks < 65536 }
{
    shape.has_block(block) & (moves < shape.blocks)
}

// The first record from a block on that is reached after so many moves, or the end at number 0. A refusal
// hands `back` back.
pub fn first_from(file: &BlockFile, back: Cursor, moves: u16, first: usize) -> Result<Step, Refused>
    ensures { result ≡ first_from file.now.bytes.now file.now.shape back moves first }
{
    let mut block = first;
    let mut made = moves;
    while block != 0 {
        if !in_reach(file.shape, block, made) {
            return Err(back.refused(Refusal::ChainRule));
        }
        let count = file.count(block).ok_or(back.refused(Refusal::WrongCount))?;
        if count != 0 {
            return Ok(Step::Record(Cursor {
                block: block as u16,
                place: 0,
                moves: made,
                ended: false,
            }));
        }
        block = next_of(file.bytes, file.shape, block);
        made += 1;
    }
    Ok(Step::End(Cursor::at_end()))
}
