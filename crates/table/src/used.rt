// The used chain followed once: links and marks judged, counts and keys tallied on the way.
// The module is private: its function is a helper of the check, which meets what it requires.
ghost use Rattle.table.specs.Steps.{UsedFollowed, Followable};

use crate::tally::{Tally, with_block};
use blocks::BlockFile;
use chain::{marks, next_of, previous_of};

// What the used chain came to.
#[derive(Clone, Copy)]
pub struct UsedChain {
    // The last block; 0 of an empty chain.
    pub last: usize,
    // What its blocks come to; None with a bad count.
    pub tally: Option<Tally>,
}

// Follows the used chain from its first block, marks each block of it and tallies its records. None where a number is
// not that of a block without a mark, or a block does not name its predecessor.
pub fn follow_used(
    file: &BlockFile,
    key: usize,
    first: usize,
    marks: &mut [u8],
) -> Option<UsedChain>
    requires { Followable file.now.shape key marks.old }
    ensures { UsedFollowed file.now.bytes.now file.now.shape key first marks.old result marks.new }
{
    let mut tally = Some(Tally::start());
    let mut before = 0;
    let mut block = first;
    while block != 0 {
        if !marks::is_unmarked(marks, block) {
            return None;
        }
        if previous_of(file.bytes, file.shape, block) != before {
            return None;
        }
        marks[block - 1] = marks::USED;
        tally = with_block(file, key, tally, block);
        before = block;
        block = next_of(file.bytes, file.shape, block);
    }
    Some(UsedChain {
        last: before,
        tally,
    })
}
