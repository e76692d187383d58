// The count rule: how many records a block holds, by the third word of its head.
// The functions are helpers of the crates above, which have judged the sizes and the block's number.
ghost use Rattle.std.specs.Prelude.{◌≡◌, ◌≤◌};
ghost use Rattle.words.specs.Signed.{half, signed};
ghost use Rattle.header.specs.Header.{block_head};
ghost use Rattle.blocks.specs.Counts.{count_of};

use crate::BLOCK_HEAD;

// Where the offset of the last record stands in a block's head.
pub const LAST_RECORD: usize = 4;

// How many records a block holds by the offset of the last one; None where that breaks the rule. A helper: its caller
// has judged that the record size is not 0 and that a block has room for a head.
pub fn count_of(last: u16, record_size: u16, block_size: u16) -> Option<u16>
    requires { (1 ≤ record_size) × (block_head ≤ block_size) }
    ensures { result ≡ count_of block_size record_size (signed (half 2) last) }
{
    let offset = last.cast_signed();
    if offset < 0 {
        if offset.unsigned_abs() == record_size {
            return Some(0);
        }
        return None;
    }
    if last % record_size != 0 {
        return None;
    }
    let room = block_size as usize - BLOCK_HEAD;
    if room < last as usize + record_size as usize {
        return None;
    }
    Some(last / record_size + 1)
}
