// The free chain followed with marks.
// The module is private: its function is a helper of the check, which meets what it requires.
ghost use Rattle.std.specs.Prelude.{◌≡◌, length};
ghost use Rattle.table.specs.Steps.{FreeFollowed};

use blocks::BlockFile;
use chain::{marks, next_of};

// Follows the free chain from its first block and marks each block of it; whether every number was that
// of a block without a mark.
pub fn follow_free(file: &BlockFile, first: usize, marks: &mut [u8]) -> bool
    requires { length marks.old ≡ file.now.shape.blocks }
    ensures { FreeFollowed file.now.bytes.now file.now.shape first marks.old result marks.new }
{
    let mut block = first;
    while block != 0 {
        if !marks::is_unmarked(marks, block) {
            return false;
        }
        marks[block - 1] = marks::FREE;
        block = next_of(file.bytes, file.shape, block);
    }
    true
}
