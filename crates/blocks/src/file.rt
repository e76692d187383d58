// A file of blocks whose sizes were judged.
ghost use Rattle.std.specs.Prelude.{◌≡◌, ◌≤◌};
ghost use Rattle.blocks.specs.Counts.{count_in};
ghost use Rattle.blocks.specs.Shape.{Sound, shape_of};

use crate::Shape;
use crate::count::{LAST_RECORD, count_of};
use header::Table;

// The bytes of a data table or an index, and its shape: the blocks fill the file behind its header.
#[derive(Clone, Copy)]
pub struct BlockFile<'a> {
    pub bytes: &'a [u8],
    pub shape: Shape,
    pub ghost sound: { Sound bytes.now shape },
}

impl<'a> BlockFile<'a> {
    // The blocks of a table.
    pub fn of(table: &Table<'a>) -> BlockFile<'a>
        ensures bytes { result.bytes ≡ table.now.bytes }
        ensures shape { result.shape ≡ shape_of table.now.header }
    {
        BlockFile {
            bytes: table.bytes,
            shape: Shape::of(&table.header),
        }
    }

    // How many records a block holds, where its count is good. A helper: its caller has found the block in the file.
    pub fn count(&self, block: usize) -> Option<u16>
        requires { (1 ≤ block) × (block ≤ self.now.shape.blocks) }
        ensures { result ≡ count_in self.now.bytes.now self.now.shape block }
    {
        let shape = self.shape;
        let last = words::word(self.bytes, shape.block_at(block) + LAST_RECORD);
        count_of(last, shape.record_size, shape.block_size)
    }
}
