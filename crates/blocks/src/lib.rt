// A file of blocks, data table or index alike: its shape, where a block and a record begin, and how many records a
// block holds.
// The functions are helpers of the crates above, which have judged the block's number.
#![tactic(auto)]

mod count;
mod file;

ghost use Rattle.std.specs.Prelude.{◌≡◌, ◌≤◌, ◌<◌};
ghost use Rattle.blocks.specs.Shape.{block_at, has_block, record_at, shape_of};

pub use count::count_of;
pub use file::BlockFile;
use header::Header;

// What a block begins with: the next block, the previous one, and the offset of the last record.
const BLOCK_HEAD: usize = header::BLOCK_HEAD as usize;

// The shape of a file of blocks. Sizes are in bytes.
#[derive(Clone, Copy)]
pub struct Shape {
    pub header_size: u16,
    pub block_size: u16,
    pub blocks: u16,
    pub record_size: u16,
}

impl Shape {
    // The shape of a table.
    pub fn of(h: &Header) -> Shape
        ensures { result ≡ shape_of h.now }
    {
        Shape {
            header_size: h.header_size,
            block_size: h.block_size,
            blocks: h.blocks,
            record_size: h.record_size,
        }
    }

    // Whether the file has a block of this number; blocks count from 1.
    pub fn has_block(self, block: usize) -> bool
        ensures { result ≡ has_block self block }
    {
        (1 <= block) & (block <= self.blocks as usize)
    }

    // Where a block begins. A helper: its caller has found the block in the file.
    pub fn block_at(self, block: usize) -> usize
        requires { (1 ≤ block) × (block ≤ self.blocks) }
        ensures { result ≡ block_at self block }
    {
        self.header_size as usize + (block - 1) * self.block_size as usize
    }

    // Where the record at a place of a block begins; places count from 0. A helper: its caller has found the block in
    // the file and the place below a count, which fits 16 bits.
    pub fn record_at(self, block: usize, place: usize) -> usize
        requires { (1 ≤ block) × (block ≤ self.blocks) × (place < 65536) }
        ensures { result ≡ record_at self block place }
    {
        self.block_at(block) + BLOCK_HEAD + place * self.record_size as usize
    }
}
