// A block's links: the first two words of its head.
ghost use Rattle.std.specs.Prelude.{◌≡◌, ◌+◌, ◌≤◌, length};
ghost use Rattle.header.specs.Header.{block_head};
ghost use Rattle.blocks.specs.Shape.{block_at};
ghost use Rattle.chain.specs.Links.{next_of, previous_of};

use blocks::Shape;

// Where the previous block's number stands in a block's head.
const PREVIOUS: usize = 2;

// The block after a block; 0 ends the chain. A helper: its caller has found the block, and its head, in the file.
pub fn next_of(file: &[u8], shape: Shape, block: usize) -> usize
    requires { (1 ≤ block) × (block ≤ shape.blocks) × (block_at shape block + block_head ≤ length file.now) }
    ensures { result ≡ next_of file.now shape block }
{
    words::word(file, shape.block_at(block)) as usize
}

// The block before a block; 0 for the first. A helper: its caller has found the block, and its head, in the file.
pub fn previous_of(file: &[u8], shape: Shape, block: usize) -> usize
    requires { (1 ≤ block) × (block ≤ shape.blocks) × (block_at shape block + block_head ≤ length file.now) }
    ensures { result ≡ previous_of file.now shape block }
{
    words::word(file, shape.block_at(block) + PREVIOUS) as usize
}
