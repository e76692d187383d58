// The entries of an index block: how many there are, the block that one names, and the block that a key leads to.
ghost use Rattle.std.specs.Prelude.{◌≡◌, ◌+◌, ◌≤◌, length};
ghost use Rattle.blocks.specs.Shape.{RunInside};
ghost use Rattle.index.specs.Header.{entry_numbers};
ghost use Rattle.index.specs.Entries.{below, block_number, entries_in};
ghost use Rattle.index.specs.Steps.{descent_of};

use blocks::BlockFile;
use header::Refusal;

// The top bit of a number of 16 bits, which an entry has complemented.
const TOP_BIT: u16 = 0x8000;

// How many entries an index block has; 0 too where it is outside the file or its count is bad.
pub fn entries_in(file: &BlockFile, block: usize) -> u16
    ensures { result ≡ entries_in file.now.bytes.now file.now.shape block }
{
    if !file.shape.has_block(block) {
        return 0;
    }
    file.count(block).unwrap_or(0)
}

// The block that an entry names by the number at an offset. A helper: its caller has found the entry in the file.
pub fn block_named(x: &[u8], at: usize) -> u16
    requires { at + 2 ≤ length x.now }
    ensures { result ≡ block_number x.now at }
{
    u16::from_be_bytes([x[at], x[at + 1]]).wrapping_add(TOP_BIT)
}

// The block named by the last of an index block's entries, by place, whose key is at most the one sought. None where
// every entry's key is above it.
fn find_below(file: &BlockFile, block: usize, count: u16, key: &[u8]) -> Option<u16>
    requires { RunInside file.now.bytes.now file.now.shape (length key.now + entry_numbers) block count }
    ensures { result ≡ below file.now.bytes.now file.now.shape key.now block count }
{
    for i in (0..count).rev() {
        let at = file.shape.record_at(block, i as usize);
        if words::compare(file.bytes, at, key, 0, key.len()).is_le() {
            return Some(block_named(file.bytes, at + key.len()));
        }
    }
    None
}

// The way down from an index block: the block that the key leads to, or None; 27 where the block is outside the file,
// has a bad count or no entry. A helper of the walk, which has judged the index's header.
pub fn descend(file: &BlockFile, block: usize, key: &[u8]) -> Result<Option<u16>, Refusal>
    requires { file.now.shape.record_size ≡ length key.now + entry_numbers }
    ensures { result ≡ descent_of file.now.bytes.now file.now.shape key.now block }
{
    let count = entries_in(file, block);
    if count == 0 {
        return Err(Refusal::IndexTree);
    }
    Ok(find_below(file, block, count, key))
}
