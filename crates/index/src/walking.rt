// The walk: the record with a key found by the index, one index block a level.
ghost use Rattle.std.specs.Prelude.{◌≡◌, ◌≤◌, length};
ghost use Rattle.index.specs.Steps.{Walkable, from_block};
ghost use Rattle.index.specs.Walk.{in_data, walk_numbers, walk_of, walked_numbers};

use crate::entries::descend;
use blocks::BlockFile;
use header::{Refusal, Table};
use lookup::Found;

// What a walk found, and the number of index blocks that it read.
#[derive(Clone, Copy)]
pub struct Walked {
    pub found: Option<Found>,
    pub reads: u8,
}

// Where the index leads a key in any bytes: to the first record with it in the data block named, or to none; or
// the first of 1 to 7, 13, 21 to 26 and the walk's own 27, 8 and 9 that applies.
pub fn walk(table: &[u8], index: &[u8], key: &[u8]) -> Result<Walked, Refusal>
    ensures value { result ≡ walk_of table.now index.now key.now }
    ensures result_value { walked_numbers result ≡ walk_numbers table.now index.now key.now }
{
    let table = Table::open(table)?;
    if !lookup::key_fits(&table.header, key) {
        return Err(Refusal::BadArgument);
    }
    let i = crate::read(index, table.header.key_length)?;
    if i.root == 0 {
        return Ok(Walked {
            found: None,
            reads: 0,
        });
    }
    let index = BlockFile {
        bytes: index,
        shape: i.shape,
    };
    walk_tree(&BlockFile::of(&table), &index, i.root, i.levels, key)
}

// The walk from the root of an index, down its levels.
fn walk_tree(
    table: &BlockFile,
    index: &BlockFile,
    root: u16,
    levels: u8,
    key: &[u8],
) -> Result<Walked, Refusal>
    requires { Walkable table.now.shape index.now.shape (length key.now) }
    ensures { result ≡ from_block table.now index.now key.now levels root }
{
    let mut block = root as usize;
    for reads in 0..levels {
        let Some(next) = descend(index, block, key)? else {
            return Ok(Walked {
                found: None,
                reads: reads + 1,
            });
        };
        block = next as usize;
    }
    find_in_data(table, block, key, levels)
}

// The end of a walk, in the data block that it has come to.
fn find_in_data(table: &BlockFile, block: usize, key: &[u8], reads: u8) -> Result<Walked, Refusal>
    requires { length key.now ≤ table.now.shape.record_size }
    ensures { result ≡ in_data table.now.bytes.now table.now.shape key.now block reads }
{
    if !table.shape.has_block(block) {
        return Err(Refusal::ChainRule);
    }
    let count = table.count(block).ok_or(Refusal::WrongCount)?;
    let found = lookup::find_in_block(table.bytes, table.shape, block, count, key);
    Ok(Walked { found, reads })
}
