// The tree of an index against the used chain of its table. It is read once, left to right, and given up at the first
// fault: a block or entry that does not fit, or a level 1 entry that is not the next one expected. The entries looked
// at are counted: at each level they are no more than the used blocks that hold records, and one.
// The module is private: its functions are helpers of the pair check, which meets what they require.
ghost use Rattle.std.specs.Prelude.{◌≡◌, ◌+◌, ◌<◌, ◌≤◌, length};
ghost use Rattle.chain.specs.Rules.{GoodFrom};
ghost use Rattle.index.specs.Entries.{entries_in};
ghost use Rattle.pair.specs.Steps.{Descendable, block_of, entry_of, holding_from, leaf_of};
ghost use Rattle.pair.specs.Looked.{block_looked_of, entry_looked_of};

use blocks::BlockFile;
use chain::next_of;

// A table and its index as files of blocks, and the key length.
#[derive(Clone, Copy)]
pub struct Pair<'a> {
    pub table: BlockFile<'a>,
    pub index: BlockFile<'a>,
    pub key_length: u16,
}

// Where the used chain is when a part of the tree has been read, where that part fits; and how many entries were looked
// at.
#[derive(Clone, Copy)]
pub struct Looked {
    pub fit: Option<usize>,
    pub entries: u32,
}

// The first block that holds records from a number of the used chain on; 0 where there is none.
// A helper of the pair check and no call for users: the table is accepted, so its chain is good.
pub fn first_holding(file: &BlockFile, from: usize) -> usize
    requires { GoodFrom file.now.bytes.now file.now.shape from }
    ensures { result ≡ holding_from file.now.bytes.now file.now.shape from }
{
    let mut block = from;
    while block != 0 {
        let Some(count) = file.count(block) else {
            // No accepted table has a bad count.
            return 0;
        };
        if count != 0 {
            return block;
        }
        block = next_of(file.bytes, file.shape, block);
    }
    0
}

// A level 1 entry at an offset of the index, which names a data block.
fn leaf_fits(pair: &Pair, at: usize, named: usize, from: usize) -> Option<usize>
    requires { Descendable pair.now from × (at + pair.now.key_length ≤ length pair.now.index.bytes.now) }
    ensures { result ≡ leaf_of pair.now at named from }
{
    let table = &pair.table;
    let block = first_holding(table, from);
    if block == 0 {
        return None;
    }
    if named != block {
        return None;
    }
    let first = table.shape.record_at(block, 0);
    let key = pair.key_length as usize;
    if !words::compare(pair.index.bytes, at, table.bytes, first, key).is_eq() {
        return None;
    }
    Some(next_of(table.bytes, table.shape, block))
}

// An index block at a level of 1 or more: each of its entries, left to right.
// A helper of the pair check and no call for users: the table and the index's header are accepted.
#[cycle(block_fits_entry_fits)]
pub fn block_fits(pair: &Pair, level: u8, block: usize, from: usize) -> Looked
    requires { Descendable pair.now from × (1 ≤ level) }
    ensures fit_value { result.fit ≡ block_of pair.now level block from }
    ensures entries_value { result.entries ≡ block_looked_of pair.now level block from }
{
    let count = index::entries_in(&pair.index, block);
    let mut entries: u32 = 0;
    if count == 0 {
        return Looked { fit: None, entries };
    }
    let mut reached = from;
    for i in 0..count {
        let read = entry_fits(pair, level - 1, block, i, reached);
        entries += read.entries;
        let Some(next) = read.fit else {
            return Looked { fit: None, entries };
        };
        reached = next;
    }
    Looked {
        fit: Some(reached),
        entries,
    }
}

// An entry of an index block, whose own block is at a level: that block fits, and above level 1 the entry has the key
// of the first entry in it.
#[cycle(block_fits_entry_fits)]
fn entry_fits(pair: &Pair, level: u8, block: usize, i: u16, from: usize) -> Looked
    requires { Descendable pair.now from × (i < entries_in pair.now.index.bytes.now pair.now.index.shape block) }
    ensures fit_value { result.fit ≡ entry_of pair.now level block i from }
    ensures entries_value { result.entries ≡ entry_looked_of pair.now level block i from }
{
    let index = &pair.index;
    let key = pair.key_length as usize;
    let at = index.shape.record_at(block, i as usize);
    let named = index::block_named(index.bytes, at + key) as usize;
    if level == 0 {
        let fit = leaf_fits(pair, at, named, from);
        return Looked { fit, entries: 1 };
    }
    let read = block_fits(pair, level, named, from);
    let entries = read.entries + 1;
    let Some(next) = read.fit else {
        return Looked { fit: None, entries };
    };
    let first = index.shape.record_at(named, 0);
    if !words::compare(index.bytes, at, index.bytes, first, key).is_eq() {
        return Looked { fit: None, entries };
    }
    Looked {
        fit: Some(next),
        entries,
    }
}
