// A table and its index together: the pair check, and a key looked up in both.
#![tactic(auto)]

mod tree;

ghost use Rattle.std.specs.Prelude.{◌≡◌, length};
ghost use Rattle.pair.specs.Pair.{look_up_of, pair_answer, pair_marks, tree_fits};
ghost use Rattle.pair.specs.Rules.{Agreeing};
ghost use Rattle.pair.specs.Steps.{Paired};

use blocks::BlockFile;
use header::{Refusal, Table};
use index::{IndexHeader, Walked};
use tree::Pair;

// Checks a table and an index: accepted, or the first of the table check's refusals, 13, 21 to 26 and 27 that any bytes
// break. The mark buffer holds what the table check leaves in it.
pub fn check(table: &[u8], index: &[u8], marks: &mut [u8]) -> Result<(), Refusal>
    ensures value { result ≡ pair_answer table.now index.now (length marks.old) }
    ensures marks_after { marks.new ≡ pair_marks table.now marks.old }
{
    let table = table::read(table, marks)?;
    if table.header.key_fields == 0 {
        return Err(Refusal::BadArgument);
    }
    let i = index::read(index, table.header.key_length)?;
    if !tree_fits(&table, index, i) {
        return Err(Refusal::IndexTree);
    }
    Ok(())
}

// Whether the tree of an accepted index fits an accepted table.
fn tree_fits<'a>(table: &Table<'a>, index: &'a [u8], i: IndexHeader) -> bool
    requires { Paired table.now.bytes.now table.now.header index.now i }
    ensures { result ≡ tree_fits table.now.bytes.now table.now.header index.now i }
{
    let h = &table.header;
    if i.root == 0 {
        return h.records == 0;
    }
    let index = BlockFile {
        bytes: index,
        shape: i.shape,
    };
    let pair = Pair {
        table: BlockFile::of(table),
        index,
        key_length: h.key_length,
    };
    let read = tree::block_fits(&pair, i.levels, i.root as usize, h.first as usize);
    let Some(rest) = read.fit else {
        return false;
    };
    tree::first_holding(&pair.table, rest) == 0
}

// A key looked up in a pair: the pair check's refusal, or what both the walk and the scan find, with the index blocks
// that the walk reads. The table is checked once; of an accepted pair the walk alone tells what both find. The mark
// buffer holds what the table check leaves in it.
pub fn look_up(table: &[u8], index: &[u8], key: &[u8], marks: &mut [u8]) -> Result<Walked, Refusal>
    ensures value { result ≡ look_up_of table.now index.now key.now marks.old }
    ensures marks_after { marks.new ≡ pair_marks table.now marks.old }
    ensures agreeing { Agreeing table.now index.now key.now marks.old result }
{
    check(table, index, marks)?;
    index::walk(table, index, key)
}
