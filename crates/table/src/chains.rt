// Both chains: the used one followed, then the free one; then every block must have a mark.
// The module is private: its function is a helper of the check, which meets what it requires.
ghost use Rattle.std.specs.Prelude.{◌≡◌, replicate};
ghost use Rattle.chain.specs.Marks.{unmarked};
ghost use Rattle.table.specs.Steps.{ChainsMarked};

use crate::free::follow_free;
use crate::used::{UsedChain, follow_used};
use blocks::BlockFile;
use chain::marks;
use header::Table;

// Marks the used and the free blocks, where no block has a mark yet; the used chain, if both keep the chain rules.
pub fn mark_chains(table: &Table, marks: &mut [u8]) -> Option<UsedChain>
    requires { marks.old ≡ replicate table.now.header.blocks unmarked }
    ensures { ChainsMarked table.now.bytes.now table.now.header result marks.new }
{
    let h = &table.header;
    let file = BlockFile::of(table);
    let used = follow_used(&file, h.key_length as usize, h.first as usize, marks)?;
    if used.last != h.last as usize {
        return None;
    }
    if !follow_free(&file, h.free as usize, marks) {
        return None;
    }
    if !marks::all_marked(marks) {
        return None;
    }
    Some(used)
}
