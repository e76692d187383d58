// Where a cell stands: step 1 finds block and field, step 2 count and place.
// Both are helpers, also of the crates above.
ghost use Rattle.std.specs.Prelude.{◌≡◌, ◌≤◌};
ghost use Rattle.cell.specs.Locating.{field_at, place_at};

use blocks::{BlockFile, Shape};
use header::{Field, Refusal, Table};

// Step 1: the field, counted from 1, of a block of the file. None is refused with 13, before step 2's 9. A caller
// that asks for one kind of field refuses any other there, with the same number.
#[tactic(auto, using(crate::proofs::LocatingLaws::field_no_block, crate::proofs::LocatingLaws::field_of_block))]
pub fn field_in(table: &Table, block: usize, field: usize) -> Option<Field>
    ensures { result ≡ field_at table.now.bytes.now table.now.header block field }
{
    if !Shape::of(&table.header).has_block(block) {
        return None;
    }
    table.field(field)
}

// Step 2: where the cell at this offset of its record begins; places count from 0. Refuses a bad count (9), then a
// place that the count does not reach (13). Step 1 has found the block.
#[tactic(auto, using(crate::proofs::LocatingLaws::places))]
pub fn place_in(file: &BlockFile, block: usize, place: usize, offset: u16) -> Result<usize, Refusal>
    requires { (1 ≤ block) × (block ≤ file.now.shape.blocks) }
    ensures { result ≡ place_at file.now.bytes.now file.now.shape block place offset }
{
    let records = file.count(block).ok_or(Refusal::WrongCount)?;
    if records as usize <= place {
        return Err(Refusal::BadArgument);
    }
    let at = file.shape.record_at(block, place) + offset as usize;
    Ok(at)
}
