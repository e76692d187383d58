// One block's records looked through for a key.
ghost use Rattle.std.specs.Prelude.{◌≡◌, length};
ghost use Rattle.blocks.specs.Shape.{RunInside};
ghost use Rattle.table.specs.Records.{places_from};
ghost use Rattle.lookup.specs.Sought.{first_with};

use crate::found::Found;
use blocks::Shape;

// The first of a block's `count` records that has a key. A helper: its caller has found the block in the
// file and its count good, and the key is no longer than a record.
pub fn find_in_block(
    table: &[u8],
    shape: Shape,
    block: usize,
    count: u16,
    key: &[u8],
) -> Option<Found>
    requires { RunInside table.now shape (length key.now) block count }
    ensures { result ≡ first_with table.now shape key.now (places_from block 0 count) }
{
    for place in 0..count {
        let at = shape.record_at(block, place as usize);
        if words::compare(table, at, key, 0, key.len()).is_eq() {
            return Some(Found {
                block: block as u16,
                place,
            });
        }
    }
    None
}
