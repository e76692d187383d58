// A blob's cell: leader, offset, length.
// The module is private: its function is a helper of `blob::find_in`, which meets what it requires.
ghost use Rattle.std.specs.Prelude.{◌≡◌, ◌+◌, ◌≤◌, length};
ghost use Rattle.blob.specs.Blob.{blob_at};
ghost use Rattle.blob.specs.Leader.{behind_leader};

use crate::answer::Blob;
use crate::mb;
use header::Refusal;
use words::Part;

// Behind the leader: so many bytes, of which the length stands behind the offset.
const BEHIND_LEADER: usize = 10;

const LENGTH: usize = 4;

// The blob of the cell of `width` bytes at a place in the table. The module is private.
// A helper and no call for users: `find_in`, its caller, has located the cell.
pub fn blob_at(table: &[u8], mb: &[u8], at: usize, width: usize) -> Result<Blob, Refusal>
    requires { (behind_leader ≤ width) × (at + width ≤ length table.now) }
    ensures { result ≡ blob_at table.now mb.now at width }
{
    if words::all_zero(table, at, width) {
        return Ok(Blob::Blank);
    }
    let leader = width - BEHIND_LEADER;
    let len = words::long(table, at + leader + LENGTH);
    if len as usize <= leader {
        return Ok(Blob::InTable(Part {
            start: at,
            len: len as usize,
        }));
    }
    mb::body(mb, words::long(table, at + leader), len)
}
