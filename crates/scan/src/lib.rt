// The scan: the record with a key found by a look at every record, in chain order.
#![tactic(auto)]

ghost use Rattle.std.specs.Prelude.{◌≡◌, length, Ok};
ghost use Rattle.lookup.specs.Found.{lookup_of};
ghost use Rattle.scan.specs.Scan.{scan_lookup, scan_marks, scan_of};
ghost use Rattle.scan.specs.Steps.{Searchable, found_from};

use blocks::BlockFile;
use chain::next_of;
use header::Refusal;
use lookup::Found;

// Where the record with the key is in any bytes, or that no record has it; or the first of the table check's
// refusals and 13 that applies. The mark buffer holds what the table check leaves in it.
pub fn find(table: &[u8], key: &[u8], marks: &mut [u8]) -> Result<Option<Found>, Refusal>
    ensures value { result ≡ scan_of table.now key.now (length marks.old) }
    ensures result_value { lookup_of result ≡ scan_lookup table.now key.now (length marks.old) }
    ensures marks_after { marks.new ≡ scan_marks table.now marks.old }
{
    let table = table::read(table, marks)?;
    if !lookup::key_fits(&table.header, key) {
        return Err(Refusal::BadArgument);
    }
    find_from(&BlockFile::of(&table), table.header.first as usize, key)
}

// The first record with a key in the blocks of a chain.
fn find_from(file: &BlockFile, first: usize, key: &[u8]) -> Result<Option<Found>, Refusal>
    requires { Searchable file.now.bytes.now file.now.shape first key.now }
    ensures { result ≡ Ok (found_from file.now.bytes.now file.now.shape key.now first) }
{
    let mut block = first;
    while block != 0 {
        // No accepted table has a bad count.
        let count = file.count(block).ok_or(Refusal::WrongCount)?;
        let found = lookup::find_in_block(file.bytes, file.shape, block, count, key);
        if found.is_some() {
            return Ok(found);
        }
        block = next_of(file.bytes, file.shape, block);
    }
    Ok(None)
}
