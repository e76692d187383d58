// A blob as numbers: in which file it is, and the part of that file.
ghost use Rattle.std.specs.Prelude.{◌≡◌, ◌≤◌, length, OnOk};
ghost use Rattle.numbers.specs.Blob.{blob_given, blob_in, part_count, with_part};
ghost use Rattle.numbers.specs.Steps.{blob_answer};

use crate::lent;
use blob::Blob;
use header::Refusal;

// The numbers of a part.
const PART_NUMBERS: usize = 2;

// The file stands in bits 8 to 15 of the answer.
const FILE: u32 = 0x100;

const NEITHER: u8 = 0;

const TABLE: u8 = 1;

const MB: u8 = 2;

// Answers with a file and the part of it that the blob is.
#[tactic(auto, using(crate::proofs::BlobLaws::put_part))]
fn with_part(part: &mut [u64], file: u8, start: usize, len: usize) -> u32
    requires { part_count ≤ length part.old }
    ensures { (result, part.new) ≡ with_part part.old file start len }
{
    part[0] = start as u64;
    part[1] = len as u64;
    FILE * u32::from(file)
}

// Gives a blob's numbers, or its refusal.
fn give_blob(part: &mut [u64], answer: Result<Blob, Refusal>) -> u32
    requires { OnOk answer (part_count ≤ length part.old) }
    ensures { (result, part.new) ≡ blob_given part.old answer }
{
    match answer {
        Ok(Blob::Blank) => with_part(part, NEITHER, 0, 0),
        Ok(Blob::InTable(its)) => with_part(part, TABLE, its.start, its.len),
        Ok(Blob::InMb(its)) => with_part(part, MB, its.start, its.len),
        Err(refusal) => u32::from(lent::refuse(part, refusal)),
    }
}

// The blob of any bytes, with the MB file, where there is room for its numbers; or 1 to 7, 14, 13, 9, 13, 18.
fn blob_answer(
    table: &[u8],
    mb: &[u8],
    block: usize,
    place: usize,
    field: usize,
    room: usize,
) -> Result<Blob, Refusal>
    ensures { result ≡ blob_answer table.now mb.now block place field room }
{
    let opened = lent::open(table, room, PART_NUMBERS)?;
    blob::find_in(&opened, mb, block, place, field)
}

// The blob at a block, a place (from 0) and a field (from 1) of any bytes, with the MB file; or 1 to 7, 14, 13, 9, 13,
// 18.
pub fn of_blob(
    table: &[u8],
    mb: &[u8],
    block: usize,
    place: usize,
    field: usize,
    part: &mut [u64],
) -> u32
    ensures { (result, part.new) ≡ blob_in table.entry mb.entry block place field part.old }
{
    let answer = blob_answer(table, mb, block, place, field, part.len());
    give_blob(part, answer)
}
