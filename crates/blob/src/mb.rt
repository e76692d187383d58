// The MB file: the block at an offset, and the blob that the block states.
// The module is private: its functions are helpers of `blob::find_in`, which meets what they require.
ghost use Rattle.std.specs.Prelude.{◌≡◌, ◌+◌, ◌≤◌, ◌<◌, length};
ghost use Rattle.blob.specs.Blob.{body_of};
ghost use Rattle.blob.specs.Mb.{entries, entry_blob, entry_size, entry_stated, mb_unit, own_stated, stated_at};
ghost use Rattle.blob.specs.Steps.{size_in};

use crate::answer::Blob;
use header::Refusal;
use words::Part;

// The blob that a block states: where it begins in the block, and its length.
#[derive(Clone, Copy)]
pub struct Stated {
    pub begin: u32,
    pub len: u32,
}

// Blocks begin at multiples of the unit and are so many units long.
const UNIT: usize = 4096;

// The low byte of an offset: OWN names a block of its own, those below ENTRIES an entry.
const LOW: u32 = 256;

const OWN: u32 = 0xff;

const ENTRIES: u32 = 64;

// A block's kind.
const OWN_KIND: u8 = 2;

const SUBALLOCATED: u8 = 3;

// In a block: its length in units; the length of a blob in a block of its own, and where that begins.
const UNITS: usize = 1;

const OWN_LENGTH: usize = 3;

const OWN_HEAD: u32 = 9;

// In a suballocated block: the first entry, an entry's size, and where the entries end.
const FIRST_ENTRY: usize = 12;

const ENTRY: usize = 5;

const ENTRIES_END: u32 = 332;

// In an entry: behind where its blob begins, the blob's units and the bytes of the last one.
const ENTRY_UNITS: usize = 1;

const ENTRY_LAST: usize = 4;

const ENTRY_UNIT: u32 = 16;

// The length of the block at a base; None for a block of no units, or one that is not inside the file.
fn size_in(mb: &[u8], base: usize) -> Option<usize>
    requires { base < 4294967296 }
    ensures { result ≡ size_in mb.now base }
{
    if mb.len() < base + UNIT {
        return None;
    }
    let units = words::word(mb, base + UNITS) as usize;
    if units == 0 {
        return None;
    }
    let size = UNIT * units;
    if mb.len() < base + size {
        return None;
    }
    Some(size)
}

// The blob of a block of its own.
fn own_stated(mb: &[u8], base: usize) -> Option<Stated>
    requires { base + mb_unit ≤ length mb.now }
    ensures { result ≡ own_stated mb.now base }
{
    if mb[base] != OWN_KIND {
        return None;
    }
    Some(Stated {
        begin: OWN_HEAD,
        len: words::long(mb, base + OWN_LENGTH),
    })
}

// The blob of the entry at `e`.
fn entry_blob(mb: &[u8], e: usize) -> Option<Stated>
    requires { e + entry_size ≤ length mb.now }
    ensures { result ≡ entry_blob mb.now e }
{
    let begin = ENTRY_UNIT * (mb[e] as u32);
    let units = mb[e + ENTRY_UNITS] as u32;
    let last = mb[e + ENTRY_LAST] as u32;
    if (1 <= units) & (1 <= last) & (last <= ENTRY_UNIT) & (ENTRIES_END <= begin) {
        return Some(Stated {
            begin,
            len: ENTRY_UNIT * (units - 1) + last,
        });
    }
    None
}

// The blob of entry `i` of a suballocated block.
fn entry_stated(mb: &[u8], base: usize, i: usize) -> Option<Stated>
    requires { (base + mb_unit ≤ length mb.now) × (i < entries) }
    ensures { result ≡ entry_stated mb.now base i }
{
    if mb[base] != SUBALLOCATED {
        return None;
    }
    entry_blob(mb, base + FIRST_ENTRY + ENTRY * i)
}

// The blob that the low byte of an offset names in the block at a base.
fn stated_at(mb: &[u8], base: usize, low: u32) -> Option<Stated>
    requires { base + mb_unit ≤ length mb.now }
    ensures { result ≡ stated_at mb.now base low }
{
    if low == OWN {
        return own_stated(mb, base);
    }
    if low < ENTRIES {
        return entry_stated(mb, base, low as usize);
    }
    None
}

// The blob of an offset and a length: the part of the file that it is, or 18.
pub fn body(mb: &[u8], offset: u32, len: u32) -> Result<Blob, Refusal>
    ensures { result ≡ body_of mb.now offset len }
{
    let low = offset % LOW;
    let base = (offset - low) as usize;
    if base % UNIT != 0 {
        return Err(Refusal::UnfitBlob);
    }
    let size = size_in(mb, base).ok_or(Refusal::UnfitBlob)?;
    let stated = stated_at(mb, base, low).ok_or(Refusal::UnfitBlob)?;
    if (stated.len == len) & (stated.begin as usize + stated.len as usize <= size) {
        return Ok(Blob::InMb(Part {
            start: base + stated.begin as usize,
            len: stated.len as usize,
        }));
    }
    Err(Refusal::UnfitBlob)
}
