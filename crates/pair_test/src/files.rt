// Where the two files and the key stand in the buffer that the cases change: the table from 0 on, the index from 3000
// on, the key from 6000 on; and the bytes there.
use test_lines::lines::{Buffer, Line, SIZE, behind, part};

const INDEX: usize = 0x3000;

pub const KEY: usize = 0x6000;

// How many marks there are. Fewer of them may be lent.
pub const MARKS: usize = 16;

// The bytes of the table that are lent.
pub fn table(t: &Buffer, line: Line) -> &[u8] {
    part(t, line.long)
}

// The bytes of the index that are lent.
pub fn index(t: &Buffer, line: Line) -> &[u8] {
    part(behind(t, INDEX), line.index)
}

// The key that ends where the line stands.
pub fn key(t: &Buffer, line: Line) -> &[u8] {
    behind(part(t, line.number), KEY)
}

// A place further on, at most the buffer's end.
pub fn further(at: usize, by: usize) -> usize {
    at.saturating_add(by).min(SIZE)
}

// The byte at a place; 0 outside the buffer.
pub fn byte(t: &Buffer, at: usize) -> u8 {
    if at < SIZE {
        return t[at];
    }
    0
}

// The little-endian number of two bytes.
pub fn word(t: &Buffer, at: usize) -> u16 {
    u16::from_le_bytes([byte(t, at), byte(t, further(at, 1))])
}
