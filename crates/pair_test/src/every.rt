// Every key of a table and its neighbours, looked up both ways. The records are taken from all blocks of the file, used
// or free, by the table's own words. Shown is ` 20 keys 20 fit 6 found 14 absent 0 differ 40 read`: for how many keys
// the pair was accepted, how many were found in one place both ways, were absent both ways, or neither, and the index
// blocks read for all of them. Before it stands the first key that is neither, with its lookups.
use crate::answers::{look_up, reads, show_lookups};
use crate::files::{MARKS, byte, further, index, table, word};
use crate::keys::{Key, LONGEST, down, key_at, up};
use crate::sum::{Agreement, Sum, both, counted, show};
use test_lines::lines::{Buffer, Line, part};
use test_lines::print::{bytes, say};

// Looks a key up both ways and counts it. The first difference is shown.
fn seek(t: &Buffer, line: Line, key: &Key, sum: Sum) -> Sum {
    let sought = part(key, line.number);
    let mut marks = [line.fill; MARKS];
    let lookups = look_up(table(t, line), index(t, line), sought, &mut marks);
    let how = both(lookups.walk, lookups.scan);
    if (how == Agreement::Differ) & (sum.differ == 0) {
        say(b" first ");
        bytes(sought);
        show_lookups(lookups);
    }
    counted(sum, lookups.pair.is_ok(), reads(lookups.walk), how)
}

// The key at a place, the one before it and the one behind it.
fn three(t: &Buffer, line: Line, at: usize, sum: Sum) -> Sum {
    let n = line.number;
    let mut key = key_at(t, at, n);
    let its = seek(t, line, &key, sum);
    down(&mut key, n);
    let below = seek(t, line, &key, its);
    up(&mut key, n);
    up(&mut key, n);
    seek(t, line, &key, below)
}

// The keys of the records of the block at `head`.
fn block(t: &Buffer, line: Line, head: usize, sum: Sum) -> Sum {
    let size = word(t, 0);
    let last = word(t, further(head, 4));
    if (size == 0) | (32767 < last) {
        return sum;
    }
    let mut at = further(head, 6);
    let mut s = sum;
    for _ in 0..(last / size).saturating_add(1) {
        s = three(t, line, at, s);
        at = further(at, size as usize);
    }
    s
}

// The least and the greatest key.
fn ends(t: &Buffer, line: Line, sum: Sum) -> Sum {
    let least = [0u8; LONGEST];
    let greatest = [255u8; LONGEST];
    let s = seek(t, line, &least, sum);
    seek(t, line, &greatest, s)
}

// Looks up every key of as many bytes as the line's number says.
pub fn every(t: &Buffer, line: Line) {
    let blocks = word(t, 0xc);
    let size = byte(t, 5) as usize * 1024;
    let mut head = word(t, 2) as usize;
    let mut s = Sum::default();
    for _ in 0..blocks {
        s = block(t, line, head, s);
        head = further(head, size);
    }
    show(ends(t, line, s));
}
