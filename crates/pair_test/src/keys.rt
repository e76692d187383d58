// Keys taken from the files, and their neighbours in byte order.
use crate::files::{byte, further};
use test_lines::lines::Buffer;

// The longest key that is taken from a record.
pub const LONGEST: usize = 255;

pub type Key = [u8; LONGEST];

// The n bytes from a place on, as a key.
pub fn key_at(t: &Buffer, at: usize, n: usize) -> Key {
    let mut key = [0u8; LONGEST];
    if LONGEST < n {
        return key;
    }
    for i in 0..n {
        key[i] = byte(t, further(at, i));
    }
    key
}

// Makes a key its neighbour in byte order: from the last of n bytes on, each one that `by` has no next for becomes
// `over`, up to one that it has.
fn step<F: Fn(u8) -> Option<u8>>(key: &mut Key, n: usize, by: F, over: u8)
    requires { F.IsAlwaysCallable by }
{
    if LONGEST < n {
        return;
    }
    for i in (0..n).rev() {
        if let Some(next) = by(key[i]) {
            key[i] = next;
            return;
        }
        key[i] = over;
    }
}

// Makes a key the one right behind it in byte order. Behind the greatest comes the least.
pub fn up(key: &mut Key, n: usize) {
    step(key, n, |b| b.checked_add(1), 0);
}

// Makes a key the one right before it. Before the least comes the greatest.
pub fn down(key: &mut Key, n: usize) {
    step(key, n, |b| b.checked_sub(1), 255);
}
