// Numbers and byte order as the files have them: headers and block heads hold the low byte first, cells
// and index entries the high byte first, and keys compare byte by byte.
// The functions are helpers of the crates above: each `requires` says where its bytes stand.
#![tactic(auto)]

mod part;
mod zeros;

ghost use Rattle.std.specs.Prelude.{◌≡◌, ◌++◌, ◌+◌, ◌≤◌, drop, length};
ghost use Rattle.words.specs.Numbers.{big, digits, long, word};
ghost use Rattle.words.specs.Order.{order, range};

pub use part::Part;
use std::cmp::Ordering;
pub use zeros::{all_zero, before_zero};

// The little-endian number of the two bytes at `at`.
pub fn word(s: &[u8], at: usize) -> u16
    requires { at + 2 ≤ length s.now }
    ensures { result ≡ word s.now at }
{
    u16::from_le_bytes([s[at], s[at + 1]])
}

// The little-endian number of the four bytes at `at`.
pub fn long(s: &[u8], at: usize) -> u32
    requires { at + 4 ≤ length s.now }
    ensures { result ≡ long s.now at }
{
    u32::from_le_bytes([s[at], s[at + 1], s[at + 2], s[at + 3]])
}

// The big-endian number of the `width` bytes at `at`.
pub fn number(s: &[u8], at: usize, width: usize) -> u64
    requires { (width ≤ 8) × (at + width ≤ length s.now) }
    ensures { result ≡ big s.now at width }
{
    let mut n: u64 = 0;
    for byte in &s[at..at + width] {
        n = n * 256 + u64::from(*byte);
    }
    n
}

// Writes the low `width` bytes of `n`, high byte first, into the first bytes of a buffer.
pub fn put_number(buffer: &mut [u8], width: usize, n: u64)
    requires { width ≤ length buffer.old }
    ensures { buffer.new ≡ digits width n ++ drop width buffer.old }
{
    let mut m = n;
    for i in (0..width).rev() {
        buffer[i] = (m % 256) as u8;
        m /= 256;
    }
}

// The big-endian number of the eight bytes at `at`: a compiler makes one load and one instruction of it.
pub fn eight(s: &[u8], at: usize) -> u64
    requires { at + 8 ≤ length s.now }
    ensures { result ≡ big s.now at 8 }
{
    u64::from_be_bytes([
        s[at],
        s[at + 1],
        s[at + 2],
        s[at + 3],
        s[at + 4],
        s[at + 5],
        s[at + 6],
        s[at + 7],
    ])
}

// How the `n` bytes of `a` from `p` compare with the `n` bytes of `b` from `q`: eight at a time, as numbers, and then
// what is left.
pub fn compare(a: &[u8], p: usize, b: &[u8], q: usize, n: usize) -> Ordering
    requires { (p + n ≤ length a.now) × (q + n ≤ length b.now) }
    ensures { result ≡ order (range a.now p n) (range b.now q n) }
{
    for i in 0..n / 8 {
        let order = eight(a, p + 8 * i).cmp(&eight(b, q + 8 * i));
        if order.is_ne() {
            return order;
        }
    }
    let done = 8 * (n / 8);
    let rest = &a[p + done..p + n];
    rest.cmp(&b[q + done..q + n])
}
