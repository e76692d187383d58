// Zero bytes: whether a range holds nothing else, and how many bytes stand before the first one.
// The functions are helpers of the crates above: each `requires` says where its bytes stand.
ghost use Rattle.std.specs.Prelude.{◌≡◌, ◌+◌, ◌≤◌, length};
ghost use Rattle.words.specs.Zeros.{all_zero, before_zero};

// Whether the `n` bytes at `at` are all zero.
pub fn all_zero(s: &[u8], at: usize, n: usize) -> bool
    requires { at + n ≤ length s.now }
    ensures { result ≡ all_zero s.now at n }
{
    for byte in &s[at..at + n] {
        if *byte != 0 {
            return false;
        }
    }
    true
}

// How many of the `n` bytes at `at` stand before the first zero; all of them where there is none.
pub fn before_zero(s: &[u8], at: usize, n: usize) -> usize
    requires { at + n ≤ length s.now }
    ensures { result ≡ before_zero s.now at n }
{
    s[at..at + n]
        .iter()
        .position(|byte| *byte == 0)
        .unwrap_or(n)
}
