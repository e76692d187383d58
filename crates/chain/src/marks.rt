// The marks of blocks: byte b - 1 of a lent buffer is block b's.
ghost use Rattle.std.specs.Prelude.{◌≡◌, ◌++◌, ◌≤◌, drop, length, replicate};
ghost use Rattle.chain.specs.Marks.{all_marked, is_unmarked, unmarked};

// No chain has the block so far.
pub const UNMARKED: u8 = 0;

pub const USED: u8 = 1;

pub const FREE: u8 = 2;

// Takes the marks of the first `n` blocks away. A helper: its caller lends a mark for each of them.
pub fn clear(marks: &mut [u8], n: usize)
    requires { n ≤ length marks.old }
    ensures { marks.new ≡ replicate n unmarked ++ drop n marks.old }
{
    marks[..n].fill(UNMARKED);
}

// Whether every block has a mark.
pub fn all_marked(marks: &[u8]) -> bool
    ensures { result ≡ all_marked marks.now }
{
    !marks.contains(&UNMARKED)
}

// Whether a number is that of a block without a mark; there are as many blocks as marks.
pub fn is_unmarked(marks: &[u8], block: usize) -> bool
    ensures { result ≡ is_unmarked marks.now block }
{
    if block < 1 {
        return false;
    }
    if marks.len() < block {
        return false;
    }
    marks[block - 1] == UNMARKED
}
