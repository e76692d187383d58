// The field names: zero-ended, 1 to 25 bytes each, wholly inside the header (rule 7).
// The module is private: its functions are helpers of `answer::rest` and `Table::name`, which meet what they require.
ghost use Rattle.std.specs.Prelude.{◌≡◌, true, suc, ◌≤◌, length};
ghost use Rattle.header.specs.Fields.{name_length, name_start, names_fit};
ghost use Rattle.header.specs.Steps.{next_name};

const LONGEST_NAME: usize = 25;

// Where the name after the one at `at` begins, if that one fits: one name of the loop below.
fn name_end(t: &[u8], at: usize, end: usize) -> Option<usize>
    requires { (at ≤ end) × (end ≤ length t.now) }
    ensures { result ≡ next_name t.now end at }
{
    for i in 0..=LONGEST_NAME {
        if end <= at + i {
            return None;
        }
        if t[at + i] == 0 {
            if i == 0 {
                return None;
            }
            return Some(at + i + 1);
        }
    }
    None
}

// Whether n names fit from a place to the header's end.
pub fn names_fit(t: &[u8], start: usize, end: usize, n: usize) -> bool
    requires { (start ≤ end) × (end ≤ length t.now) }
    ensures { result ≡ names_fit t.now end n start }
{
    let mut at = start;
    for _ in 0..n {
        let Some(next) = name_end(t, at, end) else {
            return false;
        };
        at = next;
    }
    true
}

// The length of the name at a place, one that fits.
pub fn name_length(t: &[u8], at: usize, end: usize) -> usize
    requires { (end ≤ length t.now) × (names_fit t.now end 1 at ≡ true) }
    ensures { result ≡ name_length t.now at }
{
    words::before_zero(t, at, end - at)
}

// Where the name behind n others begins, all of which fit and that name too.
pub fn name_start(t: &[u8], start: usize, end: usize, n: usize) -> usize
    requires { (end ≤ length t.now) × (names_fit t.now end (suc n) start ≡ true) }
    ensures { result ≡ name_start t.now n start }
{
    let mut at = start;
    for _ in 0..n {
        at += name_length(t, at, end) + 1;
    }
    at
}
