// The field area: a type byte and a width byte a field (rule 7).
// The module is private: its functions are helpers of `answer::rest`, which meets what they require.
ghost use Rattle.std.specs.Prelude.{◌≡◌, true, ◌+◌, ◌*◌, ◌≤◌, length, replicate};
ghost use Rattle.words.specs.Each.{each};
ghost use Rattle.header.specs.Fields.{offsets_of, pair_right};
ghost use Rattle.header.specs.Steps.{pair_judged};

use crate::kind::FieldKind;

// The width of the pair at a place, if the table has its kind and it is no blob in the key.
fn width_at(t: &[u8], at: usize, keyed: bool) -> Option<usize>
    requires { at + 2 ≤ length t.now }
    ensures { result ≡ pair_judged t.now at keyed }
{
    let code = t[at];
    let width = t[at + 1] as usize;
    let kind = FieldKind::of(code, width)?;
    if keyed & kind.is_blob() {
        return None;
    }
    Some(width)
}

// Whether the pairs of n fields are right, the first `keys` of them key fields. Where they are, place
// i of `offsets` holds the widths of the first i fields added up; else its content is left open.
pub fn add_widths(t: &[u8], area: usize, keys: usize, n: usize, offsets: &mut [u16; 256]) -> bool
    requires { (n ≤ 255) × (area + 2 * n ≤ length t.now) × (offsets.old ≡ replicate 256 0) }
    ensures value { result ≡ each (pair_right t.now area keys) n }
    ensures offsets_after { result ≡ true → offsets.new ≡ offsets_of t.now area n }
{
    let mut sum: u16 = 0;
    for f in 0..n {
        let Some(width) = width_at(t, area + 2 * f, f < keys) else {
            return false;
        };
        sum += width as u16;
        offsets[f + 1] = sum;
    }
    true
}
