// The keys of records passed one after another: whether each is less than the next.
// The module is private: its functions are helpers of the tally, which meets what they require.
ghost use Rattle.std.specs.Prelude.{◌≡◌, ◌+◌, ◌-◌, ◌≤◌, length};
ghost use Rattle.blocks.specs.Shape.{RunInside};
ghost use Rattle.table.specs.declared.keys.Keys.TheVariants.{Last};
ghost use Rattle.table.specs.Steps.{KeyInside, is_ordered, keys_after, run_after};

use blocks::BlockFile;

// The keys passed so far.
#[derive(Clone, Copy)]
pub enum Keys {
    // There was none.
    Empty,
    // Each was less than the next; where the last one stands.
    Last(usize),
    // One was not less than the next.
    Unordered,
}

impl Keys {
    // Whether each key was less than the next.
    #[tactic(auto, unfolding(crate::specs::Steps::is_ordered))]
    pub fn is_ordered(self) -> bool
        ensures { result ≡ is_ordered self }
    {
        !matches!(self, Keys::Unordered)
    }
}

// The keys passed, with those of a block's `count` records; of key length 0 no key is looked at.
pub fn with_records(file: &BlockFile, key: usize, keys: Keys, block: usize, count: usize) -> Keys
    requires { RunInside file.now.bytes.now file.now.shape key block count × KeyInside file.now.bytes.now key keys }
    ensures { result ≡ run_after file.now.bytes.now file.now.shape key block count keys }
{
    if key == 0 {
        return keys;
    }
    if count == 0 {
        return keys;
    }
    match keys {
        Keys::Empty => {
            let first = file.shape.record_at(block, 0);
            ascend(file, key, first, block, 1, count)
        }
        Keys::Last(before) => ascend(file, key, before, block, 0, count),
        Keys::Unordered => Keys::Unordered,
    }
}

// The keys of a block's records from a place on, after a key that stands at `before`. It ends at the first
// key that is not greater than the one before it.
fn ascend(
    file: &BlockFile,
    key: usize,
    before: usize,
    block: usize,
    from: usize,
    count: usize,
) -> Keys
    requires run_inside { RunInside file.now.bytes.now file.now.shape key block count }
    requires before_inside { before + key ≤ length file.now.bytes.now }
    requires from_bound { from ≤ count }
    ensures { result ≡ keys_after file.now.bytes.now file.now.shape key block from (count - from) (Last before) }
{
    let bytes = file.bytes;
    let mut last = before;
    for place in from..count {
        let at = file.shape.record_at(block, place);
        if !words::compare(bytes, last, bytes, at, key).is_lt() {
            return Keys::Unordered;
        }
        last = at;
    }
    Keys::Last(last)
}
