// What the blocks passed come to: their counts added up, and the keys of their records.
// The module is private: its functions are helpers of the used chain, which meets what they require.
ghost use Rattle.std.specs.Prelude.{◌≡◌, ◌≤◌};
ghost use Rattle.table.specs.Steps.{TallyWithin, add_block, most_before, nothing, tally_answer};

use crate::keys;
use crate::keys::Keys;
use blocks::BlockFile;
use header::Refusal;

// What blocks with good counts come to.
#[derive(Clone, Copy)]
pub struct Tally {
    // The counts added up.
    pub records: u32,
    pub keys: Keys,
}

impl Tally {
    // Before the first block.
    #[tactic(auto, unfolding(crate::specs::Steps::nothing))]
    pub fn start() -> Tally
        ensures { result ≡ nothing }
    {
        Tally {
            records: 0,
            keys: Keys::Empty,
        }
    }

    // What the tally of all used blocks answers, by the header's count: 9, 10, or that the rules are kept.
    #[tactic(auto, unfolding(crate::specs::Steps::tally_answer, crate::specs::Table::tests_answer))]
    pub fn answer(self, records: u32) -> Result<(), Refusal>
        ensures { result ≡ tally_answer self records }
    {
        if self.records != records {
            return Err(Refusal::WrongCount);
        }
        let keys = self.keys;
        if !keys.is_ordered() {
            return Err(Refusal::KeyOrder);
        }
        Ok(())
    }
}

// The tally with one block more; None from a bad count on. A helper of `used::follow_used` and no call for users: its
// caller has a block of the file, and a tally with room for the block's records.
pub fn with_block(file: &BlockFile, key: usize, tally: Option<Tally>, block: usize) -> Option<Tally>
    requires le_block { (1 ≤ block) × (block ≤ file.now.shape.blocks) }
    requires key_bound { key ≤ file.now.shape.record_size }
    requires within { TallyWithin file.now.bytes.now key most_before tally }
    ensures { result ≡ add_block file.now.bytes.now file.now.shape key tally block }
{
    let so_far = tally?;
    let count = file.count(block)?;
    let records = so_far.records + count as u32;
    let keys = keys::with_records(file, key, so_far.keys, block, count as usize);
    Some(Tally { records, keys })
}
