// What looking for a key finds.

// Where a record is: its block, and its place in that block.
#[derive(Clone, Copy, Debug, PartialEq, Eq)]
pub struct Found {
    pub block: u16,
    pub place: u16,
}
