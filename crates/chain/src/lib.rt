// The chains of a table: a block's links, and the marks that note which chain has a block.
// The functions are helpers of the crates above, which have judged the file's sizes and the block's number.
#![tactic(auto)]

mod links;
pub mod marks;

pub use links::{next_of, previous_of};
