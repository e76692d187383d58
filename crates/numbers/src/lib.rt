// What the calls answer, as numbers in lent memory: for programs that have neither enums nor structs of ours. It is the
// edge to C: an answer is 0 or the number of a refusal, and a kind is a number.
#![tactic(auto)]

mod blobs;
mod cells;
mod cursors;
mod fields;
mod given;
mod lent;
mod list;
mod run;
mod what;

pub use blobs::of_blob;
pub use cells::{of_cell, of_record};
pub use cursors::{start, step};
pub use fields::{of_field, of_header};
pub use given::write;
pub use lent::number_of;
