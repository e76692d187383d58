// What the test programs share: cases read from lines of text, bytes copied, and answers printed.
// Its functions are proved safe and promise nothing more: what a program prints is compared with its file `stdout`.
#![tactic(auto)]

pub mod after;
pub mod cases;
pub mod lines;
pub mod print;
