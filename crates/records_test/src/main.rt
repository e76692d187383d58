// Records of tables one after another, and keys sought by a scan, on tables accepted and refused. The tables are in
// the file `stdin`, written from document 01.
// Its functions are proved safe and promise nothing more: what they print is compared with the file `stdout`.
#![tactic(auto)]

mod cases;
mod keys;
mod records;

use cases::Records;
use test_lines::cases::run;
use test_lines::print::STDIN_FILENO;

fn main() {
    let mut text = io::large_buffer();
    let n = io::read_full(STDIN_FILENO, &mut text);
    run(&mut Records::new(), &text[..n]);
}
