// Blobs of tables with their MB files. The files are in the file `stdin`, written from request 01 and source document
// 001.
// Its functions are proved safe and promise nothing more: what they print is compared with the file `stdout`.
#![tactic(auto)]

mod blobs;
mod cases;

use cases::Blobs;
use test_lines::cases::run;
use test_lines::print::STDIN_FILENO;

fn main() {
    let mut text = io::large_buffer();
    let n = io::read_full(STDIN_FILENO, &mut text);
    run(&mut Blobs, &text[..n]);
}
