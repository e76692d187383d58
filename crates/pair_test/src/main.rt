// Tables and indexes accepted and refused by the pair check, and keys sought by a walk and by a scan. The files are in
// the file `stdin`, written from document 01.
// Its functions are proved safe and promise nothing more: what they print is compared with the file `stdout`.
#![tactic(auto)]

mod answers;
mod cases;
mod every;
mod files;
mod keys;
mod sum;

use cases::Pairs;
use test_lines::cases::run;
use test_lines::print::STDIN_FILENO;

fn main() {
    let mut text = io::large_buffer();
    let n = io::read_full(STDIN_FILENO, &mut text);
    run(&mut Pairs::new(), &text[..n]);
}
