// Tables accepted and refused by the table check, and what the mark buffer holds afterwards. The tables are in the
// file `stdin`, written from document 01.
// Its functions are proved safe and promise nothing more: what they print is compared with the file `stdout`.
#![tactic(auto)]

mod cases;

use cases::Tables;
use test_lines::cases::run;
use test_lines::print::STDIN_FILENO;

fn main() {
    let mut text = io::large_buffer();
    let n = io::read_full(STDIN_FILENO, &mut text);
    run(&mut Tables, &text[..n]);
}
