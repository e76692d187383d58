// Lists the table on standard input, as document 01 says. What is printed is made by the library `listing`.
#![tactic(auto)]

use cursor::{Cursor, Step};

// The descriptors of standard input and output.
const STDIN_FILENO: i32 = 0;

const STDOUT_FILENO: i32 = 1;

// One byte more than the longest table that is listed, so that a longer one is seen.
const ROOM: usize = 65537;

fn main() {
    let mut space = [0u8; ROOM];
    let n = io::read_full(STDIN_FILENO, &mut space);
    list(&space[..n]);
}

// Prints the first line, and then the line of each record that the cursor comes to.
fn list(table: &[u8]) {
    let mut out = io::large_buffer();
    let head = listing::head(table, &mut out);
    io::write_all(STDOUT_FILENO, &out[..head.len]);
    let mut step = Cursor::start(table);
    for _ in 0..head.records {
        let Ok(Step::Record(cursor)) = step else {
            return;
        };
        let len = listing::line(table, cursor.block, cursor.place, &mut out);
        io::write_all(STDOUT_FILENO, &out[..len]);
        step = cursor.step(table);
    }
}
