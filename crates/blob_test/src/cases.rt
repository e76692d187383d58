// The cases one after another. Of a case is printed its name and what its commands ask for:
//   1.0/2?  the blob at block 1, place 0, field 2
// The table stands from 0 on, the MB file from 2000 on.
use crate::blobs::show;
use test_lines::after::after;
use test_lines::cases::Cases;
use test_lines::lines::{Buffer, Line, behind, part};

const MB: usize = 0x2000;

// How long the table and the MB file are at a line's start.
const TABLE_LENT: usize = 0x800;

const MB_LENT: usize = 0x4000;

// Shows the blob that a command asks for.
fn ask(t: &Buffer, line: Line) {
    let table = part(t, line.long);
    let mb = part(behind(t, MB), line.index);
    show(table, mb, line.first, line.second, line.number);
}

// What this program does with its cases.
#[derive(Drop)]
pub struct Blobs;

impl Cases for Blobs {
    fn ready(&self) -> Line {
        let mut line = Line::fresh();
        line.long = TABLE_LENT;
        line.index = MB_LENT;
        line
    }

    fn show(&self, _t: &Buffer, _line: Line) {}

    fn keep(&mut self, _line: Line) {}

    fn act(&mut self, t: &mut Buffer, line: Line) -> Line {
        if line.command == Some(b'?') {
            ask(t, line);
        }
        after(t, line)
    }
}
