// The cases one after another. Of a case is printed its name and what its commands ask for; of one without commands,
// every cell of the table. Commands:
//   4.1/2?  the cell at block 4, place 1, field 2      l  every cell of the table
//   3.2/v=0001S  a value written with code 3 and width 2; the letter says of which kind it is
//   506.507/4x  a copy of 4 bytes from 506 on to 507
use crate::cells::show;
use crate::records::list;
use crate::values::VALUE;
use crate::written::write;
use test_lines::after::after;
use test_lines::cases::Cases;
use test_lines::lines::{Buffer, Line, part};

// How long the buffer is that a value is written into, and how many bytes are lent for a text, at a line's start.
const ROOM: usize = 12;

const LENT: usize = 7;

// What this program does with its cases.
#[derive(Drop)]
pub struct Cells;

impl Cases for Cells {
    fn ready(&self) -> Line {
        let mut line = Line::fresh();
        line.marks = ROOM;
        line.index = LENT;
        line
    }

    fn show(&self, t: &Buffer, line: Line) {
        list(part(t, line.long));
    }

    fn keep(&mut self, _line: Line) {}

    // Shows what a command asks for. Behind `v` the value's place is the next number.
    fn act(&mut self, t: &mut Buffer, line: Line) -> Line {
        let table = part(t, line.long);
        match line.command {
            Some(b'?') => show(b' ', table, line.first, line.second, line.number),
            Some(b'l') => list(table),
            Some(b'B' | b'S' | b'L' | b'D' | b'N' | b'F' | b'T' | b'P') => write(t, line),
            Some(b'v') => return line.noted(VALUE),
            _ => {}
        }
        after(t, line)
    }
}
