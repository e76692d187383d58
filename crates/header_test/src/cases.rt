// The cases one after another. Of a case is printed its name and what its commands ask for; of one without commands,
// the header and its fields. Commands:
//   !  the header: refusal and numbers      5?  field 5
//   78.7a/1fcx  a copy of 508 bytes from 78 on to 7A
use crate::{answers, fields};
use test_lines::after::after;
use test_lines::cases::Cases;
use test_lines::lines::{Buffer, Line, part};

// The header and, of an accepted table, its fields.
fn show(table: &[u8]) {
    let n = answers::show(table);
    if 1 <= n {
        fields::show_all(table, n);
    }
}

// What this program does with its cases.
#[derive(Drop)]
pub struct Headers;

impl Cases for Headers {
    fn ready(&self) -> Line {
        Line::fresh()
    }

    fn show(&self, t: &Buffer, line: Line) {
        show(part(t, line.long));
    }

    fn keep(&mut self, _line: Line) {}

    // Shows what a command asks for.
    fn act(&mut self, t: &mut Buffer, line: Line) -> Line {
        let table = part(t, line.long);
        match line.command {
            Some(b'!') => {
                answers::show(table);
            }
            Some(b'?') => fields::show(table, line.number),
            _ => {}
        }
        after(t, line)
    }
}
