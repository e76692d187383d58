// The cases one after another. Of a case is printed: its name, the answer, and all 8 marks afterwards, lent or not; or
// its name and the answers that it asks for by `!`, with all lent.
use test_lines::cases::Cases;
use test_lines::lines::{Buffer, Line, TABLE_SIZE, part};
use test_lines::print::{bytes, letter, verdict};

// Shows the answer for a table and the first marks: 0, or the refusal's number. More marks than there are cannot be
// lent.
fn answer(table: &[u8], marks: &mut [u8], most: usize) {
    let Some(lent) = marks.get_mut(..most) else {
        return;
    };
    letter(b' ');
    verdict(table::check(table, lent));
}

// The answer and the marks.
fn show(t: &Buffer, line: Line) {
    let mut marks = [line.fill; 8];
    answer(part(t, line.long), &mut marks, line.marks);
    letter(b' ');
    bytes(&marks);
}

// The answer alone, all being lent.
fn ask(t: &Buffer) {
    let mut marks = [0xaau8; 8];
    answer(part(t, TABLE_SIZE), &mut marks, 8);
}

// What this program does with its cases.
#[derive(Drop)]
pub struct Tables;

impl Cases for Tables {
    fn ready(&self) -> Line {
        Line::fresh()
    }

    fn show(&self, t: &Buffer, line: Line) {
        show(t, line);
    }

    fn keep(&mut self, _line: Line) {}

    fn act(&mut self, t: &mut Buffer, line: Line) -> Line {
        if line.command == Some(b'!') {
            ask(t);
            return line.answered();
        }
        line
    }
}
