// The cases of some lines one after another.
use crate::lines::{Buffer, Line, SIZE, end, step};

// What a test program does with its cases.
pub trait Cases {
    // A new line.
    fn ready(&self) -> Line;

    // Shows a case that has asked for nothing.
    fn show(&self, t: &Buffer, line: Line);

    // Takes note of a line whose changes stay.
    fn keep(&mut self, line: Line);

    // Carries out the command that a line may have; the line after it.
    fn act(&mut self, t: &mut Buffer, line: Line) -> Line;
}

// Shows the cases of some lines; at first all bytes are zero.
pub fn run<C: Cases>(cases: &mut C, lines: &[u8]) {
    let mut t = [0u8; SIZE];
    let mut first = [0u8; SIZE];
    let mut line = cases.ready();
    for b in lines {
        if *b == b'\n' {
            if line.is_unanswered() {
                cases.show(&t, line);
            }
            if line.stays() {
                cases.keep(line);
            }
            end(&mut t, &mut first, line);
            line = cases.ready();
        } else {
            line = step(&mut t, line, *b);
        }
        line = cases.act(&mut t, line);
    }
}
