// A value written into a lent buffer: the answer and the whole buffer afterwards, ` 0:8001aaaa`.
use crate::values::value_of;
use header::Refusal;
use test_lines::lines::{Buffer, Line, behind, part};
use test_lines::print::{bytes, letter, verdict};

// Where the bytes lent for a text stand.
const TEXT: usize = 0x7100;

// The longest buffer that can be lent.
const LONGEST: usize = 256;

// 0, or the refusal's number, and the buffer.
fn print(answer: Result<(), Refusal>, buffer: &[u8]) {
    letter(b' ');
    verdict(answer);
    letter(b':');
    bytes(buffer);
}

// Writes the value that the line's command names, with the code and the width before it. A buffer of more bytes than
// there are cannot be lent.
pub fn write(t: &Buffer, line: Line) {
    let code = (line.first % 256) as u8;
    let v = value_of(t, line.command);
    let text = part(behind(t, TEXT), line.index);
    let mut buffer = [line.fill; LONGEST];
    if let Some(lent) = buffer.get_mut(..line.marks) {
        let answer = cell::write(code, line.second, v, text, lent);
        print(answer, lent);
    }
}
