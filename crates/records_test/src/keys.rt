// What a scan answers: the record's block and place, ` 4.1`, ` -` for absent, ` !13` for refusal 13. The marks may be
// shown behind it, all 8, lent or not.
use header::Refusal;
use lookup::Found;
use test_lines::lines::{Buffer, Line, TABLE_SIZE, behind, part};
use test_lines::print::{bytes, letter, number, refused, say};

fn show(found: Result<Option<Found>, Refusal>) {
    match found {
        Ok(Some(found)) => {
            letter(b' ');
            number(found.block);
            letter(b'.');
            number(found.place);
        }
        Ok(None) => say(b" -"),
        Err(refusal) => refused(b" !", refusal),
    }
}

// Scans with the first marks lent. More marks than there are cannot be lent.
fn find(table: &[u8], key: &[u8], marks: &mut [u8], most: usize) {
    if let Some(lent) = marks.get_mut(..most) {
        show(scan::find(table, key, lent));
    }
}

// Scans for the key that stands behind the table and ends where the line stands; `!` shows the marks too.
pub fn ask(t: &Buffer, line: Line) {
    let table = part(t, line.long);
    let sought = behind(part(t, line.number), TABLE_SIZE);
    let mut marks = [line.fill; 8];
    find(table, sought, &mut marks, line.marks);
    if line.command == Some(b'!') {
        letter(b' ');
        bytes(&marks);
    }
}
