// A blob as text: `blank`, `table 2 at 1033`, `mb 39 at 4688`, `!18` for refusal 18. Behind it stand its bytes, `[ab]`.
use blob::Blob;
use header::Refusal;
use test_lines::print::{letter, number, refused, say};
use words::Part;

// No more bytes are shown.
const SHOWN: usize = 64;

fn part(file: &[u8], place: Part) {
    say(file);
    number(place.len as u64);
    say(b" at ");
    number(place.start as u64);
}

fn answer(blob: Result<Blob, Refusal>) {
    match blob {
        Ok(Blob::Blank) => say(b"blank"),
        Ok(Blob::InTable(place)) => part(b"table ", place),
        Ok(Blob::InMb(place)) => part(b"mb ", place),
        Err(refusal) => refused(b"!", refusal),
    }
}

// The bytes of a blob; an empty part is left out, and a long one.
fn bytes(s: &[u8]) {
    if s.is_empty() | (SHOWN < s.len()) {
        return;
    }
    letter(b' ');
    letter(b'[');
    say(s);
    letter(b']');
}

// Shows the blob at a block, place and field.
pub fn show<'a>(table: &'a [u8], mb: &'a [u8], block: usize, place: usize, field: usize) {
    letter(b' ');
    answer(blob::find(table, mb, block, place, field));
    bytes(blob::read(table, mb, block, place, field));
}
