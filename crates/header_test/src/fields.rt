// A field of a table: kind, width and offset, ` | text 3 at 0`; ` | -` where there is no such field, ` | !7` where the
// table is refused with 7.
use header::{Field, FieldKind, Table};
use test_lines::print::{letter, number, refused, say};

fn name(kind: FieldKind) {
    match kind {
        FieldKind::Text => say(b"text "),
        FieldKind::Date => say(b"date "),
        FieldKind::Short => say(b"short "),
        FieldKind::Long => say(b"long "),
        FieldKind::Number => say(b"number "),
        FieldKind::Logical => say(b"logical "),
        FieldKind::Blob => say(b"blob "),
    }
}

fn values(field: Field) {
    name(field.kind);
    number(field.width);
    say(b" at ");
    number(field.offset);
}

// Shows field f, or the table's refusal.
pub fn show(table: &[u8], f: usize) {
    say(b" | ");
    match Table::open(table) {
        Ok(opened) => match opened.field(f) {
            Some(field) => values(field),
            None => letter(b'-'),
        },
        Err(refusal) => refused(b"!", refusal),
    }
}

// Shows each of n fields, with the numbers right before and behind theirs.
pub fn show_all(table: &[u8], n: u16) {
    for f in 0..n as usize + 2 {
        show(table, f);
    }
}
