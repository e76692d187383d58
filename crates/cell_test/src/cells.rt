// A cell as text: `short 12`, `blank`, `!13` for refusal 13. Behind a text, `text 3 at 1286`, stand its bytes, `[cog]`.
use cell::Value;
use test_lines::print::{STDOUT_FILENO, letter, number, refused, say};

// The number n - top, which may be below 0.
fn less(n: u64, top: u64) {
    if n < top {
        letter(b'-');
        number(top - n);
        return;
    }
    number(n - top);
}

fn short(z: i16) {
    say(b"short ");
    less(cell::shifted_short(z), 32768);
}

fn long(z: i32) {
    say(b"long ");
    less(cell::shifted_long(z), 2147483648);
}

fn date(day: u32) {
    say(b"date ");
    number(day);
}

// The bits of a double, high first; a not-a-number has none to ask for.
fn double(x: f64) {
    say(b"number ");
    if !x.is_nan() {
        io::print_hex(STDOUT_FILENO, x.to_bits(), 16);
    }
}

fn logical(b: bool) {
    say(b"logical ");
    letter(if b { b'T' } else { b'F' });
}

fn text(start: usize, len: usize) {
    say(b"text ");
    number(len as u64);
    say(b" at ");
    number(start as u64);
}

fn value(v: Value) {
    match v {
        Value::Blank => say(b"blank"),
        Value::Short(z) => short(z),
        Value::Long(z) => long(z),
        Value::Date(day) => date(day),
        Value::Number(x) => double(x),
        Value::Logical(b) => logical(b),
        Value::Text { start, len } => text(start, len),
    }
}

// The text of a cell; an empty part is left out.
fn bytes(s: &[u8]) {
    if s.is_empty() {
        return;
    }
    letter(b' ');
    letter(b'[');
    say(s);
    letter(b']');
}

// Shows the cell at a block, place and field, with a letter before it.
pub fn show(before: u8, table: &[u8], block: usize, place: usize, field: usize) {
    letter(before);
    match cell::read(table, block, place, field) {
        Ok(v) => value(v),
        Err(refusal) => refused(b"!", refusal),
    }
    bytes(cell::text(table, block, place, field));
}
