// Answers as text. The pair check's is its number, ` 27`. A scan's is a block and place, ` 4.1`, ` -` for absent or
// ` !13` for refusal 13; a walk's has the index blocks read behind it, ` 4.1/2`. Lookups show the three of them,
// ` 0:4.1/2:4.1`. The marks are shown whole, lent or not.
use crate::files::{MARKS, index, key, table};
use header::Refusal;
use index::Walked;
use lookup::Found;
use test_lines::lines::{Buffer, Line};
use test_lines::print::{bytes, letter, number, refused, verdict};

fn show(found: Result<Option<Found>, Refusal>) {
    match found {
        Ok(Some(found)) => {
            number(found.block);
            letter(b'.');
            number(found.place);
        }
        Ok(None) => letter(b'-'),
        Err(refusal) => refused(b"!", refusal),
    }
}

// How many index blocks a walk has read; a refused one counts none.
pub fn reads(walk: Result<Walked, Refusal>) -> u8 {
    match walk {
        Ok(walked) => walked.reads,
        Err(_) => 0,
    }
}

fn show_walk(walk: Result<Walked, Refusal>) {
    match walk {
        Ok(walked) => show(Ok(walked.found)),
        Err(refusal) => refused(b"!", refusal),
    }
    letter(b'/');
    number(reads(walk));
}

// 0, or the refusal's number.
fn show_check(pair: Result<(), Refusal>) {
    letter(b' ');
    verdict(pair);
}

// The pair check's answer, and a key looked up both ways.
#[derive(Clone, Copy)]
pub struct Lookups {
    pub pair: Result<(), Refusal>,
    pub walk: Result<Walked, Refusal>,
    pub scan: Result<Option<Found>, Refusal>,
}

// The walk is that of looking the key up in the pair, where the pair is accepted.
pub fn look_up(table: &[u8], index: &[u8], key: &[u8], marks: &mut [u8]) -> Lookups {
    let both = pair::look_up(table, index, key, marks);
    let pair = pair::check(table, index, marks);
    let walk = match pair {
        Ok(()) => both,
        Err(_) => index::walk(table, index, key),
    };
    let scan = scan::find(table, key, marks);
    Lookups { pair, walk, scan }
}

pub fn show_lookups(lookups: Lookups) {
    show_check(lookups.pair);
    letter(b':');
    show_walk(lookups.walk);
    letter(b':');
    show(lookups.scan);
}

// Shows what a command asks for.
fn ask(table: &[u8], index: &[u8], key: &[u8], marks: &mut [u8], command: Option<u8>) {
    match command {
        Some(b'w') => {
            letter(b' ');
            show_walk(index::walk(table, index, key));
        }
        Some(b's') => {
            letter(b' ');
            show(scan::find(table, key, marks));
        }
        Some(b'l' | b'h') => show_lookups(look_up(table, index, key, marks)),
        _ => show_check(pair::check(table, index, marks)),
    }
}

// Asks with the first marks lent. More marks than there are cannot be lent.
fn lend(table: &[u8], index: &[u8], key: &[u8], marks: &mut [u8], line: Line) {
    if let Some(lent) = marks.get_mut(..line.marks) {
        ask(table, index, key, lent, line.command);
    }
}

fn show_marks(marks: &[u8; MARKS]) {
    letter(b' ');
    bytes(marks);
}

// Shows the answer to the line's command; `!` and `h` show the marks too.
pub fn answer(t: &Buffer, line: Line) {
    let mut marks = [line.fill; MARKS];
    lend(
        table(t, line),
        index(t, line),
        key(t, line),
        &mut marks,
        line,
    );
    if matches!(line.command, Some(b'!' | b'h')) {
        show_marks(&marks);
    }
}
