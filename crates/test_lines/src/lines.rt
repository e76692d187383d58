// A line of the cases: a name, a colon, and changes to a buffer that begins with a table. Numbers are hexadecimal.
// `900=0400` stores two bytes from 900 on, `d06'ant'` stores text, `z` makes the whole buffer zero. `5m` lends only the
// first 5 marks, `77t` only the first 119 bytes of the table, `57i` only the first 87 bytes of the index, `1p` has the
// marks filled with 01 before, otherwise with AA. Any other letter is a command, which the program carries out with the
// number before it; right behind a change that number is the place behind the last byte stored.
// A line that begins with `>` has no name: its changes stay for the cases that follow. `#` begins a comment.
use crate::print::letter;

// What the next byte belongs to; the low digit of a byte comes behind its high one.
#[derive(Clone, Copy)]
enum Mode {
    Start,
    Name,
    Number,
    High,
    Low { high: u8 },
    Text,
    Comment,
}

// What a line is.
#[derive(Clone, Copy, PartialEq, Eq)]
enum Kind {
    // Empty so far, or a comment.
    Nothing,
    Case,
    // A case with answers shown.
    Shown,
    // Changes that stay.
    Table,
}

// The table's bytes, and all bytes that the cases change: behind the table stands what a program has besides.
pub const TABLE_SIZE: usize = 6400;

pub const SIZE: usize = 32768;

pub type Buffer = [u8; SIZE];

// A line as far as it is read. `command` is the letter just read where that is the program's; `number` is the number or
// place before it, `first` and `second` are numbers before that one. `marks`, `long`, `index` and `fill` say what is
// lent.
#[derive(Clone, Copy)]
pub struct Line {
    pub command: Option<u8>,
    pub first: usize,
    pub second: usize,
    pub number: usize,
    pub marks: usize,
    pub long: usize,
    pub index: usize,
    pub fill: u8,
    kind: Kind,
    mode: Mode,
}

impl Line {
    pub fn fresh() -> Line {
        Line {
            command: None,
            first: 0,
            second: 0,
            number: 0,
            marks: 8,
            long: TABLE_SIZE,
            index: 0,
            fill: 0xaa,
            kind: Kind::Nothing,
            mode: Mode::Start,
        }
    }

    // The line after a command that showed an answer.
    pub fn answered(self) -> Line {
        Line {
            kind: Kind::Shown,
            number: 0,
            ..self
        }
    }

    // The line after a command that showed nothing. The next number or place is `number` until another one is read.
    pub fn noted(self, number: usize) -> Line {
        Line { number, ..self }
    }

    // Whether the line is a case that has shown no answer.
    pub fn is_unanswered(self) -> bool {
        self.kind == Kind::Case
    }

    // Whether the line's changes stay for the cases that follow.
    pub fn stays(self) -> bool {
        self.kind == Kind::Table
    }

    fn within(self, mode: Mode) -> Line {
        Line { mode, ..self }
    }
}

// The end of a line. Changes that stay are kept, and the next line starts from them.
pub fn end(t: &mut Buffer, first: &mut Buffer, line: Line) {
    match line.kind {
        Kind::Nothing => {}
        Kind::Table => *first = *t,
        Kind::Case | Kind::Shown => letter(b'\n'),
    }
    *t = *first;
}

// The value of a hexadecimal digit; of any other byte what its bits come to.
fn value(b: u8) -> u8 {
    if b < b'a' { b % 16 } else { (b % 16 + 9) % 16 }
}

// The value of a byte that is a hexadecimal digit.
fn digit(b: u8) -> Option<u8> {
    matches!(b, b'0'..=b'9' | b'a'..=b'f').then_some(value(b))
}

// Stores a byte and answers the place behind it. A place outside the buffer is left out.
pub fn store(t: &mut Buffer, at: usize, b: u8) -> usize {
    if at < SIZE {
        t[at] = b;
        return at + 1;
    }
    at
}

// A name is printed as it is read.
fn name(line: Line, b: u8) -> Line {
    letter(b);
    if b == b':' {
        return line.within(Mode::Number);
    }
    line
}

// The first byte of the line says what it is.
fn start(line: Line, b: u8) -> Line {
    match b {
        b'#' => line.within(Mode::Comment),
        b'>' => Line {
            kind: Kind::Table,
            mode: Mode::Number,
            ..line
        },
        _ => {
            let case = Line {
                kind: Kind::Case,
                mode: Mode::Name,
                ..line
            };
            name(case, b)
        }
    }
}

// A digit of a number, or the byte that says what the number is for.
fn number(t: &mut Buffer, line: Line, b: u8) -> Line {
    if let Some(value) = digit(b) {
        return line.noted(line.number % 4096 * 16 + value as usize);
    }
    let n = line.number;
    match b {
        0 => line,
        b' ' => line.noted(0),
        b'=' => line.within(Mode::High),
        b'\'' => line.within(Mode::Text),
        b'z' => {
            *t = [0u8; SIZE];
            line
        }
        b'm' => Line { marks: n, ..line },
        b't' => Line { long: n, ..line },
        b'i' => Line { index: n, ..line },
        b'p' => Line {
            fill: (n % 256) as u8,
            ..line
        },
        _ => Line {
            command: Some(b),
            ..line
        },
    }
}

// The high digit of the next byte. What is no digit ends the bytes.
fn high(t: &mut Buffer, line: Line, b: u8) -> Line {
    match digit(b) {
        Some(high) => line.within(Mode::Low { high }),
        None => number(t, line.within(Mode::Number), b),
    }
}

// The low digit, which completes a byte.
fn low(t: &mut Buffer, line: Line, high: u8, b: u8) -> Line {
    let behind = store(t, line.number, high % 16 * 16 + value(b) % 16);
    line.noted(behind).within(Mode::High)
}

// A byte of text; a quote ends it.
fn text(t: &mut Buffer, line: Line, b: u8) -> Line {
    if b == b'\'' {
        return line.within(Mode::Number);
    }
    let behind = store(t, line.number, b);
    line.noted(behind)
}

// Takes a byte of the line.
pub fn step(t: &mut Buffer, line: Line, b: u8) -> Line {
    let next = Line {
        command: None,
        ..line
    };
    match line.mode {
        Mode::Start => start(next, b),
        Mode::Name => name(next, b),
        Mode::Number => number(t, next, b),
        Mode::High => high(t, next, b),
        Mode::Low { high } => low(t, next, high, b),
        Mode::Text => text(t, next, b),
        Mode::Comment => next,
    }
}

// The first n bytes, or all of them where there are fewer.
pub fn part(s: &[u8], n: usize) -> &[u8] {
    &s[..n.min(s.len())]
}

// The bytes from place n on; none where there are fewer.
pub fn behind(s: &[u8], n: usize) -> &[u8] {
    &s[n.min(s.len())..]
}
