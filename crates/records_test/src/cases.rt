// The cases one after another. Of a case is printed its name and what its commands ask for; of one without commands,
// its records one after another. Commands:
//   l  the records one after another      s  the start alone
//   4.1/2n  a step of the cursor at block 4, place 1, after 2 moves      4.1/2*  the same where it has ended
//   r  a step of the cursor that the last answer gave
//   k'ant'?  k=616e74?  k?  a scan for a key; with `!` instead of `?` also the marks
use crate::keys::ask;
use crate::records::{list, show};
use cursor::Cursor;
use test_lines::cases::Cases;
use test_lines::lines::{Buffer, Line, TABLE_SIZE, part};

// The cursor before any answer.
fn no_cursor() -> Cursor {
    Cursor {
        block: 0,
        place: 0,
        moves: 0,
        ended: true,
    }
}

// The cursor with the line's number as block, as place, or as moves.
fn given(line: Line, command: u8, cursor: Cursor) -> Cursor {
    let n = (line.number % 65536) as u16;
    let ended = command == b'*';
    match command {
        b'.' => Cursor {
            block: n,
            ended,
            ..cursor
        },
        b'/' => Cursor {
            place: n,
            ended,
            ..cursor
        },
        _ => Cursor {
            moves: n,
            ended,
            ..cursor
        },
    }
}

// Carries out a command. The cursor that is returned is the one of its answer.
fn act(t: &Buffer, line: Line, cursor: Cursor) -> Cursor {
    let Some(command) = line.command else {
        return cursor;
    };
    let table = part(t, line.long);
    match command {
        b'.' | b'/' => given(line, command, cursor),
        b'n' | b'*' => show(given(line, command, cursor).step(table)),
        b'r' => show(cursor.step(table)),
        b's' => show(Cursor::start(table)),
        b'l' => list(table),
        b'?' | b'!' => {
            ask(t, line);
            cursor
        }
        _ => cursor,
    }
}

// The line after a command.
fn after(line: Line) -> Line {
    match line.command {
        None => line,
        Some(b'k') => line.noted(TABLE_SIZE),
        Some(b'.' | b'/') => line.noted(0),
        Some(_) => line.answered(),
    }
}

// What this program does with its cases: the cursor is that of the last answer.
#[derive(Drop)]
pub struct Records {
    cursor: Cursor,
}

impl Records {
    // Before any answer.
    pub fn new() -> Records {
        Records {
            cursor: no_cursor(),
        }
    }
}

impl Cases for Records {
    fn ready(&self) -> Line {
        Line::fresh()
    }

    fn show(&self, t: &Buffer, line: Line) {
        list(part(t, line.long));
    }

    fn keep(&mut self, _line: Line) {}

    fn act(&mut self, t: &mut Buffer, line: Line) -> Line {
        self.cursor = act(t, line, self.cursor);
        after(line)
    }
}
