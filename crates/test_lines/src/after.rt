// What a program's command leaves behind. A command may have two numbers before its own, `4.1/2?`, which the line then
// holds as `first` and `second`; `3406.340f/12x` copies 18 bytes from 3406 on to 340F.
use crate::lines::{Buffer, Line, SIZE, store};

// Copies bytes one after another: where the places overlap, what was just stored is copied again.
fn copy(t: &mut Buffer, line: Line) {
    let mut from = line.first;
    let mut to = line.second;
    for _ in 0..line.number {
        if from < SIZE {
            let b = t[from];
            to = store(t, to, b);
            from += 1;
        }
    }
}

// The line with its number as the first of a command's, or as the second.
fn given(line: Line, command: u8) -> Line {
    let mut next = line.noted(0);
    if command == b'.' {
        next.first = line.number;
    } else {
        next.second = line.number;
    }
    next
}

// The line after a command.
pub fn after(t: &mut Buffer, line: Line) -> Line {
    let Some(command) = line.command else {
        return line;
    };
    match command {
        b'.' | b'/' => given(line, command),
        b'x' => {
            copy(t, line);
            line.noted(0)
        }
        _ => line.answered(),
    }
}
