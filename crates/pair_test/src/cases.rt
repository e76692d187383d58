// The cases one after another. Of a case is printed its name and what its commands ask for; of one without commands,
// the pair check's answer and the marks. Commands:
//   ?  the pair check      !  the same and the marks
//   k'ant'w  k=616e74w  kw  a walk for a key      k'ant's  a scan for it
//   k'ant'l  the key looked up both ways with the pair check before      k'ant'h  the same and the marks
//   3v  every key of 3 bytes and its neighbours looked up both ways
//   3406.340f/12x  a copy of 18 bytes from 3406 on to 340F
use crate::answers::answer;
use crate::every::every;
use crate::files::{KEY, MARKS};
use test_lines::after::after;
use test_lines::cases::Cases;
use test_lines::lines::{Buffer, Line};

// What this program does with its cases: the lengths are those that lines with `>` have set.
#[derive(Drop)]
pub struct Pairs {
    table: usize,
    index: usize,
}

impl Pairs {
    // Nothing is lent at first.
    pub fn new() -> Pairs {
        Pairs { table: 0, index: 0 }
    }
}

impl Cases for Pairs {
    // With the lengths that stay and all marks lent.
    fn ready(&self) -> Line {
        let mut line = Line::fresh();
        line.marks = MARKS;
        line.long = self.table;
        line.index = self.index;
        line
    }

    fn show(&self, t: &Buffer, line: Line) {
        let mut asked = line;
        asked.command = Some(b'!');
        answer(t, asked);
    }

    fn keep(&mut self, line: Line) {
        self.table = line.long;
        self.index = line.index;
    }

    // Carries out a command. Behind `k` the key's place is the next number.
    fn act(&mut self, t: &mut Buffer, line: Line) -> Line {
        match line.command {
            Some(b'v') => every(t, line),
            Some(b'?' | b'!' | b'w' | b's' | b'l' | b'h') => answer(t, line),
            Some(b'k') => return line.noted(KEY),
            _ => {}
        }
        after(t, line)
    }
}
