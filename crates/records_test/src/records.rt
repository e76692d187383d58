// What a cursor answers, with each of its numbers. A record is shown as its block, place and moves, ` 4.1/0`, the end
// as ` end 0.0/0*`, refusal 8 as ` !8 3.1/5`. A star stands behind a cursor that has ended.
use cursor::{Cursor, Refused, Step};
use test_lines::print::{letter, number, refused, say};

fn numbers(c: Cursor) {
    letter(b' ');
    number(c.block);
    letter(b'.');
    number(c.place);
    letter(b'/');
    number(c.moves);
    if c.ended {
        letter(b'*');
    }
}

// Shows an answer. Its cursor is returned, for another step.
pub fn show(answer: Result<Step, Refused>) -> Cursor {
    match answer {
        Ok(Step::Record(cursor)) => {
            numbers(cursor);
            cursor
        }
        Ok(Step::End(cursor)) => {
            say(b" end");
            numbers(cursor);
            cursor
        }
        Err(Refused { refusal, cursor }) => {
            refused(b" !", refusal);
            numbers(cursor);
            cursor
        }
    }
}

// Shows the start, and a step after each record: at most 64 answers.
pub fn list(table: &[u8]) -> Cursor {
    let mut answer = Cursor::start(table);
    for _ in 1..64 {
        let last = show(answer);
        let Ok(Step::Record(cursor)) = answer else {
            return last;
        };
        answer = cursor.step(table);
    }
    show(answer)
}
