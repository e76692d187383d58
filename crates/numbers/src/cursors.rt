// A cursor as one number: started and stepped.
ghost use Rattle.std.specs.Prelude.{◌≡◌, ◌≤◌, length};
ghost use Rattle.numbers.specs.Cursor.{cursor_in, cursor_number, put_step, start_answer, start_lent};
ghost use Rattle.numbers.specs.Cursor.{step_answer, step_lent};

use crate::lent;
use cursor::{Cursor, Step};
use header::Refusal;

// What the parts of a cursor's number are multiplied with: whether it stands on a record, block, place and moves.
const STANDS: u64 = 0x100;

const BLOCK: u64 = 0x10000;

const PLACE: u64 = 0x100000000;

const MOVES: u64 = 0x1000000000000;

// A block, a place and the moves have 16 bits each; whether it stands on a record has 8.
const PART: u64 = 0x10000;

const FLAG: u64 = 0x100;

// The answer where a record came.
const CAME: u32 = 0x100;

// A cursor as one number. An ended one whose numbers are 0 is 0.
#[tactic(auto, using(crate::proofs::CursorLaws::ended_number, crate::proofs::CursorLaws::standing_number))]
fn pack(c: Cursor) -> u64
    ensures { result ≡ cursor_number c }
{
    let parts = BLOCK * (c.block as u64) + PLACE * (c.place as u64) + MOVES * (c.moves as u64);
    if c.ended {
        return parts;
    }
    STANDS + parts
}

// The cursor that a number is, whoever made it.
fn unpack(n: u64) -> Cursor
    ensures { result ≡ cursor_in n }
{
    Cursor {
        block: (n / BLOCK % PART) as u16,
        place: (n / PLACE % PART) as u16,
        moves: (n / MOVES % PART) as u16,
        ended: n / STANDS % FLAG == 0,
    }
}

// Puts the cursor of a step in front, and answers whether it stands on a record.
#[tactic(auto, using(crate::proofs::CursorLaws::puts_record, crate::proofs::CursorLaws::puts_end))]
fn put(cursor: &mut [u64], step: Step) -> u32
    requires { 1 ≤ length cursor.old }
    ensures { (result, cursor.new) ≡ put_step cursor.old step }
{
    match step {
        Step::Record(c) => {
            cursor[0] = pack(c);
            CAME
        }
        Step::End(c) => {
            cursor[0] = pack(c);
            0
        }
    }
}

// The first step over any bytes, where there is room for a number; or 1 to 7, 14, then 8 or 9.
fn start_answer(table: &[u8], room: usize) -> Result<Step, Refusal>
    ensures { result ≡ start_answer table.now room }
{
    if room < 1 {
        header::read(table)?;
        return Err(Refusal::ShortBuffer);
    }
    Cursor::start(table).map_err(|refused| refused.refusal)
}

// The step of the cursor that the first number is; or 1 to 7, 14, 13, 9, 13, then 8 or 9.
fn step_answer(table: &[u8], cursor: &[u64]) -> Result<Step, Refusal>
    ensures { result ≡ step_answer table.now cursor.now }
{
    if cursor.is_empty() {
        header::read(table)?;
        return Err(Refusal::ShortBuffer);
    }
    unpack(cursor[0])
        .step(table)
        .map_err(|refused| refused.refusal)
}

// Starts a cursor over any bytes: it stands on the first record, or has ended; or 1 to 7, 14, then 8 or 9. Refused,
// every number becomes 0.
pub fn start(table: &[u8], cursor: &mut [u64]) -> u32
    ensures { (result, cursor.new) ≡ start_lent table.now cursor.old }
{
    match start_answer(table, cursor.len()) {
        Ok(step) => put(cursor, step),
        Err(refusal) => u32::from(lent::refuse(cursor, refusal)),
    }
}

// Steps the cursor that the first number is: it stands on the next record, or has ended; or 1 to 7, 14, 13, 9, 13, then
// 8 or 9. Refused, it stays.
pub fn step(table: &[u8], cursor: &mut [u64]) -> u32
    ensures { (result, cursor.new) ≡ step_lent table.now cursor.old }
{
    match step_answer(table, cursor) {
        Ok(step) => put(cursor, step),
        Err(refusal) => u32::from(u8::from(refusal)),
    }
}
