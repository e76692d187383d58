// A lent buffer of numbers, answered or refused.
// The module is private: its functions are helpers of the calls, which meet what they require.
ghost use Rattle.std.specs.Prelude.{◌≡◌, ◌≤◌, length, IfOk};
ghost use Rattle.header.specs.Opened as Opened;
ghost use Rattle.header.specs.Refusals.{answer_number};
ghost use Rattle.numbers.specs.Lent.{cleared, given, room_header};

use header::{Refusal, Table};

// The number of an answer: 0, or its refusal's.
#[tactic(auto, unfolding(header::specs::Refusals::answer_number))]
pub fn number_of(answer: Result<(), Refusal>) -> u8
    ensures { result ≡ answer_number answer }
{
    match answer {
        Ok(()) => 0,
        Err(refusal) => u8::from(refusal),
    }
}

// Refuses: every lent number becomes 0.
#[tactic(auto, using(crate::proofs::LentLaws::all_cleared))]
pub fn refuse(lent: &mut [u64], refusal: Refusal) -> u8
    ensures { (result, lent.new) ≡ cleared lent.old refusal }
{
    buffer::clear_numbers(lent);
    u8::from(refusal)
}

// Gives an answer: its numbers in front, or its refusal.
pub fn give<const N: usize>(lent: &mut [u64], answer: Result<[u64; N], Refusal>) -> u8
    requires { IfOk answer (λ numbers. length numbers ≤ length lent.old) }
    ensures { (result, lent.new) ≡ given lent.old answer.entry }
{
    match answer {
        Ok(numbers) => {
            buffer::put(lent, 0, &numbers);
            0
        }
        Err(refusal) => refuse(lent, refusal),
    }
}

// The table of any bytes, where so many numbers are lent as the answer has; or 1 to 7, then 14.
pub fn open<'a>(table: &'a [u8], room: usize, count: usize) -> Result<Table<'a>, Refusal>
    ensures its_header { Opened.header_in result ≡ room_header table.now room count }
    ensures its_bytes { IfOk result (λ opened. opened.bytes ≡ table.entry) }
{
    let opened = Table::open(table)?;
    if room < count {
        return Err(Refusal::ShortBuffer);
    }
    Ok(opened)
}
