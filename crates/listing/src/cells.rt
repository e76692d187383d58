// Cells put into a line, each after a bar.
// The module is private: its functions are helpers of `listing::line`, which meets what they require.
ghost use Rattle.std.specs.Prelude.{◌≡◌, true};
ghost use Rattle.std.specs.Float.{binary64};
ghost use Rattle.std.specs.Float.Ieee.{to_bits};
ghost use Rattle.std.specs.Float.Ieee.Scale.{finite};
ghost use Rattle.buffer.specs.Pieces.{Room, Wrote};
ghost use Rattle.buffer.specs.Text.{hex_text};
ghost use Rattle.listing.specs.Listing.{letter, record_text};
ghost use Rattle.listing.specs.Steps.{Printable, PrintableCell, barred_text, value_text};

use buffer::{put, put_byte, put_decimal, put_hex, put_signed};
use cell::Value;
use header::{Refusal, Table};

// A finite number: the 16 hex digits of its bits.
fn put_number(out: &mut [u8], at: usize, x: f64) -> usize
    requires room { Room out.old at (hex_text (to_bits binary64 x)) }
    requires x_value { finite x ≡ true }
    ensures { Wrote out.old at (hex_text (to_bits binary64 x)) out.new result }
{
    put_hex(out, at, x.to_bits())
}

// T or F.
fn letter_of(b: bool) -> u8
    ensures { result ≡ letter b }
{
    if b { b'T' } else { b'F' }
}

// A value, by its kind.
fn put_value(out: &mut [u8], at: usize, table: &[u8], value: Value) -> usize
    requires room { Room out.old at (value_text table.now value) }
    requires printable { Printable table.now value }
    ensures { Wrote out.old at (value_text table.now value) out.new result }
{
    match value {
        Value::Blank => at,
        Value::Short(z) => put_signed(out, at, i64::from(z)),
        Value::Long(z) => put_signed(out, at, i64::from(z)),
        Value::Date(day) => put_decimal(out, at, day as u64),
        Value::Number(x) => put_number(out, at, x),
        Value::Logical(b) => put_byte(out, at, letter_of(b)),
        Value::Text { start, len } => put(out, at, &table[start..start + len]),
    }
}

// A bar and a cell: its value, or an exclamation mark and the number of its refusal.
fn put_cell(out: &mut [u8], at: usize, table: &[u8], cell: Result<Value, Refusal>) -> usize
    requires room { Room out.old at (barred_text table.now cell) }
    requires printable_cell { PrintableCell table.now cell }
    ensures { Wrote out.old at (barred_text table.now cell) out.new result }
{
    let behind = put_byte(out, at, b'|');
    match cell {
        Ok(value) => put_value(out, behind, table, value),
        Err(refusal) => {
            let number_at = put_byte(out, behind, b'!');
            put_decimal(out, number_at, u64::from(u8::from(refusal)))
        }
    }
}

// Every cell of the record at a block and a place of a table.
pub fn put_cells(out: &mut [u8], at: usize, table: &Table, block: usize, place: usize) -> usize
    requires { Room out.old at (record_text table.now.bytes.now table.now.header block place) }
    ensures { Wrote out.old at (record_text table.now.bytes.now table.now.header block place) out.new result }
{
    let fields = table.header.fields as usize;
    let mut end = at;
    for field in 1..=fields {
        let cell = cell::read_in(table, block, place, field);
        end = put_cell(out, end, table.bytes, cell);
    }
    end
}
