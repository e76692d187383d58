// The cells of a record one behind another, by the pairs of the field area.
// The module is private: its functions are helpers of `of_record`, which meets what they require.
ghost use Rattle.std.specs.Prelude.{◌≡◌, ◌+◌, ◌*◌, ◌≤◌, length, ◌≢◌, Some, None};
ghost use Rattle.header.specs.Kinds.{kind_of};
ghost use Rattle.numbers.specs.Cells.{cell_count};
ghost use Rattle.numbers.specs.Steps.{Inside, pair_cell, run_given};

use crate::list;
use cell::Value;
use header::{FieldKind, Refusal};

// The cells of a record: where the pairs of its fields begin, how many there are, and where the record begins.
#[derive(Clone, Copy)]
pub struct Run {
    pub area: usize,
    pub fields: usize,
    pub start: usize,
}

// The kind of a pair that was judged: the code alone tells it, as rule 7 has tried the width.
fn kind_of(code: u8, width: usize) -> FieldKind
    requires { kind_of code width ≢ None }
    ensures { Some result ≡ kind_of code width }
{
    match code {
        FieldKind::TEXT => FieldKind::Text,
        FieldKind::DATE => FieldKind::Date,
        FieldKind::SHORT => FieldKind::Short,
        FieldKind::LONG => FieldKind::Long,
        FieldKind::CURRENCY => FieldKind::Number,
        FieldKind::NUMBER => FieldKind::Number,
        FieldKind::LOGICAL => FieldKind::Logical,
        _ => FieldKind::Blob,
    }
}

// The cell of this code and width at a place.
#[tactic(auto, using(crate::proofs::RecordLaws::pair_known, header::proofs::KindLaws::kind_width))]
fn cell_by_pair(table: &[u8], code: u8, width: usize, at: usize) -> Result<Value, Refusal>
    requires known { kind_of code width ≢ None }
    requires width_in_bounds { at + width ≤ length table.now }
    ensures { result ≡ pair_cell table.now at width (kind_of code width) }
{
    cell::cell_at(table, kind_of(code, width), at, width)
}

// Puts the cells of a record to the front of a buffer that has room for them.
pub fn put_cells(cells: &mut [u64], table: &[u8], run: Run)
    requires inside { Inside table.now run.area run.fields run.start }
    requires fields_in_bounds { cell_count * run.fields ≤ length cells.old }
    ensures { (0, cells.new) ≡ run_given table.now run.area run.fields run.start cells.old }
{
    let mut at = run.start;
    let mut end: usize = 0;
    for field in 0..run.fields {
        let pair = run.area + 2 * field;
        let width = table[pair + 1] as usize;
        let cell = cell_by_pair(table, table[pair], width, at);
        end = buffer::put(cells, end, &list::cell_list(cell));
        at += width;
    }
}
