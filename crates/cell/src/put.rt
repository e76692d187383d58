// A value put into the first bytes of a buffer.
// The module is private: its functions are helpers of `cell::write`, which meets what they require.
ghost use Rattle.std.specs.Prelude.{◌≡◌, ◌+◌, ◌≤◌, length};
ghost use Rattle.cell.specs.Values.{content_of};
ghost use Rattle.cell.specs.Writing.{put_form};
ghost use Rattle.cell.specs.Steps.{OfWidth, TextInside, coded_form, padded_over, put_of, put_text};

use crate::form;
use crate::value::Value;
use header::Refusal;

// Writes a number, where the value has one.
#[tactic(auto, unfolding(crate::specs::Steps::coded_form, crate::specs::Writing::put_form))]
fn put_coded(buffer: &mut [u8], width: usize, coded: Option<u64>) -> Result<(), Refusal>
    requires { width ≤ length buffer.old }
    ensures { (result, buffer.new) ≡ put_form width (coded_form width coded) buffer.old }
{
    let n = coded.ok_or(Refusal::NoMeaning)?;
    words::put_number(buffer, width, n);
    Ok(())
}

// Copies bytes. By a loop, as std's `copy_from_slice` would have the archive ask for `memmove`, which it does not need.
fn copy(to: &mut [u8], from: &[u8])
    requires { length from.now ≡ length to.old }
    ensures { to.new ≡ from.now }
{
    for i in 0..from.len() {
        to[i] = from[i];
    }
}

// Writes a text and the zeros behind it.
fn copy_text(buffer: &mut [u8], width: usize, text: &[u8], start: usize, len: usize)
    requires { (width ≤ length buffer.old) × (len ≤ width) × (start + len ≤ length text.now) }
    ensures { buffer.new ≡ padded_over text.now start len width buffer.old }
{
    copy(&mut buffer[..len], &text[start..start + len]);
    buffer[len..width].fill(0);
}

// Writes a text of 1 to `width` bytes without a zero.
#[tactic(auto, using(crate::proofs::WritingLaws::text_forms), unfolding(crate::specs::Writing::put_form))]
fn put_text(
    buffer: &mut [u8],
    width: usize,
    text: &[u8],
    start: usize,
    len: usize,
) -> Result<(), Refusal>
    requires { (width ≤ length buffer.old) × (start + len ≤ length text.now) }
    ensures { (result, buffer.new) ≡ put_text width text.now start len buffer.old }
{
    if len < 1 {
        return Err(Refusal::NoMeaning);
    }
    if width < len {
        return Err(Refusal::NoMeaning);
    }
    if words::before_zero(text, start, len) < len {
        return Err(Refusal::NoMeaning);
    }
    copy_text(buffer, width, text, start, len);
    Ok(())
}

// Writes a value of the width that its kind has, where it has a stored form.
// A helper of `cell::write` and no call for users: its caller has judged the kind, the width and the buffer.
#[tactic(auto, using(crate::proofs::WritingLaws::forms))]
pub fn put_value(value: Value, width: usize, text: &[u8], buffer: &mut [u8]) -> Result<(), Refusal>
    requires width_in_bounds { width ≤ length buffer.old }
    requires of_width { OfWidth (content_of text.now value) width }
    requires text_inside { TextInside text.now value }
    ensures { (result, buffer.new) ≡ put_of width text.now value buffer.old }
{
    match value {
        Value::Blank => put_coded(buffer, width, Some(0)),
        Value::Short(z) => put_coded(buffer, width, form::short_form(z)),
        Value::Long(z) => put_coded(buffer, width, form::long_form(z)),
        Value::Date(day) => put_coded(buffer, width, form::date_form(day)),
        Value::Number(x) => put_coded(buffer, width, form::number_form(x)),
        Value::Logical(b) => put_coded(buffer, width, form::logical_form(b)),
        Value::Text { start, len } => put_text(buffer, width, text, start, len),
    }
}
