// Pieces put into a lent buffer, one behind the other: each function answers the offset behind its piece.
// The functions are helpers of the crates above, which see to the room; all else in the buffer stays.
#![tactic(auto)]

ghost use Rattle.std.specs.Prelude.{◌≡◌, [], ◌∷◌, length, replicate};
ghost use Rattle.buffer.specs.Pieces.{Room, Wrote};
ghost use Rattle.buffer.specs.Text.{decimal, hex_text, shifted_text, signed_text};

// Puts one byte.
pub fn put_byte(out: &mut [u8], at: usize, byte: u8) -> usize
    requires { Room out.old at (byte ∷ []) }
    ensures { Wrote out.old at (byte ∷ []) out.new result }
{
    out[at] = byte;
    at + 1
}

// Puts some bytes, or some numbers.
pub fn put<T: Copy>(out: &mut [T], at: usize, piece: &[T]) -> usize
    requires { Room out.old at piece.now }
    ensures { Wrote out.old at piece.now out.new result }
{
    for i in 0..piece.len() {
        out[at + i] = piece[i];
    }
    at + piece.len()
}

// Makes every number of a buffer 0.
pub fn clear_numbers(out: &mut [u64])
    ensures { out.new ≡ replicate (length out.old) 0 }
{
    out.fill(0);
}

// Puts a number in decimal.
pub fn put_decimal(out: &mut [u8], at: usize, n: u64) -> usize
    requires { Room out.old at (decimal n) }
    ensures { Wrote out.old at (decimal n) out.new result }
{
    let mut digits = [0u8; 20];
    let count = io::decimal(n, &mut digits);
    put(out, at, &digits[..count])
}

// Puts a signed number, given with `top` added: a minus sign where it is below that.
pub fn put_shifted(out: &mut [u8], at: usize, n: u64, top: u64) -> usize
    requires { Room out.old at (shifted_text top n) }
    ensures { Wrote out.old at (shifted_text top n) out.new result }
{
    if top <= n {
        return put_decimal(out, at, n - top);
    }
    let behind = put_byte(out, at, b'-');
    put_decimal(out, behind, top - n)
}

// Puts a signed number in decimal: a minus sign where it is below 0, and its size.
pub fn put_signed(out: &mut [u8], at: usize, z: i64) -> usize
    requires { Room out.old at (signed_text z) }
    ensures { Wrote out.old at (signed_text z) out.new result }
{
    let digits_at = if z < 0 { put_byte(out, at, b'-') } else { at };
    put_decimal(out, digits_at, z.unsigned_abs())
}

// Puts a number as 16 hex digits.
pub fn put_hex(out: &mut [u8], at: usize, n: u64) -> usize
    requires { Room out.old at (hex_text n) }
    ensures { Wrote out.old at (hex_text n) out.new result }
{
    let mut digits = [0u8; 16];
    let count = io::hex(n, 16, &mut digits);
    put(out, at, &digits[..count])
}
