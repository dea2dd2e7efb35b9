//! Numbers in decimal.
ghost use Rattle.std.specs.Prelude.{◌≡◌, ◌+◌, ◌≤◌, ◌<◌, ◌∷◌, ◌++◌, OnOk, length, drop, string_bytes};
ghost use Rattle.std.specs.Fmt.{decimal, signed_decimal};

use std::alloc::AllocError;

/// The most bytes of two numbers of 32 bits with a sign, and of a byte before each.
const MOST: usize = 24;

/// Appends two numbers, each after an ASCII byte, by one growth of the text.
pub(crate) fn push_pair(
    text: &mut String,
    before_x: u8,
    x: i32,
    before_y: u8,
    y: i32,
) -> Result<(), AllocError>
    requires { (before_x < 128) × (before_y < 128) }
    ensures { OnOk result (string_bytes text.new ≡ string_bytes text.old
        ++ (before_x ∷ (signed_decimal x ++ (before_y ∷ signed_decimal y)))) }
{
    let mut buffer = [0; MOST];
    let y_at = put_after(&mut buffer, MOST, before_y, y);
    let x_at = put_after(&mut buffer, y_at, before_x, x);
    let spelled = &buffer[x_at..];
    text.push_str(unsafe { std::str::from_utf8_unchecked(spelled) })
}

/// Writes a byte and a number so that they end at `end`, and returns where they start.
#[inline(always)]
fn put_after(buffer: &mut [u8], end: usize, before: u8, number: i32) -> usize
    requires { (12 ≤ end) × (end ≤ length buffer.old) }
    ensures written { drop result buffer.new
        ≡ before ∷ (signed_decimal number ++ drop end buffer.old) }
    ensures most { end ≤ result + 12 }
    ensures within { result ≤ end }
{
    let start = put_signed(buffer, end, number);
    buffer[start - 1] = before;
    start - 1
}

/// Writes a number so that it ends at `end`, and returns where it starts.
#[inline(always)]
fn put_signed(buffer: &mut [u8], end: usize, number: i32) -> usize
    requires { (12 ≤ end) × (end ≤ length buffer.old) }
    ensures written { drop result buffer.new ≡ signed_decimal number ++ drop end buffer.old }
    ensures most { end ≤ result + 11 }
    ensures within { result ≤ end }
{
    let start = put_digits(buffer, end, number.unsigned_abs());
    if number >= 0 {
        return start;
    }
    buffer[start - 1] = b'-';
    start - 1
}

/// The same for digits alone.
fn put_digits(buffer: &mut [u8], end: usize, number: u32) -> usize
    requires { (10 ≤ end) × (end ≤ length buffer.old) }
    ensures written { drop result buffer.new ≡ decimal number ++ drop end buffer.old }
    ensures most { end ≤ result + 10 }
    ensures within { result ≤ end }
    ensures same { length buffer.new ≡ length buffer.old }
{
    let mut left = number;
    let mut at = end;
    while left >= 10 {
        at -= 1;
        buffer[at] = b'0' + (left % 10) as u8;
        left /= 10;
    }
    at -= 1;
    buffer[at] = b'0' + left as u8;
    at
}
