//! Fields that stand in their shortest spelling (Protocol Buffers, Encoding, "Message Structure").
ghost use Rattle.std.specs.Prelude.{◌≡◌, ◌^◌, ◌<◌, ◌≤◌, ◌++◌, length, drop, IfSome};
ghost use Rattle.mvt_wire.specs.Field.{bytes, varint, content_of};
ghost use Rattle.mvt_wire.specs.Spelling.{short_field};

use crate::field::{Field, Payload, next_field};
use crate::spelling::field_len;
use crate::varint::varint_len;

/// The bytes of the field that begins at an offset, and the offset after it. `Some` means that it
/// is a field of bytes with this number in its shortest spelling; `None` costs speed alone.
#[inline(always)]
pub fn short_bytes_at(source: &[u8], at: usize, number: u32) -> Option<(&[u8], usize)>
    requires { at ≤ length source.now }
    ensures field { IfSome result (λ f. drop at source.now
        ≡ short_field number (bytes f.0.now) ++ drop f.1 source.now) }
    ensures within { IfSome result (λ f. (at < f.1) × (f.1 ≤ length source.now)) }
{
    match next_field(source, at) {
        Ok(Some((field, after))) => match field.payload {
            Payload::Len(bytes)
                if field.number == number
                    && (after - at) as u64 == field_len(number, bytes.len() as u64) => {
                Some((bytes, after))
            }
            _ => None,
        },
        Ok(None) => None,
        Err(_) => None,
    }
}

/// The number of the field that begins at an offset, and the offset after it. `Some` means that it
/// is a varint field with this field number in its shortest spelling; `None` costs speed alone.
#[inline(always)]
pub fn short_number_at(source: &[u8], at: usize, number: u32) -> Option<(u64, usize)>
    requires { at ≤ length source.now }
    ensures field { IfSome result (λ f. drop at source.now
        ≡ short_field number (varint f.0) ++ drop f.1 source.now) }
    ensures within { IfSome result (λ f. (at < f.1) × (f.1 ≤ length source.now)) }
{
    match next_field(source, at) {
        Ok(Some((field, after))) => match field.payload {
            Payload::Varint(content)
                if field.number == number
                    && after - at == varint_len(8 * u64::from(number)) + varint_len(content) => {
                Some((content, after))
            }
            _ => None,
        },
        Ok(None) => None,
        Err(_) => None,
    }
}

/// The field that begins at an offset, and the offset after it. `Some` means that it is in its
/// shortest spelling; `None` costs speed alone.
#[inline(always)]
pub fn short_field_at(source: &[u8], at: usize) -> Option<(Field<'_>, usize)>
    requires { at ≤ length source.now }
    ensures field { IfSome result (λ f. drop at source.now
        ≡ short_field f.0.number (content_of f.0.payload) ++ drop f.1 source.now) }
    ensures within { IfSome result (λ f. (at < f.1) × (f.1 ≤ length source.now)) }
    ensures number { IfSome result (λ f. f.0.number < 2 ^ 29) }
{
    match next_field(source, at) {
        Ok(Some((field, after))) => {
            if (after - at) as u64 != short_len(field.number, &field.payload) {
                return None;
            }
            Some((field, after))
        }
        Ok(None) => None,
        Err(_) => None,
    }
}

/// How many bytes the shortest spelling of a field has.
#[inline(always)]
fn short_len(number: u32, payload: &Payload<'_>) -> u64
    requires { number < 2 ^ 29 }
    ensures { result ≡ length (short_field number (content_of payload.now)) }
{
    match payload {
        Payload::Varint(content) => {
            varint_len(8 * u64::from(number)) as u64 + varint_len(*content) as u64
        }
        Payload::I64(_) => varint_len(8 * u64::from(number) + 1) as u64 + 8,
        Payload::Len(bytes) => field_len(number, bytes.len() as u64),
        Payload::I32(_) => varint_len(8 * u64::from(number) + 5) as u64 + 4,
    }
}
