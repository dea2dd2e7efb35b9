//! Fields in their shortest spelling (Protocol Buffers, Encoding, "Message Structure").
ghost use Rattle.std.specs.Prelude.{◌≡◌, ℕ, ◌+◌, ◌*◌, ◌^◌, ◌<◌, ◌≤◌, List, ◌++◌, length, IsOk, OnOk, OnErr, vec_len, vec_capacity};
ghost use Rattle.mvt_wire.specs.Field.{bytes, content_of, wire_type};
ghost use Rattle.mvt_wire.specs.Spelling.{short_field, short_payload};
ghost use Rattle.mvt_base.specs.Related.{Extends};

use crate::field::Payload;
use crate::varint::{put_varint, varint_len};
use byteorder::{ByteOrder, LittleEndian};
use std::alloc::AllocError;

/// Appends the shortest spelling of a field.
///
/// # Errors
///
/// When memory runs out.
#[inline(always)]
pub fn put_field(out: &mut Vec<u8>, number: u32, payload: &Payload<'_>) -> Result<(), AllocError>
    requires first { 1 ≤ number }
    requires last { number < 2 ^ 29 }
    ensures ok { OnOk result
        (out.new.items ≡ out.old.items ++ short_field number (content_of payload.now)) }
    ensures err { OnErr result (out.new.items ≡ out.old.items) }
    ensures room { vec_len out.old + length (short_field number (content_of payload.now))
        ≤ vec_capacity out.old → IsOk result }
    ensures capacity { vec_capacity out.old ≤ vec_capacity out.new }
{
    let len = out.len();
    let done = append_field(out, number, payload);
    if done.is_err() {
        out.truncate(len);
    }
    done
}

/// Appends what stands before the `len` bytes of a field: its tag and this length.
///
/// # Errors
///
/// When memory runs out; the vector is then unchanged or longer.
#[inline(always)]
#[tactic(auto, unfolding(crate::specs::Spelling::short_field))]
pub fn put_field_head(out: &mut Vec<u8>, number: u32, len: u64) -> Result<(), AllocError>
    requires first { 1 ≤ number }
    requires last { number < 2 ^ 29 }
    ensures ok { (d : List ℕ) → length d ≡ len
        → OnOk result (out.new.items ++ d ≡ out.old.items ++ short_field number (bytes d)) }
    ensures left { OnErr result ((more : List ℕ) × (out.new.items ≡ out.old.items ++ more)) }
{
    put_varint(out, 8 * u64::from(number) + 2)?;
    put_varint(out, len)
}

/// How many bytes the shortest spelling of a field has whose payload is `len` bytes.
#[tactic(auto, unfolding(crate::specs::Spelling::short_field))]
pub fn field_len(number: u32, len: u64) -> u64
    requires number { number < 2 ^ 29 }
    requires len { len < 2 ^ 63 }
    ensures { (d : List ℕ) → length d ≡ len → result ≡ length (short_field number (bytes d)) }
{
    varint_len(8 * u64::from(number) + 2) as u64 + varint_len(len) as u64 + len
}

/// Appends a field, or a front of it.
#[inline(always)]
#[tactic(auto, unfolding(crate::specs::Spelling::short_field))]
fn append_field(out: &mut Vec<u8>, number: u32, payload: &Payload<'_>) -> Result<(), AllocError>
    requires { number < 2 ^ 29 }
    ensures ok { OnOk result
        (out.new.items ≡ out.old.items ++ short_field number (content_of payload.now)) }
    ensures err { OnErr result (Extends out.old.items out.new.items) }
    ensures room { vec_len out.old + length (short_field number (content_of payload.now))
        ≤ vec_capacity out.old → IsOk result }
    ensures capacity { vec_capacity out.old ≤ vec_capacity out.new }
{
    put_varint(out, 8 * u64::from(number) + payload.wire_type())?;
    match payload {
        Payload::Varint(number) => put_varint(out, *number),
        Payload::I64(number) => {
            let mut bytes = [0u8; 8];
            LittleEndian::write_u64(&mut bytes, *number);
            out.extend_from_slice(&bytes)
        }
        Payload::Len(bytes) => {
            put_varint(out, bytes.len() as u64)?;
            out.extend_from_slice(bytes)
        }
        Payload::I32(number) => {
            let mut bytes = [0u8; 4];
            LittleEndian::write_u32(&mut bytes, *number);
            out.extend_from_slice(&bytes)
        }
    }
}

impl Payload<'_> {
    fn wire_type(&self) -> u64
        ensures { result ≡ wire_type (content_of self.now) }
    {
        match self {
            Payload::Varint(_) => 0,
            Payload::I64(_) => 1,
            Payload::Len(_) => 2,
            Payload::I32(_) => 5,
        }
    }
}
