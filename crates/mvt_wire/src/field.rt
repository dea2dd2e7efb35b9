//! Fields (Protocol Buffers, Encoding, "Message Structure").
ghost use Rattle.std.specs.Prelude.{◌≡◌, ◌+◌, ◌^◌, ◌<◌, ◌≤◌, length, IfOk, IfSome};
ghost use Rattle.mvt_wire.specs.Field.{IsSliceAt, LiesAt, content_of};
ghost use Rattle.mvt_wire.specs.Fields.{IsNext};
ghost use Rattle.mvt_wire.specs.Fronts as spec;
ghost use Rattle.mvt_wire.specs.Fronts.{entry_at};
ghost use Rattle.mvt_wire.specs.Inner.{load_of, found_of};

use crate::fault::{WireCause, WireFault};
use crate::varint::varint_at;
use byteorder::{ByteOrder, LittleEndian};

/// What a field holds, by its wire type: 0, 1, 2 and 5.
#[derive(Clone, Copy, Debug, PartialEq, Eq)]
pub enum Payload<'a> {
    Varint(u64),
    I64(u64),
    Len(&'a [u8]),
    I32(u32),
}

/// A field, and where it stands in the slice that it was read from.
#[derive(Clone, Copy, Debug, PartialEq, Eq)]
pub struct Field<'a> {
    /// The offset of the tag.
    pub at: usize,
    /// The offset of the payload; of a `Len` payload, after its length.
    pub body: usize,
    pub number: u32,
    pub payload: Payload<'a>,
}

/// The field that begins at an offset, with the offset after it; `None` at the end.
///
/// # Errors
///
/// The fault of a spelling that is no field, at the offset.
#[inline(always)]
pub fn next_field(source: &[u8], at: usize) -> Result<Option<(Field<'_>, usize)>, WireFault>
    requires { at ≤ length source.now }
    ensures next { IsNext source.now at result }
    ensures slice { IfOk result (λ found. IfSome found
        (λ f. IsSliceAt source.now f.0.body (content_of f.0.payload))) }
    ensures lies { IfOk result (λ found. IfSome found
        (λ f. LiesAt source.entry 0 f.0.body f.0.payload)) }
{
    if at == source.len() {
        return Ok(None);
    }
    match field_at(&source[at..], at) {
        Ok((field, size)) => Ok(Some((field, at + size))),
        Err(cause) => Err(WireFault { at, cause }),
    }
}

/// The content of a payload, where it stands in its bytes, and how many bytes those are.
#[derive(Clone, Copy)]
struct Loaded<'a> {
    payload: Payload<'a>,
    start: usize,
    size: usize,
}

/// The field at the front, which stands at this offset of its source, and its length.
#[inline(always)]
#[tactic(auto, unfolding(crate::specs::Fronts::entry_at))]
fn field_at(bytes: &[u8], at: usize) -> Result<(Field<'_>, usize), WireCause>
    requires { at + length bytes.now < 2 ^ 64 }
    ensures field { found_of result ≡ entry_at at bytes.now }
    ensures within { IfOk result (λ f. f.1 ≤ length bytes.now) }
    ensures lies { IfOk result (λ f. LiesAt bytes.entry at f.0.body f.0.payload) }
{
    let (tag, tag_size) = varint_at(bytes)?;
    if tag < 8 || tag >= 1 << 32 {
        return Err(WireCause::FieldNumber);
    }
    let load = load_at(&bytes[tag_size..], tag % 8)?;
    let field = Field {
        at,
        body: at + (tag_size + load.start),
        number: (tag / 8) as u32,
        payload: load.payload,
    };
    Ok((field, tag_size + load.size))
}

/// The payload of a wire type.
#[inline(always)]
#[tactic(auto, unfolding(crate::specs::Fronts::load_at))]
fn load_at(bytes: &[u8], wire_type: u64) -> Result<Loaded<'_>, WireCause>
    ensures load { load_of result ≡ spec.load_at wire_type bytes.now }
    ensures within { IfOk result (λ l. (l.start ≤ l.size) × (l.size ≤ length bytes.now)) }
    ensures lies { IfOk result (λ l. LiesAt bytes.entry 0 l.start l.payload) }
{
    match wire_type {
        0 => varint_load(bytes),
        1 => fixed64_load(bytes),
        2 => bytes_load(bytes),
        5 => fixed32_load(bytes),
        _ => Err(WireCause::WireType),
    }
}

#[inline(always)]
#[tactic(auto, unfolding(crate::specs::Fronts::load_at))]
fn varint_load(bytes: &[u8]) -> Result<Loaded<'_>, WireCause>
    ensures load { load_of result ≡ spec.load_at 0 bytes.now }
    ensures within { IfOk result (λ l. (l.start ≤ l.size) × (l.size ≤ length bytes.now)) }
    ensures lies { IfOk result (λ l. LiesAt bytes.entry 0 l.start l.payload) }
{
    let (number, size) = varint_at(bytes)?;
    Ok(Loaded {
        payload: Payload::Varint(number),
        start: 0,
        size,
    })
}

#[inline(always)]
#[tactic(auto, unfolding(crate::specs::Fronts::load_at))]
fn fixed64_load(bytes: &[u8]) -> Result<Loaded<'_>, WireCause>
    ensures load { load_of result ≡ spec.load_at 1 bytes.now }
    ensures within { IfOk result (λ l. (l.start ≤ l.size) × (l.size ≤ length bytes.now)) }
    ensures lies { IfOk result (λ l. LiesAt bytes.entry 0 l.start l.payload) }
{
    if bytes.len() < 8 {
        return Err(WireCause::Truncated);
    }
    Ok(Loaded {
        payload: Payload::I64(LittleEndian::read_u64(bytes)),
        start: 0,
        size: 8,
    })
}

#[inline(always)]
#[tactic(auto, unfolding(crate::specs::Fronts::load_at))]
fn fixed32_load(bytes: &[u8]) -> Result<Loaded<'_>, WireCause>
    ensures load { load_of result ≡ spec.load_at 5 bytes.now }
    ensures within { IfOk result (λ l. (l.start ≤ l.size) × (l.size ≤ length bytes.now)) }
    ensures lies { IfOk result (λ l. LiesAt bytes.entry 0 l.start l.payload) }
{
    if bytes.len() < 4 {
        return Err(WireCause::Truncated);
    }
    Ok(Loaded {
        payload: Payload::I32(LittleEndian::read_u32(bytes)),
        start: 0,
        size: 4,
    })
}

#[inline(always)]
#[tactic(auto, unfolding(crate::specs::Fronts::load_at))]
fn bytes_load(bytes: &[u8]) -> Result<Loaded<'_>, WireCause>
    ensures load { load_of result ≡ spec.load_at 2 bytes.now }
    ensures within { IfOk result (λ l. (l.start ≤ l.size) × (l.size ≤ length bytes.now)) }
    ensures lies { IfOk result (λ l. LiesAt bytes.entry 0 l.start l.payload) }
{
    let (length, start) = varint_at(bytes)?;
    let rest = &bytes[start..];
    if (rest.len() as u64) < length {
        return Err(WireCause::Truncated);
    }
    let length = length as usize;
    Ok(Loaded {
        payload: Payload::Len(&rest[..length]),
        start,
        size: start + length,
    })
}
