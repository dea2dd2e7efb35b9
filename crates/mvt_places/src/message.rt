//! The messages of a tile, and where they stand in it.
ghost use Rattle.std.specs.Prelude.{◌≡◌, ℕ, ◌+◌, ◌≤◌, ◌<◌, ◌^◌, length, find, slice_get, IfSome, None};
ghost use Rattle.std.specs.List.{last_or};
ghost use Rattle.std.specs.Option.{option_map};
ghost use Rattle.mvt_wire.specs.Field.{content_of, entry_of};
ghost use Rattle.mvt_wire.specs.Fields.{EndsBy};
ghost use Rattle.mvt_wire.specs.Split.{split};
ghost use Rattle.mvt_message.specs.LayerFields.{bytes_of as the_bytes_of};
ghost use Rattle.mvt_places.specs.Messages as spec;
ghost use Rattle.mvt_places.specs.Messages.{Ends, message_of, formed, has_byte, is_of};

use crate::span::Span;
use mvt_wire::{Field, Fields, Payload, next_field};

/// The payload of a field, and where the field and the payload stand in the input.
#[derive(Clone, Copy, Debug)]
pub(crate) struct Message<'a> {
    pub own: Span,
    pub body: u64,
    pub payload: &'a [u8],
}

/// What a field holds.
#[derive(Clone, Copy, Debug)]
pub(crate) enum Form {
    Any,
    Bytes,
    Varint,
}

impl<'a> Message<'a> {
    /// All bytes of an input.
    pub fn whole(input: &'a [u8]) -> Self
        ensures { message_of result ≡ spec.whole input.now }
    {
        Message {
            own: Span {
                start: 0,
                end: input.len() as u64,
            },
            body: 0,
            payload: input,
        }
    }

    /// The bytes of the field that begins at a place of the payload; all bytes from there if none
    /// begins.
    pub fn field_span(&self, at: usize) -> Span
        requires fits { self.now.body + length self.now.payload.now < 2 ^ 64 }
        requires within { at ≤ length self.now.payload.now }
        ensures is { result ≡ spec.field_span (message_of self.now) at }
        ensures ordered { result.start ≤ result.end }
        ensures within { result.end ≤ self.now.body + length self.now.payload.now }
    {
        Span {
            start: self.body + at as u64,
            end: self.body + end_in(self.payload, at) as u64,
        }
    }

    /// A field of the message as a message, which has no bytes if the field has none.
    pub fn inside(&self, field: Field<'a>) -> Self
        requires fits { self.now.body + length self.now.payload.now < 2 ^ 64 }
        requires within { EndsBy (length self.now.payload.now) (entry_of field) }
        ensures is { message_of result ≡ spec.inside (message_of self.now) (entry_of field.entry) }
        ensures ends { (place : ℕ) → self.now.body + length self.now.payload.now ≤ place
            → Ends place (message_of result) }
    {
        Message {
            own: self.field_span(field.at),
            body: self.body + field.body as u64,
            payload: bytes_of(field.payload),
        }
    }
}

/// The bytes of a field that has some.
pub(crate) fn bytes_of<'a>(payload: Payload<'a>) -> &'a [u8]
    ensures { result.now ≡ the_bytes_of (content_of payload.entry) }
{
    match payload {
        Payload::Len(bytes) => bytes,
        Payload::Varint(_) | Payload::I64(_) | Payload::I32(_) => &[],
    }
}

/// Whether a field has this number and this form.
pub(crate) fn is_formed(field: &Field<'_>, number: u32, form: Form) -> bool
    ensures { result ≡ is_of form number (entry_of field.now) }
{
    field.number == number && has_form(form, &field.payload)
}

fn has_form(form: Form, payload: &Payload<'_>) -> bool
    ensures { result ≡ spec.has_form form (content_of payload.now) }
{
    match (form, payload) {
        (Form::Any, _) => true,
        (Form::Bytes, Payload::Len(_)) => true,
        (Form::Varint, Payload::Varint(_)) => true,
        _ => false,
    }
}

/// Where the field that begins at a place of a payload ends; the payload's end if none begins
/// there.
pub(crate) fn end_in(payload: &[u8], at: usize) -> usize
    requires { at ≤ length payload.now }
    ensures end { result ≡ spec.end_in payload.now at }
    ensures after { at ≤ result }
    ensures within { result ≤ length payload.now }
{
    match next_field(payload, at) {
        Ok(Some((_, after))) => after,
        Ok(None) => payload.len(),
        Err(_) => payload.len(),
    }
}

/// The field of a number with bytes that has this index among its like.
pub(crate) fn nth_field<'a>(payload: &'a [u8], number: u32, index: u32) -> Option<Field<'a>>
    ensures within { IfSome result (λ field. EndsBy (length payload.now) (entry_of field)) }
    ensures field { option_map entry_of result
        ≡ slice_get (formed Form.Bytes number (split payload.now).fields) index }
{
    let mut left = index;
    for field in Fields::new(payload) {
        let Ok(field) = field else { return None };
        if is_formed(&field, number, Form::Bytes) {
            if left == 0 {
                return Some(field);
            }
            left -= 1;
        }
    }
    None
}

/// The last field of a number and a form.
pub(crate) fn last_field<'a>(payload: &'a [u8], number: u32, form: Form) -> Option<Field<'a>>
    ensures within { IfSome result (λ field. EndsBy (length payload.now) (entry_of field)) }
    ensures field { option_map entry_of result
        ≡ last_or None (formed form number (split payload.now).fields) }
{
    let mut last = None;
    for field in Fields::new(payload) {
        let Ok(field) = field else { return last };
        if is_formed(&field, number, form) {
            last = Some(field);
        }
    }
    last
}

/// The field of a number with bytes, among which is the byte at a place of the payload.
pub(crate) fn holding_field<'a>(payload: &'a [u8], number: u32, at: u64) -> Option<Field<'a>>
    ensures within { IfSome result (λ field. EndsBy (length payload.now) (entry_of field)) }
    ensures field { option_map entry_of result
        ≡ find (has_byte at) (formed Form.Bytes number (split payload.now).fields) }
{
    for field in Fields::new(payload) {
        let Ok(field) = field else { return None };
        if is_formed(&field, number, Form::Bytes) && holds(&field, at) {
            return Some(field);
        }
    }
    None
}

/// Whether the bytes of a field have one at a place.
fn holds(field: &Field<'_>, at: u64) -> bool
    ensures { result ≡ has_byte at (entry_of field.now) }
{
    match field.payload {
        Payload::Len(bytes) => {
            let body = field.body as u64;
            body <= at && at - body < bytes.len() as u64
        }
        _ => false,
    }
}
