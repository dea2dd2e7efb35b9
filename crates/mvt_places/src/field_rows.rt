//! The fields of a message as values.
ghost use Rattle.std.specs.Prelude.{◌≡◌, ◌+◌, ◌^◌, ◌<◌, length, IfOk};
ghost use Rattle.mvt_wire.specs.Field.{content_of, entry_of, wire_type as the_wire_type};
ghost use Rattle.mvt_wire.specs.Fields.{EndsBy};
ghost use Rattle.mvt_places.specs.Around.{bounds_of as the_bounds, field_row as the_row, field_rows as the_rows, keys_of as the_keys};
ghost use Rattle.mvt_places.specs.Messages.{message_of};

use crate::message::{Form, Message, is_formed};
use mvt_tile_value::numbers::layer;
use mvt_wire::{Field, Fields, Payload};
use std::alloc::{AllocError, Global};

/// The bytes of a field, by their places in the input.
#[repr(C)]
#[derive(Clone, Copy, Debug, PartialEq, Eq)]
pub struct Bounds {
    /// Where its tag begins.
    pub start: u64,
    /// Where its payload begins: of bytes after their length.
    pub body: u64,
    /// Where both end.
    pub end: u64,
}

/// A field of a message.
#[repr(C)]
#[derive(Clone, Copy, Debug, PartialEq, Eq)]
pub struct FieldRow {
    pub number: u32,
    /// 0, 1, 2 or 5.
    pub wire_type: u32,
    pub bounds: Bounds,
}

impl Bounds {
    /// Those of a message's field.
    pub(crate) fn of(message: &Message<'_>) -> Self
        ensures { result ≡ the_bounds (message_of message.now) }
    {
        Bounds {
            start: message.own.start,
            body: message.body,
            end: message.own.end,
        }
    }
}

/// The fields of a message, up to the first bytes that are none.
pub(crate) fn field_rows(alloc: Global, message: &Message<'_>) -> Result<Vec<FieldRow>, AllocError>
    requires { message.now.body + length message.now.payload.now < 2 ^ 64 }
    ensures { IfOk result (λ rows. rows.items ≡ the_rows (message_of message.now)) }
{
    let mut rows = Vec::new(alloc);
    for field in Fields::new(message.payload) {
        let Ok(field) = field else { return Ok(rows) };
        rows.push(field_row(message, field))?;
    }
    Ok(rows)
}

fn field_row<'a>(message: &Message<'a>, field: Field<'a>) -> FieldRow
    requires fits { message.now.body + length message.now.payload.now < 2 ^ 64 }
    requires within { EndsBy (length message.now.payload.now) (entry_of field) }
    ensures { result ≡ the_row (message_of message.now) (entry_of field.entry) }
{
    FieldRow {
        number: field.number,
        wire_type: wire_type(&field.payload),
        bounds: Bounds::of(&message.inside(field)),
    }
}

fn wire_type(payload: &Payload<'_>) -> u32
    ensures { result ≡ the_wire_type (content_of payload.now) }
{
    match payload {
        Payload::Varint(_) => 0,
        Payload::I64(_) => 1,
        Payload::Len(_) => 2,
        Payload::I32(_) => 5,
    }
}

/// The keys of a layer, in order.
pub(crate) fn keys_of(alloc: Global, layer: &Message<'_>) -> Result<Vec<Bounds>, AllocError>
    requires { layer.now.body + length layer.now.payload.now < 2 ^ 64 }
    ensures { IfOk result (λ keys. keys.items ≡ the_keys (message_of layer.now)) }
{
    let mut keys = Vec::new(alloc);
    for field in Fields::new(layer.payload) {
        let Ok(field) = field else { return Ok(keys) };
        if is_formed(&field, layer::KEYS, Form::Bytes) {
            keys.push(Bounds::of(&layer.inside(field)))?;
        }
    }
    Ok(keys)
}
