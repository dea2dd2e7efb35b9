//! The integers of tags and geometry, with the bytes that spell them (Protocol Buffers, Encoding,
//! "Packed Repeated Fields").
ghost use Rattle.std.specs.Prelude.{◌≡◌, ◌+◌, ◌^◌, ◌<◌, ◌++◌, length, IfOk, OnOk};
ghost use Rattle.mvt_wire.specs.Field.{content_of, entry_of};
ghost use Rattle.mvt_wire.specs.Fields.{EndsBy};
ghost use Rattle.mvt_places.specs.Around.{integers_from, integers_in, integers_of as the_integers};
ghost use Rattle.mvt_places.specs.Messages.{message_of};

use crate::message::Message;
use mvt_wire::{Field, Fields, Payload, read_varint};
use std::alloc::{AllocError, Global};

/// An integer of a feature's tags or geometry, and the bytes that spell it.
#[repr(C)]
#[derive(Clone, Copy, Debug, PartialEq, Eq)]
pub struct Integer {
    pub value: u64,
    pub start: u64,
    pub end: u64,
}

/// The integers of a message's fields of a number, joined.
pub(crate) fn integers_of(
    alloc: Global,
    message: &Message<'_>,
    number: u32,
) -> Result<Vec<Integer>, AllocError>
    requires { message.now.body + length message.now.payload.now < 2 ^ 64 }
    ensures { IfOk result (λ integers. integers.items
        ≡ the_integers number (message_of message.now)) }
{
    let mut integers = Vec::new(alloc);
    for field in Fields::new(message.payload) {
        let Ok(field) = field else {
            return Ok(integers);
        };
        if field.number == number {
            push_field(&mut integers, message, &field)?;
        }
    }
    Ok(integers)
}

/// Appends the integers of a field.
fn push_field(
    integers: &mut Vec<Integer>,
    message: &Message<'_>,
    field: &Field<'_>,
) -> Result<(), AllocError>
    requires fits { message.now.body + length message.now.payload.now < 2 ^ 64 }
    requires within { EndsBy (length message.now.payload.now) (entry_of field.now) }
    ensures { OnOk result (integers.new.items ≡ integers.old.items
        ++ integers_in (message_of message.now) field.now.body (content_of field.now.payload)) }
{
    let body = message.body + field.body as u64;
    match field.payload {
        Payload::Varint(_) => {
            let rest = &message.payload[field.body..];
            push_integers(integers, 1, body, rest)
        }
        Payload::Len(bytes) => push_integers(integers, bytes.len(), body, bytes),
        Payload::I64(_) | Payload::I32(_) => Ok(()),
    }
}

/// Appends integers that are spelled one after another, at most so many; the first begins at this
/// place.
fn push_integers(
    integers: &mut Vec<Integer>,
    most: usize,
    at: u64,
    bytes: &[u8],
) -> Result<(), AllocError>
    requires { at + length bytes.now < 2 ^ 64 }
    ensures { OnOk result (integers.new.items
        ≡ integers.old.items ++ integers_from most at bytes.now) }
{
    let mut place = at;
    let mut rest = bytes;
    for _ in 0..most {
        let Ok((value, size)) = read_varint(rest) else {
            return Ok(());
        };
        let start = place;
        place += size as u64;
        integers.push(Integer {
            value,
            start,
            end: place,
        })?;
        let after = &rest[size..];
        rest = after;
    }
    Ok(())
}
