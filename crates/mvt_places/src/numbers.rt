//! Where the numbers of tags and geometry are spelled (Protocol Buffers, Encoding, "Packed Repeated
//! Fields").
ghost use Rattle.std.specs.Prelude.{◌≡◌, ℕ, ◌+◌, ◌^◌, ◌<◌, ◌≤◌, length, fold, slice_get, None};
ghost use Rattle.std.specs.List.{last_or};
ghost use Rattle.mvt_wire.specs.Field.{content_of, entry_of};
ghost use Rattle.mvt_wire.specs.Fields.{EndsBy};
ghost use Rattle.mvt_places.specs.Messages.{message_of};
ghost use Rattle.mvt_places.specs.Spans.{joined, spellings, spellings_in, with_span, SeesBelow};

use crate::message::Message;
use crate::span::{Seen, Span};
use mvt_wire::{Field, Fields, Payload, read_varint};

/// What is seen of the spellings of the numbers of a message's fields of a number, joined: that of
/// an index, and the last.
pub(crate) fn see_joined(message: &Message<'_>, number: u32, index: u64) -> Seen
    requires { message.now.body + length message.now.payload.now < 2 ^ 64 }
    ensures wanted { result.wanted ≡ slice_get (joined number (message_of message.now)) index }
    ensures last { result.last ≡ last_or None (joined number (message_of message.now)) }
    ensures below { SeesBelow (message.now.body + length message.now.payload.now) result }
{
    let mut seen = Seen::before(index);
    for field in Fields::new(message.payload) {
        let Ok(field) = field else { return seen };
        if field.number == number {
            seen = see_field(seen, message, &field);
        }
    }
    seen
}

/// What is seen with the numbers of one more field.
fn see_field(before: Seen, message: &Message<'_>, field: &Field<'_>) -> Seen
    requires fits { message.now.body + length message.now.payload.now < 2 ^ 64 }
    requires within { EndsBy (length message.now.payload.now) (entry_of field.now) }
    ensures seen { result ≡ fold with_span before
        (spellings_in (message_of message.now) field.now.body (content_of field.now.payload)) }
    ensures below { (place : ℕ) → message.now.body + length message.now.payload.now ≤ place
        → SeesBelow place before → SeesBelow place result }
{
    let body = message.body + field.body as u64;
    match field.payload {
        Payload::Varint(_) => {
            let rest = &message.payload[field.body..];
            see_numbers(before, 1, body, rest)
        }
        Payload::Len(bytes) => see_numbers(before, bytes.len(), body, bytes),
        Payload::I64(_) | Payload::I32(_) => before,
    }
}

/// What is seen with the spellings of numbers one after another, at most so many; the first begins
/// at this place.
fn see_numbers(before: Seen, most: usize, at: u64, bytes: &[u8]) -> Seen
    requires { at + length bytes.now < 2 ^ 64 }
    ensures seen { result ≡ fold with_span before (spellings most at bytes.now) }
    ensures below { (place : ℕ) → at + length bytes.now ≤ place → SeesBelow place before
        → SeesBelow place result }
{
    let mut seen = before;
    let mut place = at;
    let mut rest = bytes;
    for _ in 0..most {
        let Ok((_, size)) = read_varint(rest) else {
            return seen
        };
        let start = place;
        place += size as u64;
        seen = seen.with(Span { start, end: place });
        let after = &rest[size..];
        rest = after;
    }
    seen
}
