//! Where a fault stands in the bytes of a tile.
ghost use Rattle.std.specs.Prelude.{◌≡◌, ℕ, ◌+◌, ◌-◌, ◌^◌, ◌<◌, ◌≤◌, length, min, take, slice_get, IfSome, None};
ghost use Rattle.std.specs.List.{last_or};
ghost use Rattle.std.specs.Option.{option_and_then, option_copied};
ghost use Rattle.mvt_places.specs.Messages.{Ends, message_of, nth_inside, last_formed};
ghost use Rattle.mvt_places.specs.Places as spec;
ghost use Rattle.mvt_places.specs.Spans.{EndsBelow};
ghost use Rattle.mvt_places.specs.Places.{AreWithin, Reaches, id_of, name_of, holders_in, holders_of, layer_name_at, messages_of, feature_id_at, place_at, place_in};

use crate::message::{Form, Message, bytes_of, holding_field, last_field, nth_field};
use crate::numbers::see_joined;
use crate::place::Place;
use crate::span::Span;
use crate::target::{Pick, Target, target_of};
use mvt_base::LIMIT;
use mvt_tile::Fault;
use mvt_tile_value::numbers::{feature, layer, tile};
use mvt_wire::Payload;

/// What holds a fault: the input that is judged, and the layer and the feature that it names, if
/// these are there.
#[derive(Clone, Copy, Debug)]
pub(crate) struct Holders<'a> {
    /// How many bytes the input has.
    pub end: u64,
    pub input: Message<'a>,
    pub layer: Option<Message<'a>>,
    pub feature: Option<Message<'a>>,
}

/// The place of a fault in the bytes of a tile, with the name of its layer and the id of its
/// feature.
///
/// If the bytes have no such layer or feature, there is no name or no id, and the place is empty,
/// at the end of the bytes.
pub fn locate<'a>(bytes: &'a [u8], fault: &Fault) -> Place<'a>
    ensures name { option_copied result.layer_name ≡ layer_name_at LIMIT bytes.now fault.now }
    ensures id { result.feature_id ≡ feature_id_at LIMIT bytes.now fault.now }
    ensures start { result.start ≡ (place_at LIMIT bytes.now fault.now).start }
    ensures end { result.end ≡ (place_at LIMIT bytes.now fault.now).end }
    ensures ordered { result.start ≤ result.end }
    ensures within { result.end ≤ length bytes.now }
{
    locate_within(LIMIT as usize, bytes, fault)
}

/// The same for any limit.
fn locate_within<'a>(limit: usize, bytes: &'a [u8], fault: &Fault) -> Place<'a>
    ensures name { option_copied result.layer_name ≡ layer_name_at limit bytes.now fault.now }
    ensures id { result.feature_id ≡ feature_id_at limit bytes.now fault.now }
    ensures start { result.start ≡ (place_at limit bytes.now fault.now).start }
    ensures end { result.end ≡ (place_at limit bytes.now fault.now).end }
    ensures ordered { result.start ≤ result.end }
    ensures within { result.end ≤ length bytes.now }
{
    let holders = Holders::of(limit, bytes, fault);
    let span = holders.place(fault);
    Place {
        layer_name: holders.layer_name(),
        feature_id: holders.feature_id(),
        start: span.start,
        end: span.end,
    }
}

impl<'a> Holders<'a> {
    /// What holds a fault of an input, of which so many bytes are judged.
    pub(crate) fn of(limit: usize, bytes: &'a [u8], fault: &Fault) -> Self
        ensures is { holders_of result ≡ holders_in limit bytes.now fault.now }
        ensures within { AreWithin (holders_of result) }
        ensures end { result.end ≡ length bytes.now }
    {
        let input = Message::whole(&bytes[..limit.min(bytes.len())]);
        let layer = match fault.layer {
            Some(index) => nth_message(&input, tile::LAYERS, index),
            None => None,
        };
        let feature = match (layer, fault.feature) {
            (Some(layer), Some(index)) => nth_message(&layer, layer::FEATURES, index),
            _ => None,
        };
        Holders {
            end: bytes.len() as u64,
            input,
            layer,
            feature,
        }
    }

    /// The name of the layer that counts.
    fn layer_name(&self) -> Option<&'a [u8]>
        ensures { option_copied result ≡ option_and_then name_of (messages_of self.now.layer) }
    {
        let layer = self.layer?;
        let field = last_field(layer.payload, layer::NAME, Form::Bytes)?;
        Some(bytes_of(field.payload))
    }

    /// The id of the feature that counts.
    fn feature_id(&self) -> Option<u64>
        ensures { result ≡ option_and_then id_of (messages_of self.now.feature) }
    {
        let feature = self.feature?;
        let field = last_field(feature.payload, feature::ID, Form::Varint)?;
        match field.payload {
            Payload::Varint(id) => Some(id),
            Payload::Len(_) | Payload::I64(_) | Payload::I32(_) => None,
        }
    }

    /// The place of a fault.
    fn place(&self, fault: &Fault) -> Span
        requires { AreWithin (holders_of self.now) }
        ensures is { result ≡ place_in fault.now (holders_of self.now) }
        ensures ordered { result.start ≤ result.end }
        ensures within { result.end ≤ self.now.end }
    {
        if is_missing(fault.layer, &self.layer) || is_missing(fault.feature, &self.feature) {
            return Span::empty_at(self.end);
        }
        let at = fault.at;
        match target_of(fault.cause) {
            Target::Field => self.offset_span(at),
            Target::Name => self.named_span(at),
            Target::Rest => Span {
                start: at.min(self.end),
                end: self.end,
            },
            Target::Tag => self.in_feature(feature::TAGS, Pick::Nth(at)),
            Target::Tags => self.in_feature(feature::TAGS, Pick::Last),
            Target::Integer => self.in_feature(feature::GEOMETRY, Pick::Nth(at)),
            Target::Integers => self.in_feature(feature::GEOMETRY, Pick::Behind),
        }
    }

    /// The bytes of the field that begins at a place of the input.
    fn offset_span(&self, place: u64) -> Span
        requires { AreWithin (holders_of self.now) }
        ensures is { result ≡ spec.offset_span (holders_of self.now) place }
        ensures ordered { result.start ≤ result.end }
        ensures within { result.end ≤ self.now.end }
    {
        let place = place.min(self.input.payload.len() as u64);
        let message = self.holder(place);
        message.field_span((place - message.body) as usize)
    }

    /// The innermost message that has the byte at a place.
    pub(crate) fn holder(&self, place: u64) -> Message<'a>
        requires within { AreWithin (holders_of self.now) }
        requires reaches { Reaches place (message_of self.now.input) }
        ensures is { message_of result ≡ spec.holder place (message_of self.now.input)
            (messages_of self.now.layer) (messages_of self.now.feature) }
        ensures ends { Ends self.now.end (message_of result) }
        ensures reaches { Reaches place (message_of result) }
    {
        let value = value_of(place, self.layer);
        let layer = innermost(place, self.layer, self.input);
        let value_or_layer = innermost(place, value, layer);
        innermost(place, self.feature, value_or_layer)
    }

    /// The bytes of the name of the layer; without one, of the field that begins at the place.
    fn named_span(&self, place: u64) -> Span
        requires { AreWithin (holders_of self.now) }
        ensures is { result ≡ spec.named_span (holders_of self.now) place
            (messages_of self.now.layer) }
        ensures ordered { result.start ≤ result.end }
        ensures within { result.end ≤ self.now.end }
    {
        let Some(layer) = self.layer else {
            return self.offset_span(place);
        };
        match last_field(layer.payload, layer::NAME, Form::Bytes) {
            Some(field) => layer.field_span(field.at),
            None => self.offset_span(place),
        }
    }

    /// Where a number of the feature is spelled; the end of the input without a feature.
    fn in_feature(&self, number: u32, pick: Pick) -> Span
        requires { AreWithin (holders_of self.now) }
        ensures is { result ≡ spec.in_feature self.now.end number pick
            (messages_of self.now.feature) }
        ensures ordered { result.start ≤ result.end }
        ensures within { result.end ≤ self.now.end }
    {
        match self.feature {
            Some(feature) => number_span(&feature, number, pick, self.end),
            None => Span::empty_at(self.end),
        }
    }
}

/// Where a number of a message's fields is spelled, or the place after them if there is none; no
/// further than this end.
fn number_span(message: &Message<'_>, number: u32, pick: Pick, end: u64) -> Span
    requires { Ends end (message_of message.now) }
    ensures is { result ≡ spec.number_span number pick (message_of message.now) }
    ensures ordered { result.start ≤ result.end }
    ensures within { result.end ≤ end }
{
    let index = match pick {
        Pick::Nth(index) => index,
        Pick::Last | Pick::Behind => 0,
    };
    let seen = see_joined(message, number, index);
    let picked = match pick {
        Pick::Nth(_) => seen.wanted,
        Pick::Last => seen.last,
        Pick::Behind => None,
    };
    match picked {
        Some(span) => span,
        None => behind(message, number, seen.last, end),
    }
}

/// The place after the last number of a message; without one after the last field of the numbers;
/// without one the message's own field.
fn behind(message: &Message<'_>, number: u32, last: Option<Span>, end: u64) -> Span
    requires ends { Ends end (message_of message.now) }
    requires last { IfSome last (EndsBelow end) }
    ensures is { result ≡ spec.behind (message_of message.now)
        (last_formed Form.Any number (message_of message.now)) last }
    ensures ordered { result.start ≤ result.end }
    ensures within { result.end ≤ end }
{
    if let Some(last) = last {
        return Span::empty_at(last.end);
    }
    match last_field(message.payload, number, Form::Any) {
        Some(field) => {
            let own = message.field_span(field.at);
            Span::empty_at(own.end)
        }
        None => message.own,
    }
}

/// Whether an index is told of a message that isn't there.
fn is_missing(index: Option<u32>, message: &Option<Message<'_>>) -> bool
    ensures { result ≡ spec.is_missing index (messages_of message.now) }
{
    index.is_some() && message.is_none()
}

/// The value of a layer that has the byte at a place.
fn value_of<'a>(place: u64, layer: Option<Message<'a>>) -> Option<Message<'a>>
    requires { IfSome (messages_of layer) (Ends (2 ^ 64 - 1)) }
    ensures is { messages_of result ≡ spec.value_of place (messages_of layer.entry) }
    ensures ends { (end : ℕ) → IfSome (messages_of layer.entry) (Ends end)
        → IfSome (messages_of result) (Ends end) }
{
    let layer = layer?;
    let field = holding_field(
        layer.payload,
        layer::VALUES,
        place.saturating_sub(layer.body),
    )?;
    Some(layer.inside(field))
}

/// The message if it has the byte at a place, or else another.
fn innermost<'a>(place: u64, inner: Option<Message<'a>>, outer: Message<'a>) -> Message<'a>
    ensures is { message_of result
        ≡ spec.innermost place (messages_of inner.entry) (message_of outer.entry) }
    ensures ends { (end : ℕ) → IfSome (messages_of inner.entry) (Ends end)
        → Ends end (message_of outer.entry) → Ends end (message_of result) }
    ensures reaches { Reaches place (message_of outer.entry) → Reaches place (message_of result) }
{
    match inner {
        Some(inner) => {
            if has_byte_at(place, &inner) {
                inner
            } else {
                outer
            }
        }
        None => outer,
    }
}

fn has_byte_at(place: u64, message: &Message<'_>) -> bool
    ensures { result ≡ spec.has_byte_at place (message_of message.now) }
{
    message.body <= place && place - message.body < message.payload.len() as u64
}

/// The message of a number and an index in another.
fn nth_message<'a>(outer: &Message<'a>, number: u32, index: u32) -> Option<Message<'a>>
    requires { outer.now.body + length outer.now.payload.now < 2 ^ 64 }
    ensures is { messages_of result ≡ nth_inside number index (message_of outer.now) }
    ensures ends { (place : ℕ) → outer.now.body + length outer.now.payload.now ≤ place
        → IfSome (messages_of result) (Ends place) }
{
    match nth_field(outer.payload, number, index) {
        Some(field) => Some(outer.inside(field)),
        None => None,
    }
}
