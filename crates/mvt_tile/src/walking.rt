//! The whole fields at the front of some bytes, and a visitor that takes the items in them.
ghost use Rattle.std.specs.Prelude.{◌≡◌, ◌≢◌, ℕ, ◌+◌, ◌≤◌, List, [], ◌∷◌, ◌++◌, length, IfOk, IfErr, OnOk, MatchOption};
ghost use Rattle.std.specs.List.{flat_map};
ghost use Rattle.mvt_base.specs.Rules.{first};
ghost use Rattle.mvt_wire.specs.Field.{Entry, entry_of};
ghost use Rattle.mvt_wire.specs.Fields.{bytes_size};
ghost use Rattle.mvt_wire.specs.Split.{shifted};
ghost use Rattle.mvt_feature.specs.Causes.{of_wire};
ghost use Rattle.mvt_message.specs.declared.item.Item.{Item};
ghost use Rattle.mvt_message.specs.Items.{names_in};
ghost use Rattle.mvt_tile_value.specs.declared.numbers.tile.TheConstants.{LAYERS};
ghost use Rattle.mvt_tile_value.specs.declared.tile.Tile.{Tile};
ghost use Rattle.mvt_tile.specs.Faults.{outer_fault};
ghost use Rattle.mvt_tile.specs.Inner.Taking.{HasTaken};
ghost use Rattle.mvt_tile.specs.Inner.Judging.{IsJudged, IsPlaceOf, IsOneItemMore, ReportsAfter, payload_fault, repeated_at, reported_in};
ghost use Rattle.mvt_tile.specs.Streams.{ReportsEarly, ReportsAtEnd};
ghost use Rattle.mvt_tile.specs.TileRules.{field_rules, fault_within};
ghost use Rattle.mvt_tile.specs.Visiting.{payloads_in, payloads_of};
ghost use Rattle.mvt_tile_value.specs.Tiles.{AreItems, IsTile};

use crate::fault::{DecodeError, Fault};
use crate::names::Names;
use crate::visiting::TileVisitor;
use mvt_base::LIMIT;
use mvt_message::{Cause, MessageError};
use mvt_tile_value::numbers::tile;
use mvt_wire::{Field, Fields, Payload, WireCause, WireFault};
use std::alloc::Global;

/// A visitor, and the names of the layers that it took.
#[derive(Drop)]
pub(crate) struct Taken<V> {
    pub(crate) names: Names,
    pub(crate) visitor: V,
}

impl<V: TileVisitor> Taken<V> {
    /// No items yet. Takes no memory.
    pub(crate) fn new(alloc: Global, visitor: V) -> Self
        ensures { (given : V.Given) → V.has_items given [] visitor []
            → HasTaken (V.has_items given []) result [] }
    {
        Taken {
            names: Names::new(alloc),
            visitor,
        }
    }

    /// Has the visitor take the item of a payload, and adds its name. The payload's first byte and
    /// the tag of its field stand at these places.
    fn take_item(
        &mut self,
        alloc: Global,
        payload: &[u8],
        payload_at: u64,
        tag_at: u64,
    ) -> Result<(), DecodeError>
        requires few { (given : V.Given) × (payloads : List (List ℕ)) × (items : List Item)
            × HasTaken (V.has_items given payloads) self.old items × (length items ≤ LIMIT) }
        requires fits { payload_at + length payload.now ≤ LIMIT }
        ensures item { (given : V.Given) (payloads : List (List ℕ)) (items : List Item)
            → HasTaken (V.has_items given payloads) self.old items → OnOk result ((new : List Item)
            × HasTaken (V.has_items given (payloads ++ payload.now ∷ [])) self.new new
            × IsOneItemMore items new payload.now) }
        ensures fault { (given : V.Given) (payloads : List (List ℕ)) (items : List Item)
            → HasTaken (V.has_items given payloads) self.old items → IfErr result
            (λ error. ReportsEarly error (payload_fault (length items)
            (flat_map names_in items) payload.now payload_at tag_at)) }
    {
        match self.visitor.visit_item(alloc, payload, payload_at, tag_at) {
            Ok(name) => self.names.add(name, tag_at),
            Err(error) => Err(in_layer(self.names.count, error)),
        }
    }
}

/// Takes the items of a tile: all bytes, which stand at the front of an input.
pub(crate) fn walk_whole<V: TileVisitor>(
    alloc: Global,
    visitor: V,
    bytes: &[u8],
) -> Result<Taken<V>, DecodeError>
    requires start { (given : V.Given) × V.has_items given [] visitor [] }
    ensures tile { (given : V.Given) → V.has_items given [] visitor [] → IfOk result (λ taken.
        (tile : Tile) × IsTile LIMIT bytes.now tile
        × HasTaken (V.has_items given (payloads_in bytes.now)) taken tile.items) }
    ensures fault { IfErr result (λ error. ReportsAtEnd error (fault_within LIMIT bytes.now)) }
{
    let (fitting, rest) = bytes.split_at(bytes.len().min(LIMIT as usize));
    let mut taken = Taken::new(alloc, visitor);
    let used = walk_fields(alloc, &mut taken, fitting, 0)?;
    if !rest.is_empty() {
        return Err(DecodeError::Fault(Fault::outer(used as u64, Cause::TooLarge)));
    }
    if used < fitting.len() {
        return Err(DecodeError::Fault(Fault::outer(used as u64, Cause::Truncated)));
    }
    Ok(taken)
}

/// Takes the items of the whole fields at the front, and answers how many bytes those are. The
/// bytes stand at an offset of the input.
pub(crate) fn walk_fields<V: TileVisitor>(
    alloc: Global,
    taken: &mut Taken<V>,
    bytes: &[u8],
    offset: u64,
) -> Result<usize, DecodeError>
    requires few { (given : V.Given) × (payloads : List (List ℕ)) × (items : List Item)
        × HasTaken (V.has_items given payloads) taken.old items × (length items ≤ offset) }
    requires fits { offset + length bytes.now ≤ LIMIT }
    ensures judged { (given : V.Given) (payloads : List (List ℕ)) (items : List Item)
        → HasTaken (V.has_items given payloads) taken.old items → IfOk result
        (λ used. (new : List Item)
        × HasTaken (V.has_items given (payloads ++ payloads_in bytes.now)) taken.new new
        × IsJudged offset bytes.now items new used) }
    ensures fault { (given : V.Given) (payloads : List (List ℕ)) (items : List Item)
        → HasTaken (V.has_items given payloads) taken.old items → IfErr result
        (λ error. ReportsAfter error offset bytes.now items) }
{
    for field in Fields::new(bytes) {
        match field {
            Ok(field) => take_field(alloc, taken, &field, offset)?,
            Err(fault) => return judge_rest(fault, offset),
        }
    }
    Ok(bytes.len())
}

/// An unfinished field ends the fields; another broken spelling is a fault.
fn judge_rest(fault: WireFault, offset: u64) -> Result<usize, DecodeError>
    requires { offset + fault.at ≤ LIMIT }
    ensures unfinished { IfOk result (λ at. (at ≡ fault.at) × (fault.cause ≡ WireCause.Truncated)) }
    ensures fault { IfErr result (λ error. (fault.cause ≢ WireCause.Truncated)
        × (error ≡ DecodeError.Fault (outer_fault (offset + fault.at) (of_wire fault.cause)))) }
{
    match fault.cause {
        WireCause::Truncated => Ok(fault.at),
        cause => Err(DecodeError::Fault(Fault::outer(
            offset + fault.at as u64,
            Cause::from(cause),
        ))),
    }
}

/// A layer's payload in the input, with the places of its first byte and of its field's tag.
#[derive(Clone, Copy, Debug)]
struct Place<'a> {
    payload: &'a [u8],
    payload_at: u64,
    tag_at: u64,
}

/// The payload of a field that holds a layer. Other fields hold no layer.
fn layer_in<'a>(field: &Field<'a>, offset: u64) -> Result<Option<Place<'a>>, DecodeError>
    requires place { offset + field.now.at ≤ LIMIT }
    requires fits { offset + (field.now.body + bytes_size (entry_of field.now).content) ≤ LIMIT }
    ensures place { IfOk result (λ found. MatchOption found (field.now.number ≢ LAYERS)
        (λ place. IsPlaceOf offset (entry_of field.now) place.payload.now place.payload_at
        place.tag_at)) }
    ensures fault { IfErr result (λ error. (front : List Entry) →
        ReportsEarly error (first (field_rules front (shifted offset (entry_of field.now))))) }
{
    if field.number != tile::LAYERS {
        return Ok(None);
    }
    let tag_at = offset + field.at as u64;
    match field.payload {
        Payload::Len(payload) => Ok(Some(Place {
            payload,
            payload_at: offset + field.body as u64,
            tag_at,
        })),
        Payload::Varint(_) | Payload::I64(_) | Payload::I32(_) => Err(DecodeError::Fault(
            Fault::outer(tag_at, Cause::WrongType),
        )),
    }
}

/// Takes the item of a field that holds one.
fn take_field<V: TileVisitor>(
    alloc: Global,
    taken: &mut Taken<V>,
    field: &Field<'_>,
    offset: u64,
) -> Result<(), DecodeError>
    requires few { (given : V.Given) × (payloads : List (List ℕ)) × (items : List Item)
        × HasTaken (V.has_items given payloads) taken.old items × (length items ≤ LIMIT) }
    requires place { offset + field.now.at ≤ LIMIT }
    requires fits { offset + (field.now.body + bytes_size (entry_of field.now).content) ≤ LIMIT }
    ensures items { (given : V.Given) (payloads : List (List ℕ)) (items : List Item)
        → HasTaken (V.has_items given payloads) taken.old items → OnOk result ((new : List Item)
        × HasTaken (V.has_items given (payloads ++ payloads_of (entry_of field.now ∷ [])))
        taken.new new × (length new ≤ length items + 1)
        × ((front : List Entry) → AreItems front items
        → AreItems (front ++ shifted offset (entry_of field.now) ∷ []) new)) }
    ensures fault { (given : V.Given) (payloads : List (List ℕ)) (items : List Item)
        → HasTaken (V.has_items given payloads) taken.old items → IfErr result (λ error.
        (front : List Entry) → AreItems front items
        → ReportsEarly error (first (field_rules front (shifted offset (entry_of field.now))))) }
{
    match layer_in(field, offset)? {
        None => Ok(()),
        Some(place) => taken.take_item(alloc, place.payload, place.payload_at, place.tag_at),
    }
}

/// An error of a payload, as an error of the tile.
pub(crate) fn in_layer(index: u32, error: MessageError) -> DecodeError
    ensures { result ≡ reported_in index error }
{
    match error {
        MessageError::Memory => DecodeError::Memory,
        MessageError::Fault { feature, at, cause } => DecodeError::Fault(Fault {
            layer: Some(index),
            feature,
            at,
            cause,
        }),
    }
}

/// The fault of a layer whose name an earlier one has.
pub(crate) fn repeated_name(index: u32, tag_at: u64) -> DecodeError
    ensures { result ≡ DecodeError.Fault (repeated_at index tag_at) }
{
    DecodeError::Fault(Fault {
        layer: Some(index),
        feature: None,
        at: tag_at,
        cause: Cause::RepeatedName,
    })
}
