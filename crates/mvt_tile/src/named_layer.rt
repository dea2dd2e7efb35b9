//! Going over one layer of a tile, whatever the others are.
ghost use Rattle.std.specs.Prelude.{◌≡◌, ℕ, ◌+◌, ◌≤◌, [], ◌∷◌, length, None, Some, IfOk, IfErr, MatchOption, OnOk};
ghost use Rattle.std.specs.Option.{option_map};
ghost use Rattle.mvt_base.specs.Rules.{first};
ghost use Rattle.mvt_wire.specs.Field.{Entry, entry_of};
ghost use Rattle.mvt_wire.specs.Split.{split};
ghost use Rattle.mvt_message.specs.declared.item.Item.{Item};
ghost use Rattle.mvt_message.specs.Items.{IsItem};
ghost use Rattle.mvt_message.specs.ItemRules.{item_fault};
ghost use Rattle.mvt_tile.specs.declared.fault.Fault.{Fault as TileFault};
ghost use Rattle.mvt_tile.specs.Faults.{in_layer as in_layer_fault};
ghost use Rattle.mvt_tile.specs.NamedLayer.{IsFoundAt, first_in, named_fault};
ghost use Rattle.mvt_tile.specs.Streams.{ReportsAtEnd};
ghost use Rattle.mvt_tile.specs.TileRules.{payload_of, rest_rules};

use crate::fault::{DecodeError, Fault};
use crate::visiting::TileVisitor;
use crate::walking::in_layer;
use mvt_base::LIMIT;
use mvt_message::{Cause, has_name};
use mvt_tile_value::numbers::tile;
use mvt_wire::{Field, Fields, Payload};
use std::alloc::Global;

/// Passes the first layer of version 2 with a name to a visitor, and answers the visitor, or `None`
/// if no layer has that name. Reads only as far as this layer, and of earlier layers only the
/// version and the name; later bytes may be broken.
///
/// # Errors
///
/// The first fault of that layer; bytes before it that are no field; too many bytes; out of memory.
pub fn visit_named<V: TileVisitor>(
    alloc: Global,
    visitor: V,
    bytes: &[u8],
    name: &[u8],
) -> Result<Option<V>, DecodeError>
    requires { (given : V.Given) × V.has_items given [] visitor [] }
    ensures found { (given : V.Given) → V.has_items given [] visitor [] → IfOk result
        (λ found. MatchOption found (first_in name.now bytes.now ≡ None)
        (λ visitor. (found : ℕ × Entry) × (item : Item)
        × (first_in name.now bytes.now ≡ Some found) × IsItem (payload_of found.1) item
        × V.has_items given (payload_of found.1 ∷ []) visitor (item ∷ []))) }
    ensures ok { OnOk result (named_fault LIMIT name.now bytes.now ≡ None) }
    ensures fault { IfErr result
        (λ error. ReportsAtEnd error (named_fault LIMIT name.now bytes.now)) }
{
    if bytes.len() > LIMIT as usize {
        return Err(DecodeError::Fault(Fault::outer(LIMIT, Cause::TooLarge)));
    }
    match find_layer(bytes, name)? {
        Some(found) => Ok(Some(visit_found(alloc, visitor, found)?)),
        None => Ok(None),
    }
}

/// A layer's payload, with its index among the layers and the places of its first byte and of its
/// field's tag.
#[derive(Clone, Copy, Debug)]
struct Found<'a> {
    index: u32,
    payload: &'a [u8],
    payload_at: u64,
    tag_at: u64,
}

/// The first layer of a name.
fn find_layer<'a>(bytes: &'a [u8], name: &[u8]) -> Result<Option<Found<'a>>, DecodeError>
    requires { length bytes.now ≤ LIMIT }
    ensures found { IfOk result (λ found. MatchOption found
        ((first_in name.now bytes.now ≡ None) × ((split bytes.now).rest ≡ []))
        (λ found. IsFoundAt name.now bytes.now found.index found.payload.now found.payload_at
        found.tag_at)) }
    ensures fault { IfErr result (λ error. (first_in name.now bytes.now ≡ None)
        × ((fault : TileFault) × (error ≡ DecodeError.Fault fault)
        × (first (rest_rules (split bytes.now)) ≡ Some fault))) }
{
    let mut index = 0u32;
    for field in Fields::new(bytes) {
        match field {
            Ok(field) => {
                if field.number == tile::LAYERS {
                    let payload = bytes_in(&field);
                    if has_name(payload, name) {
                        return Ok(Some(Found {
                            index,
                            payload,
                            payload_at: field.body as u64,
                            tag_at: field.at as u64,
                        }));
                    }
                    index += 1;
                }
            }
            Err(fault) => {
                let cause = Cause::from(fault.cause);
                return Err(DecodeError::Fault(Fault::outer(fault.at as u64, cause)));
            }
        }
    }
    Ok(None)
}

/// The bytes of a field; one of another form has none.
fn bytes_in<'a>(field: &Field<'a>) -> &'a [u8]
    ensures { result.now ≡ payload_of (entry_of field.now) }
{
    match field.payload {
        Payload::Len(bytes) => bytes,
        Payload::Varint(_) | Payload::I64(_) | Payload::I32(_) => &[],
    }
}

/// Has a visitor take a layer that was found.
fn visit_found<V: TileVisitor>(
    alloc: Global,
    visitor: V,
    found: Found<'_>,
) -> Result<V, DecodeError>
    requires start { (given : V.Given) × V.has_items given [] visitor [] }
    requires fits { found.payload_at + length found.payload.now ≤ LIMIT }
    ensures item { (given : V.Given) → V.has_items given [] visitor [] → IfOk result (λ visitor.
        (item : Item) × IsItem found.entry.payload.now item
        × V.has_items given (found.entry.payload.now ∷ []) visitor (item ∷ [])) }
    ensures ok { OnOk result (item_fault found.entry.payload.now found.entry.payload_at
        found.entry.tag_at ≡ None) }
    ensures fault { IfErr result (λ error. ReportsAtEnd error
        (option_map (in_layer_fault found.entry.index) (item_fault found.entry.payload.now
        found.entry.payload_at found.entry.tag_at))) }
{
    let mut visitor = visitor;
    match visitor.visit_item(alloc, found.payload, found.payload_at, found.tag_at) {
        Ok(_) => Ok(visitor),
        Err(error) => Err(in_layer(found.index, error)),
    }
}
