//! Whether a canonical layer may stand at the front of bytes, by their first fields.
ghost use Rattle.std.specs.Prelude.{◌≡◌, ◌++◌, ℕ, true, false, List, [], Some};
ghost use Rattle.std.specs.Option.{option_copied};
ghost use Rattle.mvt_wire.specs.Field.{bytes as in_bytes, varint};
ghost use Rattle.mvt_wire.specs.Spelling.{IsFit, Plain, short_field};
ghost use Rattle.mvt_feature.specs.Canonical.{plain};
ghost use Rattle.mvt_message.specs.declared.numbers.layer.TheConstants.{EXTENT, FEATURES, NAME, VERSION};
ghost use Rattle.mvt_tile_value.specs.declared.numbers.tile.TheConstants.{LAYERS};
ghost use Rattle.mvt_tile_value.specs.Beginning.{BeginsNoLayer, HoldsField, IsBehind, IsNoLayer, IsNoPayload};

use crate::numbers::tile;
use mvt_message::numbers::layer;
use mvt_wire::{Payload, next_field};

/// Whether a canonical layer of version 2 may follow.
pub(crate) fn may_be_layer(left: Option<&[u8]>) -> bool
    ensures { result ≡ false → IsNoLayer left.entry }
{
    match left {
        Some(rest) => begins_layer(rest),
        None => false,
    }
}

fn begins_layer(bytes: &[u8]) -> bool
    ensures { result ≡ false → BeginsNoLayer bytes.now }
{
    match layer_of(first_field(bytes)) {
        Some(payload) => begins_payload(payload),
        None => false,
    }
}

/// Whether a payload begins as the canonical one of a layer does: with the version and the name,
/// and then with a feature, or the extent ends it. Most programs write the version last, or the
/// extent before the features.
fn begins_payload(payload: &[u8]) -> bool
    ensures { result ≡ false → IsNoPayload payload.now }
{
    match behind_version(first_field(payload)) {
        Some(named) => match behind_name(first_field(named)) {
            Some(body) => begins_body(first_field(body)),
            None => false,
        },
        None => false,
    }
}

/// The first field of bytes, and what stands after it.
#[derive(Clone, Copy, Debug)]
struct Front<'a> {
    number: u32,
    payload: Payload<'a>,
    rest: &'a [u8],
}

fn first_field(bytes: &[u8]) -> Option<Front<'_>>
    ensures { (field : Plain) (more : List ℕ) → IsFit field
        → bytes.now ≡ short_field field.number field.content ++ more
        → HoldsField field more result }
{
    match next_field(bytes, 0) {
        Ok(Some((field, end))) => Some(Front {
            number: field.number,
            payload: field.payload,
            rest: &bytes[end..],
        }),
        Ok(None) => None,
        Err(_) => None,
    }
}

/// The payload of a field that is a layer's.
fn layer_of<'a>(front: Option<Front<'a>>) -> Option<&'a [u8]>
    ensures { (d more : List ℕ) → HoldsField (plain LAYERS (in_bytes d)) more front.entry
        → IsBehind d result }
{
    match front {
        Some(
            Front {
                number: tile::LAYERS,
                payload: Payload::Len(payload),
                ..
            },
        ) => Some(payload),
        _ => None,
    }
}

/// What stands after version 2 of a layer.
fn behind_version<'a>(front: Option<Front<'a>>) -> Option<&'a [u8]>
    ensures { (more : List ℕ) → HoldsField (plain VERSION (varint 2)) more front.entry
        → IsBehind more result }
{
    match front {
        Some(
            Front {
                number: layer::VERSION,
                payload: Payload::Varint(2),
                rest,
            },
        ) => Some(rest),
        _ => None,
    }
}

/// What stands after the name of a layer.
fn behind_name<'a>(front: Option<Front<'a>>) -> Option<&'a [u8]>
    ensures { (name more : List ℕ) → HoldsField (plain NAME (in_bytes name)) more front.entry
        → IsBehind more result }
{
    match front {
        Some(
            Front {
                number: layer::NAME,
                rest,
                ..
            },
        ) => Some(rest),
        _ => None,
    }
}

/// Whether a field may follow the head of a canonical layer.
fn begins_body(front: Option<Front<'_>>) -> bool
    ensures feature { (d more : List ℕ) → HoldsField (plain FEATURES (in_bytes d)) more front.entry
        → result ≡ true }
    ensures extent { (n : ℕ) → HoldsField (plain EXTENT (varint n)) [] front.entry
        → result ≡ true }
{
    match front {
        Some(front) => match front.number {
            layer::FEATURES => true,
            layer::EXTENT => front.rest.is_empty(),
            _ => false,
        },
        None => false,
    }
}
