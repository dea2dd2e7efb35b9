//! A tile's bytes mended (section 4.1).
ghost use Rattle.std.specs.Prelude.{◌≡◌, ◌^◌, ◌+◌, ◌<◌, ◌≤◌, ◌==◌, [], ◌++◌, if◌then◌else◌, length, IfOk, IfErr, OnOk};
ghost use Rattle.mvt_wire.specs.Field.{content_of, entry_of};
ghost use Rattle.mvt_wire.specs.Spelling.{spelled};
ghost use Rattle.mvt_wire.specs.Split.{split};
ghost use Rattle.mvt_tile_value.specs.declared.numbers.tile.TheConstants.{LAYERS};
ghost use Rattle.mvt_rings.specs.Steps.{IsEnded};
ghost use Rattle.mvt_mend.specs.Changes.{first_cause};
ghost use Rattle.mvt_mend.specs.Tiles.{StopsMending, as_layer, cause_at, cause_from, cause_in, changes_from, changes_in, field_as, fields_with, is_long_winded, layer_cause, layer_changes, layer_steps, mended, payload_fields, steps_at, steps_in, tile_steps, told_at};

use crate::change::Unmended;
use crate::geometry::MOST_STEPS;
use crate::layers::{is_whole, mend_layer};
use crate::telling::Told;
use mvt_base::LIMIT;
use mvt_rings::Ended;
use mvt_tile_value::numbers::tile;
use mvt_wire::{Field, Fields, Payload, put_field};
use std::alloc::Global;

/// A tile's bytes with its layers mended, and what is told of them; without changes the bytes mean
/// nothing.
#[derive(Drop)]
pub(crate) struct MendedBytes {
    pub(crate) bytes: Vec<u8>,
    pub(crate) told: Told,
}

/// A tile's bytes with its layers mended.
///
/// # Errors
///
/// When memory runs out, or when telling rings takes too many steps.
#[tactic(auto, unfolding(crate::specs::Tiles::changes_in, crate::specs::Tiles::cause_in, crate::specs::Tiles::tile_steps, crate::specs::Tiles::is_long_winded))]
pub(crate) fn mend_bytes(alloc: Global, bytes: &[u8]) -> Result<MendedBytes, Ended>
    ensures changes { IfOk result (λ made. made.told.changes.items ≡ changes_in bytes.now) }
    ensures cause { IfOk result (λ made. made.told.cause ≡ cause_in bytes.now) }
    ensures stays { IfOk result (λ made. length made.told.changes.items ≡ 0
        → mended bytes.now ≡ bytes.now) }
    ensures bytes { IfOk result (λ made. 0 < length made.told.changes.items
        → mended bytes.now ≡ made.bytes.items) }
    ensures ended { IfErr result (λ e. StopsMending e bytes.now) }
{
    let mut made = MendedBytes {
        bytes: Vec::new(alloc),
        told: Told {
            changes: Vec::new(alloc),
            cause: Unmended::AnotherRule,
            left: MOST_STEPS,
        },
    };
    if bytes.len() as u64 > LIMIT || !is_whole(bytes) {
        return Ok(made);
    }
    made.bytes.reserve(bytes.len())?;
    mend_fields(alloc, bytes, &mut made.bytes, &mut made.told)?;
    Ok(made)
}

/// Appends the fields of a tile with its layers mended.
fn mend_fields(alloc: Global, bytes: &[u8], out: &mut Vec<u8>, told: &mut Told) -> Result<(), Ended>
    ensures bytes { OnOk result (out.new.items ≡ out.old.items
        ++ spelled (fields_with as_layer LAYERS (split bytes.now).fields)) }
    ensures changes { OnOk result (told.new.changes.items ≡ told.old.changes.items
        ++ changes_from layer_changes LAYERS 0 (split bytes.now).fields) }
    ensures cause { OnOk result (told.new.cause
        ≡ cause_from layer_cause LAYERS 0 told.old.cause (split bytes.now).fields) }
    ensures left { OnOk result (told.new.left
        + steps_in layer_steps LAYERS (split bytes.now).fields ≡ told.old.left) }
    ensures ended { IfErr result (λ e. IsEnded e told.old.left
        (steps_in layer_steps LAYERS (split bytes.now).fields)) }
{
    let mut index = 0usize;
    for field in Fields::new(bytes) {
        if let Ok(field) = field {
            mend_field(alloc, index, &field, out, told)?;
            if field.number == tile::LAYERS {
                index += 1;
            }
        }
    }
    Ok(())
}

/// Appends a field of a tile, mended if it holds the layer of this index.
fn mend_field(
    alloc: Global,
    index: usize,
    field: &Field<'_>,
    out: &mut Vec<u8>,
    told: &mut Told,
) -> Result<(), Ended>
    requires first { 1 ≤ field.now.number }
    requires last { field.now.number < 2 ^ 29 }
    ensures bytes { OnOk result (out.new.items ≡ out.old.items
        ++ spelled (field_as as_layer LAYERS (entry_of field.now))) }
    ensures changes { OnOk result (told.new.changes.items ≡ told.old.changes.items
        ++ (if field.now.number == LAYERS
        then told_at (layer_changes index) (content_of field.now.payload) else [])) }
    ensures cause { OnOk result (told.new.cause ≡ (if field.now.number == LAYERS
        then first_cause told.old.cause
        (cause_at (layer_cause index) (content_of field.now.payload))
        else told.old.cause)) }
    ensures left { OnOk result (told.new.left + (if field.now.number == LAYERS
        then steps_at layer_steps (content_of field.now.payload) else 0) ≡ told.old.left) }
    ensures ended { IfErr result (λ e. IsEnded e told.old.left (if field.now.number == LAYERS
        then steps_at layer_steps (content_of field.now.payload) else 0)) }
{
    if field.number != tile::LAYERS {
        return Ok(put_field(out, field.number, &field.payload)?);
    }
    match &field.payload {
        Payload::Len(payload) => put_layer(alloc, index, payload, out, told),
        Payload::Varint(_) => Ok(put_field(out, field.number, &field.payload)?),
        Payload::I64(_) => Ok(put_field(out, field.number, &field.payload)?),
        Payload::I32(_) => Ok(put_field(out, field.number, &field.payload)?),
    }
}

/// Appends the field of a layer, mended.
fn put_layer(
    alloc: Global,
    index: usize,
    payload: &[u8],
    out: &mut Vec<u8>,
    told: &mut Told,
) -> Result<(), Ended>
    ensures bytes { OnOk result (out.new.items ≡ out.old.items
        ++ spelled (payload_fields LAYERS (as_layer payload.now))) }
    ensures changes { OnOk result (told.new.changes.items
        ≡ told.old.changes.items ++ layer_changes index payload.now) }
    ensures cause { OnOk result (told.new.cause
        ≡ first_cause told.old.cause (layer_cause index payload.now)) }
    ensures left { OnOk result (told.new.left + layer_steps payload.now ≡ told.old.left) }
    ensures ended { IfErr result (λ e. IsEnded e told.old.left (layer_steps payload.now)) }
{
    let mut layer = Vec::with_capacity(alloc, payload.len())?;
    mend_layer(alloc, index, payload, &mut layer, told)?;
    put_field(out, tile::LAYERS, &Payload::Len(&layer))?;
    Ok(())
}
