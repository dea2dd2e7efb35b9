//! A layer's payload mended (section 4.1).
ghost use Rattle.std.specs.Prelude.{◌≡◌, ◌^◌, ◌+◌, ◌<◌, ◌≤◌, ◌==◌, [], ◌++◌, if◌then◌else◌, IfErr, OnOk};
ghost use Rattle.mvt_wire.specs.Field.{content_of, entry_of};
ghost use Rattle.mvt_wire.specs.Spelling.{spelled};
ghost use Rattle.mvt_wire.specs.Split.{split};
ghost use Rattle.mvt_message.specs.declared.numbers.layer.TheConstants.{FEATURES};
ghost use Rattle.mvt_rings.specs.Steps.{IsEnded};
ghost use Rattle.mvt_mend.specs.Changes.{first_cause};
ghost use Rattle.mvt_mend.specs.Features.{feature_cause, feature_changes, feature_steps, mended_feature};
ghost use Rattle.mvt_mend.specs.Tiles.{cause_at, cause_from, changes_from, field_as, fields_with, is_layer as has_features, is_whole as splits, layer_cause, layer_changes, layer_steps, mended_layer, payload_fields, steps_at, steps_in, told_at};

use crate::features::{kind_of, read_integers, with_integers};
use crate::telling::{Told, mend_told};
use mvt_message::name_in;
use mvt_message::numbers::layer;
use mvt_rings::Ended;
use mvt_wire::{Field, Fields, Payload, put_field};
use std::alloc::Global;

/// Appends a layer's payload with its features mended, and tells what is changed, or why it isn't
/// mended. One that has no name, or isn't of version 2, is appended as it stands.
///
/// # Errors
///
/// When memory runs out, or when telling rings takes more steps than are left.
#[tactic(auto, unfolding(crate::specs::Tiles::mended_layer, crate::specs::Tiles::layer_changes, crate::specs::Tiles::layer_cause, crate::specs::Tiles::layer_steps))]
pub(crate) fn mend_layer(
    alloc: Global,
    index: usize,
    payload: &[u8],
    out: &mut Vec<u8>,
    told: &mut Told,
) -> Result<(), Ended>
    ensures bytes { OnOk result (out.new.items ≡ out.old.items ++ mended_layer payload.now) }
    ensures changes { OnOk result (told.new.changes.items
        ≡ told.old.changes.items ++ layer_changes index payload.now) }
    ensures cause { OnOk result (told.new.cause
        ≡ first_cause told.old.cause (layer_cause index payload.now)) }
    ensures left { OnOk result (told.new.left + layer_steps payload.now ≡ told.old.left) }
    ensures ended { IfErr result (λ e. IsEnded e told.old.left (layer_steps payload.now)) }
{
    if !is_layer(payload) {
        out.extend_from_slice(payload)?;
        return Ok(());
    }
    mend_fields(alloc, index, payload, out, told)?;
    Ok(())
}

/// Whether a payload is a layer of version 2 that has a name.
#[tactic(auto, unfolding(crate::specs::Tiles::is_layer))]
fn is_layer(payload: &[u8]) -> bool
    ensures { result ≡ has_features payload.now }
{
    name_in(payload).is_some() && is_whole(payload)
}

/// Whether bytes are fields and nothing else.
pub(crate) fn is_whole(bytes: &[u8]) -> bool
    ensures { result ≡ splits bytes.now }
{
    for field in Fields::new(bytes) {
        if field.is_err() {
            return false;
        }
    }
    true
}

/// Appends the fields of a layer with its features mended.
fn mend_fields(
    alloc: Global,
    layer: usize,
    payload: &[u8],
    out: &mut Vec<u8>,
    told: &mut Told,
) -> Result<(), Ended>
    ensures bytes { OnOk result (out.new.items ≡ out.old.items
        ++ spelled (fields_with mended_feature FEATURES (split payload.now).fields)) }
    ensures changes { OnOk result (told.new.changes.items ≡ told.old.changes.items
        ++ changes_from (feature_changes layer) FEATURES 0 (split payload.now).fields) }
    ensures cause { OnOk result (told.new.cause
        ≡ cause_from (feature_cause layer) FEATURES 0 told.old.cause (split payload.now).fields) }
    ensures left { OnOk result (told.new.left
        + steps_in feature_steps FEATURES (split payload.now).fields ≡ told.old.left) }
    ensures ended { IfErr result (λ e. IsEnded e told.old.left
        (steps_in feature_steps FEATURES (split payload.now).fields)) }
{
    let mut index = 0usize;
    for field in Fields::new(payload) {
        if let Ok(field) = field {
            mend_field(alloc, layer, index, &field, out, told)?;
            if field.number == layer::FEATURES {
                index += 1;
            }
        }
    }
    Ok(())
}

/// Appends a field of a layer, mended if it holds the feature of this index.
fn mend_field(
    alloc: Global,
    layer: usize,
    index: usize,
    field: &Field<'_>,
    out: &mut Vec<u8>,
    told: &mut Told,
) -> Result<(), Ended>
    requires first { 1 ≤ field.now.number }
    requires last { field.now.number < 2 ^ 29 }
    ensures bytes { OnOk result (out.new.items ≡ out.old.items
        ++ spelled (field_as mended_feature FEATURES (entry_of field.now))) }
    ensures changes { OnOk result (told.new.changes.items ≡ told.old.changes.items
        ++ (if field.now.number == FEATURES
        then told_at (feature_changes layer index) (content_of field.now.payload) else [])) }
    ensures cause { OnOk result (told.new.cause ≡ (if field.now.number == FEATURES
        then first_cause told.old.cause
        (cause_at (feature_cause layer index) (content_of field.now.payload))
        else told.old.cause)) }
    ensures left { OnOk result (told.new.left + (if field.now.number == FEATURES
        then steps_at feature_steps (content_of field.now.payload) else 0) ≡ told.old.left) }
    ensures ended { IfErr result (λ e. IsEnded e told.old.left (if field.now.number == FEATURES
        then steps_at feature_steps (content_of field.now.payload) else 0)) }
{
    if field.number != layer::FEATURES {
        return Ok(put_field(out, field.number, &field.payload)?);
    }
    match &field.payload {
        Payload::Len(payload) => mend_feature(alloc, layer, index, payload, out, told),
        Payload::Varint(_) => Ok(put_field(out, field.number, &field.payload)?),
        Payload::I64(_) => Ok(put_field(out, field.number, &field.payload)?),
        Payload::I32(_) => Ok(put_field(out, field.number, &field.payload)?),
    }
}

/// Appends the field of the feature that stands in place of another, if any does.
#[tactic(auto, unfolding(crate::specs::Features::mended_feature, crate::specs::Features::mended_integers, crate::specs::Features::feature_changes, crate::specs::Features::feature_cause, crate::specs::Features::feature_outcome, crate::specs::Features::feature_steps))]
fn mend_feature(
    alloc: Global,
    layer: usize,
    index: usize,
    payload: &[u8],
    out: &mut Vec<u8>,
    told: &mut Told,
) -> Result<(), Ended>
    ensures bytes { OnOk result (out.new.items ≡ out.old.items
        ++ spelled (payload_fields FEATURES (mended_feature payload.now))) }
    ensures changes { OnOk result (told.new.changes.items
        ≡ told.old.changes.items ++ feature_changes layer index payload.now) }
    ensures cause { OnOk result (told.new.cause
        ≡ first_cause told.old.cause (feature_cause layer index payload.now)) }
    ensures left { OnOk result (told.new.left + feature_steps payload.now ≡ told.old.left) }
    ensures ended { IfErr result (λ e. IsEnded e told.old.left (feature_steps payload.now)) }
{
    let Some(integers) = read_integers(alloc, payload)? else {
        return Ok(put_field(out, layer::FEATURES, &Payload::Len(payload))?);
    };
    let kind = kind_of(payload);
    let Some(mended) = mend_told(alloc, layer, index, kind, &integers, told)? else {
        return Ok(put_field(out, layer::FEATURES, &Payload::Len(payload))?);
    };
    if mended.len() == 0 {
        return Ok(());
    }
    let made = with_integers(alloc, payload, &mended)?;
    put_field(out, layer::FEATURES, &Payload::Len(&made))?;
    Ok(())
}
