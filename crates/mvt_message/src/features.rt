//! The features of a layer (Mapbox Vector Tile Specification 2.1, 4.1).
ghost use Rattle.std.specs.Prelude.{◌≡◌, ◌+◌, ◌^◌, ◌<◌, List, [], ◌∷◌, ◌++◌, length, Option, None, IfOk, IfErr, OnOk};
ghost use Rattle.std.specs.Option.{option_map};
ghost use Rattle.mvt_base.specs.Reports.{Reports};
ghost use Rattle.mvt_base.specs.Related.{AreRelated};
ghost use Rattle.mvt_attrs.specs.Values.{Value};
ghost use Rattle.mvt_attrs.specs.FirstUses.{lent};
ghost use Rattle.mvt_wire.specs.Field.{Entry, entry_of, content_of};
ghost use Rattle.mvt_wire.specs.Fields.{bytes_size};
ghost use Rattle.mvt_wire.specs.Split.{split};
ghost use Rattle.mvt_feature.specs.declared.feature.Feature.{Feature as AFeature};
ghost use Rattle.mvt_feature.specs.Faults.{MessageFault, fault_of, in_feature as the_in_feature};
ghost use Rattle.mvt_feature.specs.Selection.{only};
ghost use Rattle.mvt_message.specs.declared.numbers.layer.TheConstants.{FEATURES};
ghost use Rattle.mvt_message.specs.Items.{HoldsFeature};
ghost use Rattle.mvt_message.specs.LayerFields.{payloads_in};
ghost use Rattle.mvt_message.specs.Inner.{features_fault, AreFeaturesHeld};

use crate::numbers::layer;
use crate::payload::bytes_of;
use crate::visiting::LayerVisitor;
use mvt_attrs::LayerKeys;
use mvt_feature::{MessageError, Scratch};
use mvt_wire::{Field, Fields};
use std::alloc::Global;

/// Has a visitor take the features of a layer with these keys, this number of values, and so many
/// features. What stands after the last feature isn't looked at again.
pub(crate) fn visit_features<'a, V: LayerVisitor<'a>>(
    alloc: Global,
    visitor: &mut V,
    payload: &'a [u8],
    payload_at: u64,
    keys: &[&'a str],
    values: usize,
    features: usize,
) -> Result<(), MessageError>
    requires small { length payload.now < 2 ^ 32 }
    requires fits { payload_at + length payload.now < 2 ^ 64 }
    requires whole { (split payload.now).rest ≡ [] }
    requires features { features ≡ length (only FEATURES (split payload.now).fields) }
    requires held { (given : V.Given) × (held : List Value) × (length held ≡ values)
        × V.has_features given (lent keys.now) held visitor.old [] [] }
    ensures ok { (given : V.Given) (held : List Value) → length held ≡ values
        → V.has_features given (lent keys.now) held visitor.old [] []
        → OnOk result (features_fault payload_at (lent keys.now) held (split payload.now).fields
        ≡ None) }
    ensures features { (given : V.Given) (held : List Value) → length held ≡ values
        → V.has_features given (lent keys.now) held visitor.old [] []
        → OnOk result ((features : List AFeature)
        × AreRelated (HoldsFeature (lent keys.now) held)
        (only FEATURES (split payload.now).fields) features
        × V.has_features given (lent keys.now) held visitor.new
        (payloads_in (split payload.now).fields) features) }
    ensures err { (given : V.Given) (held : List Value) → length held ≡ values
        → V.has_features given (lent keys.now) held visitor.old [] []
        → IfErr result (λ error. Reports (fault_of error)
        (features_fault payload_at (lent keys.now) held (split payload.now).fields)) }
{
    let mut keys = LayerKeys::new(alloc, keys);
    let mut scratch = Scratch::new(alloc);
    let mut count = 0usize;
    for field in Fields::new(payload) {
        if count == features {
            return Ok(());
        }
        match field {
            Ok(field) => {
                count = visit_field(
                    alloc,
                    visitor,
                    &field,
                    payload_at,
                    &mut keys,
                    values,
                    &mut scratch,
                    count,
                )?;
            }
            Err(_) => unreachable!(),
        }
    }
    Ok(())
}

/// Has a visitor take the feature of a field that holds one, after so many, and answers how many
/// it has.
fn visit_field<'a, V: LayerVisitor<'a>>(
    alloc: Global,
    visitor: &mut V,
    field: &Field<'a>,
    payload_at: u64,
    keys: &mut LayerKeys<'_>,
    values: usize,
    scratch: &mut Scratch,
    count: usize,
) -> Result<usize, MessageError>
    requires few { count < 2 ^ 32 }
    requires body { payload_at + (field.now.body + bytes_size
        (content_of field.now.payload)) < 2 ^ 64 }
    ensures ok { (given : V.Given) (held : List Value) (done : List Entry) → length held ≡ values
        → AreFeaturesHeld (V.has_features given keys.old held visitor.old) payload_at keys.old held
        done count
        → IfOk result (AreFeaturesHeld
        (V.has_features given keys.old held visitor.new) payload_at keys.old held
        (done ++ entry_of field.now ∷ [])) }
    ensures err { (given : V.Given) (held : List Value) (done more : List Entry)
        → length held ≡ values
        → AreFeaturesHeld (V.has_features given keys.old held visitor.old) payload_at keys.old held
        done count
        → IfErr result (λ error. Reports (fault_of error)
        (features_fault payload_at keys.old held ((done ++ entry_of field.now ∷ []) ++ more))) }
    ensures same { keys.new ≡ keys.old }
{
    if field.number != layer::FEATURES {
        return Ok(count);
    }
    let payload = bytes_of(&field.payload);
    let body = payload_at + field.body as u64;
    match visitor.visit_feature(alloc, payload, body, keys, values, scratch) {
        Ok(()) => Ok(count + 1),
        Err(error) => Err(in_feature(error, count as u32)),
    }
}

/// An error in the feature of this index.
fn in_feature(error: MessageError, index: u32) -> MessageError
    ensures { (fault : Option MessageFault) → Reports (fault_of error) fault
        → Reports (fault_of result) (option_map (the_in_feature index) fault) }
{
    match error {
        MessageError::Memory => MessageError::Memory,
        MessageError::Fault { at, cause, .. } => MessageError::Fault {
            feature: Some(index),
            at,
            cause,
        },
    }
}
