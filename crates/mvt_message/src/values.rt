//! The values of a layer (Mapbox Vector Tile Specification 2.1, 4.1).
ghost use Rattle.std.specs.Prelude.{◌≡◌, ◌+◌, ◌^◌, ◌<◌, List, [], ◌∷◌, ◌++◌, IfOk, IfErr};
ghost use Rattle.mvt_base.specs.Reports.{Reports};
ghost use Rattle.mvt_attrs.specs.Values.{Value};
ghost use Rattle.mvt_wire.specs.Field.{Entry, entry_of, content_of};
ghost use Rattle.mvt_wire.specs.Fields.{bytes_size};
ghost use Rattle.mvt_feature.specs.Faults.{fault_of};
ghost use Rattle.mvt_message.specs.Inner.{values_fault, AreValuesHeld};

use crate::numbers::layer;
use crate::payload::bytes_of;
use crate::visiting::LayerVisitor;
use mvt_feature::MessageError;
use mvt_wire::Field;
use std::alloc::Global;

/// Has a visitor take the value of a field that holds one, after so many, and answers how many it
/// has.
#[inline(always)]
pub(crate) fn take_value<'a, V: LayerVisitor<'a>>(
    alloc: Global,
    visitor: &mut V,
    field: &Field<'a>,
    payload_at: u64,
    count: usize,
) -> Result<usize, MessageError>
    requires few { count < 2 ^ 32 }
    requires at { payload_at + field.now.at < 2 ^ 64 }
    requires body { payload_at + (field.now.body + bytes_size
        (content_of field.now.payload)) < 2 ^ 64 }
    ensures ok { (given : V.Given) (done : List Entry)
        → AreValuesHeld (V.has_values given visitor.old) payload_at done count
        → IfOk result (AreValuesHeld (V.has_values given visitor.new) payload_at
        (done ++ entry_of field.now ∷ [])) }
    ensures err { (given : V.Given) (done more : List Entry)
        → AreValuesHeld (V.has_values given visitor.old) payload_at done count
        → IfErr result (λ error. Reports (fault_of error)
        (values_fault payload_at ((done ++ entry_of field.now ∷ []) ++ more))) }
    ensures kept { (given : V.Given) (held : List Value) → V.has_values given visitor.old held
        → V.has_given given visitor.old → V.has_given given visitor.new }
{
    if field.number != layer::VALUES {
        return Ok(count);
    }
    let payload = bytes_of(&field.payload);
    let body = payload_at + field.body as u64;
    visitor.visit_value(alloc, payload, body, payload_at + field.at as u64)?;
    Ok(count + 1)
}
