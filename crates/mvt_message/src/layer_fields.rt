//! What the fields of a layer say besides its features (Mapbox Vector Tile Specification 2.1, 4.1),
//! found in one walk.
ghost use Rattle.std.specs.Prelude.{◌≡◌, ◌+◌, ◌^◌, ◌<◌, List, [], ◌∷◌, ◌++◌, length, IfOk, IfErr, OnOk};
ghost use Rattle.mvt_base.specs.Reports.{Reports};
ghost use Rattle.mvt_attrs.specs.Values.{Value};
ghost use Rattle.mvt_wire.specs.Field.{Entry, entry_of, content_of};
ghost use Rattle.mvt_wire.specs.Fields.{bytes_size};
ghost use Rattle.mvt_wire.specs.Split.{split};
ghost use Rattle.mvt_feature.specs.Faults.{fault_of};
ghost use Rattle.mvt_message.specs.Inner.{versions_fault, values_fault, layer_fault, IsLayerFields, IsBroken};

use crate::layer_header::LayerHeader;
use crate::values::take_value;
use crate::visiting::LayerVisitor;
use mvt_feature::{Cause, MessageError, fault_at, rest_fault};
use mvt_wire::{Field, Fields};
use std::alloc::Global;

/// The head of a layer and how many values it has.
#[derive(Drop)]
pub(crate) struct LayerFields<'a> {
    pub(crate) header: LayerHeader<'a>,
    pub(crate) values: usize,
}

/// The first fault of a walk over a layer's fields. One of an earlier rank may stand after it, and
/// in a layer of another version it is none.
#[derive(Drop)]
pub(crate) enum LayerFault {
    /// A field hasn't its form, or the payload doesn't split into fields.
    Field(MessageError),
    Value(MessageError),
}

/// What the fields of a payload say, as those of a layer of version 2. A visitor takes the values.
pub(crate) fn read_layer_fields<'a, V: LayerVisitor<'a>>(
    alloc: Global,
    visitor: &mut V,
    payload: &'a [u8],
    payload_at: u64,
) -> Result<LayerFields<'a>, LayerFault>
    requires small { length payload.now < 2 ^ 32 }
    requires fits { payload_at + length payload.now < 2 ^ 64 }
    requires start { (given : V.Given) × V.has_values given visitor.old [] }
    ensures whole { OnOk result ((split payload.now).rest ≡ []) }
    ensures front { (given : V.Given) → V.has_values given visitor.old []
        → IfOk result (IsLayerFields (V.has_values given visitor.new) payload_at
        (split payload.now).fields) }
    ensures broken { (split payload.now).rest ≡ []
        → IfErr result (IsBroken payload_at (split payload.now).fields) }
    ensures kept { (given : V.Given) → V.has_values given visitor.old []
        → V.has_given given visitor.old → V.has_given given visitor.new }
{
    let mut front = LayerFields {
        header: LayerHeader::new(alloc),
        values: 0,
    };
    for field in Fields::new(payload) {
        match field {
            Ok(field) => front.take(alloc, visitor, &field, payload_at)?,
            Err(fault) => return Err(LayerFault::Field(rest_fault(payload_at, fault))),
        }
    }
    Ok(front)
}

impl<'a> LayerFields<'a> {
    /// Takes one more field; a visitor takes its value, if it is one.
    #[inline(always)]
    fn take<V: LayerVisitor<'a>>(
        &mut self,
        alloc: Global,
        visitor: &mut V,
        field: &Field<'a>,
        payload_at: u64,
    ) -> Result<(), LayerFault>
        requires features { self.old.header.features < 2 ^ 32 }
        requires values { self.old.values < 2 ^ 32 }
        requires at { payload_at + field.now.at < 2 ^ 64 }
        requires body { payload_at + (field.now.body + bytes_size
            (content_of field.now.payload)) < 2 ^ 64 }
        ensures ok { (given : V.Given) (done : List Entry)
            → IsLayerFields (V.has_values given visitor.old) payload_at done self.old
            → OnOk result (IsLayerFields (V.has_values given visitor.new) payload_at
            (done ++ entry_of field.now ∷ []) self.new) }
        ensures broken { (given : V.Given) (done more : List Entry)
            → IsLayerFields (V.has_values given visitor.old) payload_at done self.old
            → IfErr result (IsBroken payload_at ((done ++ entry_of field.now ∷ []) ++ more)) }
        ensures kept { (given : V.Given) (held : List Value)
            → V.has_values given visitor.old held
            → V.has_given given visitor.old → V.has_given given visitor.new }
    {
        let at = payload_at + field.at as u64;
        match self.header.take(field, at) {
            Ok(()) => {}
            Err(error) => return Err(LayerFault::Field(error)),
        }
        match take_value(alloc, visitor, field, payload_at, self.values) {
            Ok(values) => self.values = values,
            Err(error) => return Err(LayerFault::Value(error)),
        }
        Ok(())
    }
}

/// The error of a layer of version 2, one of whose values has this one: that a field hasn't its
/// form or that there is no name is told first.
#[inline(never)]
pub(crate) fn header_fault_before(
    alloc: Global,
    payload: &[u8],
    payload_at: u64,
    tag_at: u64,
    error: MessageError,
) -> MessageError
    requires small { length payload.now < 2 ^ 32 }
    requires fits { payload_at + length payload.now < 2 ^ 64 }
    requires whole { (split payload.now).rest ≡ [] }
    requires versions { versions_fault payload_at (split payload.now).fields ≡ None }
    ensures { Reports (fault_of error) (values_fault payload_at (split payload.now).fields)
        → Reports (fault_of result) (layer_fault payload_at tag_at (split payload.now).fields) }
{
    let mut header = LayerHeader::new(alloc);
    for field in Fields::new(payload) {
        match field {
            Ok(field) => match header.take(&field, payload_at + field.at as u64) {
                Ok(()) => {}
                Err(error) => return error,
            },
            Err(_) => unreachable!(),
        }
    }
    match header.name {
        Some(_) => error,
        None => fault_at(tag_at, Cause::NoName),
    }
}
