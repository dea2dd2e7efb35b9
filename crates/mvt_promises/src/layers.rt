//! Layers (Mapbox Vector Tile Specification 2.1, 4.1).
ghost use Rattle.std.specs.Prelude.{◌≡◌, ◌+◌, ◌^◌, ◌<◌, ◌≤◌, ℕ, List, length, IfOk, IfErr};
ghost use Rattle.mvt_base.specs.Reports.{Reports};
ghost use Rattle.mvt_attrs.specs.Values.{Value as AValue};
ghost use Rattle.mvt_feature.specs.Faults.{fault_of};
ghost use Rattle.mvt_message.specs.declared.item.Layer.{Layer};
ghost use Rattle.mvt_message.specs.ItemRules.{item_fault};
ghost use Rattle.mvt_message.specs.Rewriting.{HasWrittenUpTo, IsPayloadOf};

use mvt_message::{Item, LIMIT, LayerWriter, MessageError};
use std::alloc::{AllocError, Global};

/// The first broken rule is told with its own cause; those of values stand before those of features.
///
/// # Errors
///
/// The first rule that the payload breaks. When memory runs out.
pub fn read_item(
    alloc: Global,
    payload: &[u8],
    payload_at: u64,
    tag_at: u64,
) -> Result<Item, MessageError>
    requires small { length payload.now ≤ LIMIT }
    requires fits { payload_at + length payload.now < 2 ^ 64 }
    ensures { IfErr result (λ error. Reports (fault_of error)
        (item_fault payload.now payload_at tag_at)) }
{
    mvt_message::read_item(alloc, payload, payload_at, tag_at)
}

/// A canonical layer has its extent, also where it is the usual one.
///
/// # Errors
///
/// When memory runs out.
pub fn layer_payload(
    alloc: Global,
    writer: &LayerWriter<'_>,
    name: &str,
    extent: u32,
) -> Result<Option<Vec<u8>>, AllocError>
    ensures { (keys : List (List ℕ)) (held : List AValue) (layer : Layer)
        → HasWrittenUpTo LIMIT keys held writer.now layer.features → layer.name ≡ name.now
        → layer.extent ≡ extent → IfOk result (IsPayloadOf LIMIT layer) }
{
    writer.payload(alloc, name, extent)
}
