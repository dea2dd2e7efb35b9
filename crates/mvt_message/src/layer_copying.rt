//! A layer that is canonical but for where its version, its name and its extent stand, and for last
//! keys and values that no feature uses (Mapbox Vector Tile Specification 2.1, 4.1).
ghost use Rattle.std.specs.Prelude.{◌≡◌, ◌≤◌, ◌<◌, ◌+◌, ◌^◌, List, [], length, map, drop, IfOk};
ghost use Rattle.mvt_wire.specs.Spelling.{spelled};
ghost use Rattle.mvt_message.specs.declared.item.Item.{Item};
ghost use Rattle.mvt_message.specs.Copying.{IsCopied, IsFrameOf, IsLayerIn, copied_payload, field_of};

use crate::canonical_features::judge_features;
use crate::feature_visitor::FeatureVisitor;
use crate::layer_frame::{Frame, frame_of, head_of};
use crate::numbers::layer;
use mvt_base::LIMIT;
use mvt_feature::Unsure;
use mvt_geometry::Ignore;
use mvt_wire::field_len;
use std::alloc::Global;
use std::convert::AsSlice;

/// The name and the extent of such a layer, and its canonical fields besides these and the version,
/// as they stand. The keys and the values that no feature uses are left out, which are the last of
/// each.
#[derive(Clone, Copy)]
pub(crate) struct CopiedLayer<'a> {
    pub(crate) name: &'a str,
    /// The fields of the features and the keys.
    pub(crate) front: &'a [u8],
    /// The fields of the values.
    pub(crate) values: &'a [u8],
    pub(crate) extent: u32,
}

/// A layer of version 2 whose features, keys and values are canonical and stand in the canonical
/// order, but that its last keys and values may be unused. Its version, its name and its extent may
/// stand in front of them or after.
///
/// # Errors
///
/// Where it isn't such a layer, or isn't known to be; that says nothing of the payload.
pub(crate) fn copied_layer(alloc: Global, payload: &[u8]) -> Result<CopiedLayer<'_>, Unsure>
    requires { length payload.now ≤ LIMIT }
    ensures { IfOk result (λ layer. IsCopied payload.now layer.name.now (copied_payload layer)) }
{
    let (head, start) = head_of(payload)?;
    let frame = frame_of(alloc, payload, start, &head)?;
    layer_in(alloc, &mut Ignore, payload, frame)
}

/// Judges the features of a layer that has this frame, and takes what is copied of it. A visitor is
/// told them; after an error it may have been told some.
pub(crate) fn layer_in<'a, V: FeatureVisitor>(
    alloc: Global,
    visitor: &mut V,
    body: &'a [u8],
    frame: Frame<'a>,
) -> Result<CopiedLayer<'a>, Unsure>
    requires small { length body.now ≤ LIMIT }
    requires frame { IsFrameOf body.now frame }
    ensures layer { (items : List Item) → V.has_features items visitor.old []
        → IfOk result (IsLayerIn (V.has_features items visitor.new) body.now frame.entry) }
    ensures within { IfOk result (λ layer.
        length layer.front.now + length layer.values.now ≤ length body.now) }
{
    let Frame {
        name,
        extent,
        features_at,
        front,
    } = frame;
    if !front.is_apart {
        return Err(Unsure::Undecided);
    }
    let used = judge_features(alloc, visitor, body, features_at, &front)?;
    let keys_end = end_of_used(layer::KEYS, &front.keys, used.0, front.values_at);
    let values_end = end_of_used(layer::VALUES, &front.values, used.1, front.end_at);
    Ok(CopiedLayer {
        name,
        front: &body[features_at..keys_end],
        values: &body[front.values_at..values_end],
        extent,
    })
}

/// Where the used ones of some payloads end, so many, whose fields of this number end at an offset.
fn end_of_used<T: AsSlice<u8>>(number: u32, payloads: &[T], used: usize, end: usize) -> usize
    requires number { number < 2 ^ 29 }
    requires used { used ≤ length payloads.now }
    requires room { length (spelled (map (field_of T.items number) payloads.now)) ≤ end }
    requires small { end ≤ LIMIT }
    ensures { result + length (spelled (map (field_of T.items number) (drop used payloads.now)))
        ≡ end }
{
    let unused = &payloads[used..];
    let mut at = end;
    for payload in unused {
        at -= field_len(number, payload.as_slice().len() as u64) as usize;
    }
    at
}
