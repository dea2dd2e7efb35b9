//! A layer whose payload is canonical as it stands (Mapbox Vector Tile Specification 2.1, 4.1).
ghost use Rattle.std.specs.Prelude.{◌≡◌, ◌≤◌, ◌<◌, ◌^◌, [], ◌∷◌, ◌++◌, List, length, drop, IfOk, IfSome, IsTrue, IsUtf8};
ghost use Rattle.mvt_wire.specs.Spelling.{spelled};
ghost use Rattle.mvt_message.specs.declared.item.Item.{Item};
ghost use Rattle.mvt_message.specs.CanonicalItems.{extent_fields, head_fields};
ghost use Rattle.mvt_message.specs.Copying.{IsCanonicalLayer, IsFrameOf, IsInPlace};

use crate::around::{may_end_with_extent, name_at};
use crate::feature_visitor::FeatureVisitor;
use crate::layer_copying::layer_in;
use crate::layer_frame::{Frame, bounds_of, end_of, front_of};
use crate::looking::may_begin_in_order;
use crate::numbers::layer;
use mvt_base::LIMIT;
use mvt_feature::Unsure;
use mvt_wire::short_number_at;
use std::alloc::Global;

/// Judges whether a payload is the canonical one of a layer of version 2, passes its features to a
/// visitor, and answers its name. Nothing is written.
///
/// # Errors
///
/// If it isn't, or isn't known to be. The visitor may then have received some of its features.
pub fn visit_canonical<'a, V: FeatureVisitor>(
    alloc: Global,
    visitor: &mut V,
    payload: &'a [u8],
) -> Result<&'a str, Unsure>
    requires { length payload.now ≤ LIMIT }
    ensures { (items : List Item) → V.has_features items visitor.old [] → IfOk result
        (λ name. IsCanonicalLayer (V.has_features items visitor.new) payload.now name.now) }
{
    let frame = frame_in_place(alloc, payload)?;
    let (features_at, end) = bounds_of(&frame);
    let layer = layer_in(alloc, visitor, payload, frame)?;
    if features_at + layer.front.len() + layer.values.len() != end {
        return Err(Unsure::Undecided);
    }
    Ok(layer.name)
}

/// The frame of a layer whose version, name and extent stand in the canonical order.
fn frame_in_place(alloc: Global, payload: &[u8]) -> Result<Frame<'_>, Unsure>
    ensures frame { IfOk result (IsFrameOf payload.now) }
    ensures place { IfOk result (IsInPlace payload.now) }
{
    let Some((name, features_at)) = head_in_place(payload) else {
        return Err(Unsure::Undecided);
    };
    if !may_end_with_extent(payload) || !may_begin_in_order(payload, features_at) {
        return Err(Unsure::Undecided);
    }
    let front = front_of(alloc, payload, features_at)?;
    let Some(extent) = extent_at_end(payload, end_of(&front)) else {
        return Err(Unsure::Undecided);
    };
    Ok(Frame {
        name,
        extent,
        features_at,
        front,
    })
}

/// The name after a version of 2, and the offset after it.
fn head_in_place(payload: &[u8]) -> Option<(&str, usize)>
    ensures fields { IfSome result (λ f. payload.now
        ≡ spelled (head_fields f.0.now) ++ drop f.1 payload.now) }
    ensures text { IfSome result (λ f. IsUtf8 f.0.now) }
    ensures short { IfSome result (λ f. length f.0.now < 2 ^ 63) }
    ensures within { IfSome result (λ f. f.1 ≤ length payload.now) }
{
    if !begins_with_version(payload) {
        return None;
    }
    let Some((name, after)) = name_at(payload, 2) else {
        return None;
    };
    Some((name, after))
}

/// Whether a payload begins with a version of 2.
fn begins_with_version(payload: &[u8]) -> bool
    ensures { IsTrue result → payload.now ≡ 120 ∷ (2 ∷ drop 2 payload.now) }
{
    match payload {
        [0x78, 2, ..] => true,
        _ => false,
    }
}

/// The extent that stands at an offset, and nothing after it.
fn extent_at_end(payload: &[u8], at: usize) -> Option<u32>
    requires { at ≤ length payload.now }
    ensures field { IfSome result (λ extent. drop at payload.now
        ≡ spelled (extent_fields extent)) }
    ensures small { IfSome result (λ extent. extent < 2 ^ 32) }
{
    match short_number_at(payload, at, layer::EXTENT) {
        Some((extent, end)) if end == payload.len() && extent < 1 << 32 => Some(extent as u32),
        Some(_) => None,
        None => None,
    }
}
