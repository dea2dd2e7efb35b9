//! Features whose tags and integers are packed in one field each, as most programs write them: they
//! are judged in their bytes, without lists.
ghost use Rattle.std.specs.Prelude.{◌≡◌, ◌+◌, ◌^◌, ◌<◌, ℕ, List, [], length, None, IfOk, IfErr, IfSome, IfNone, IsErrOf, OnErr, OnOk, OnSome};
ghost use Rattle.mvt_base.specs.Reports.{Reports};
ghost use Rattle.mvt_attrs.specs.Values.{Value};
ghost use Rattle.mvt_geometry.specs.declared.shape.Point.{Point as APoint};
ghost use Rattle.mvt_geometry.specs.Visiting.{HasDrawn, Part};
ghost use Rattle.mvt_feature.specs.Drawn.{tags_of, IsDrawnOf};
ghost use Rattle.mvt_feature.specs.Faults.{fault_of};
ghost use Rattle.mvt_feature.specs.FeatureRules.{feature_fault};
ghost use Rattle.mvt_feature.specs.Listing.{ListsNumbers};

use crate::feature_fields::FeatureFields;
use crate::message_error::MessageError;
use crate::parts::parts_in_any_order;
use crate::reading::judge_into_scratch;
use crate::scratch::Scratch;
use mvt_attrs::{LayerKeys, NoTags, PackedTags, TagVisitor, judge_packed};
use mvt_geometry::{GeometryVisitor, Ignore, draw_packed};
use std::alloc::{AllocError, Global};

/// Passes the geometry of a feature to a visitor, where each of its fields stands once, and tags
/// and integers are packed, and judges it on the way; the tags are left in the scratch.
///
/// `None` if its fields are others, if the type is unknown, or if a rule seems to be broken: then
/// the visitor may have received some parts, what the scratch holds means nothing, and
/// [`draw_feature`](crate::draw_feature) reads the feature or says what is wrong.
///
/// # Errors
///
/// When memory runs out.
pub fn draw_usual_feature<V: GeometryVisitor>(
    alloc: Global,
    visitor: &mut V,
    payload: &[u8],
    payload_at: u64,
    keys: &mut LayerKeys<'_>,
    values: usize,
    scratch: &mut Scratch,
) -> Result<Option<FeatureFields>, AllocError>
    requires { payload_at + length payload.now < 2 ^ 64 }
    ensures feature { IfOk result (λ found. IfSome found (λ known. (held : List Value)
        → length held ≡ values → IsDrawnOf payload.now keys.old held (tags_of scratch.new)
        (HasDrawn V.has_parts V.has_integers visitor.old visitor.new) known)) }
    ensures ok { IfOk result (λ found. OnSome found ((held : List Value) → length held ≡ values
        → feature_fault payload.now payload_at keys.old held ≡ None)) }
    ensures told { IfOk result (λ found. IfNone found ((parts : List Part)
        × (begun : List APoint) × V.has_parts visitor.old parts begun visitor.new)) }
    ensures memory { OnErr result (ListsNumbers payload.now payload_at) }
    ensures same { keys.new ≡ keys.old }
{
    scratch.tags.clear();
    draw_usual(
        alloc,
        visitor,
        &mut scratch.tags,
        payload,
        payload_at,
        keys,
        values,
    )
}

/// Whether a payload is a feature, in a layer with these keys and this number of values.
///
/// Nothing is built, and what the scratch holds afterwards means nothing. The tags and the integers
/// of most features are judged in place.
///
/// # Errors
///
/// As [`read_feature`](crate::read_feature).
pub fn judge_feature(
    alloc: Global,
    payload: &[u8],
    payload_at: u64,
    keys: &mut LayerKeys<'_>,
    values: usize,
    scratch: &mut Scratch,
) -> Result<(), MessageError>
    requires { payload_at + length payload.now < 2 ^ 64 }
    ensures ok { OnOk result ((held : List Value) → length held ≡ values
        → feature_fault payload.now payload_at keys.old held ≡ None) }
    ensures err { IfErr result (λ error. (held : List Value) → length held ≡ values
        → Reports (fault_of error) (feature_fault payload.now payload_at keys.old held)) }
    ensures memory { IsErrOf result MessageError.Memory → ListsNumbers payload.now payload_at }
    ensures same { keys.new ≡ keys.old }
{
    let found = draw_usual(
        alloc,
        &mut Ignore,
        &mut NoTags,
        payload,
        payload_at,
        keys,
        values,
    )?;
    if found.is_none() {
        judge_into_scratch(alloc, payload, payload_at, keys, values, scratch)?;
    }
    Ok(())
}

/// Passes the geometry of such a feature to one visitor, and its tags to another.
fn draw_usual<V: GeometryVisitor, T: TagVisitor>(
    alloc: Global,
    visitor: &mut V,
    tag_visitor: &mut T,
    payload: &[u8],
    payload_at: u64,
    keys: &mut LayerKeys<'_>,
    values: usize,
) -> Result<Option<FeatureFields>, AllocError>
    requires { payload_at + length payload.now < 2 ^ 64 }
    ensures feature { IfOk result (λ found. IfSome found (λ known. (tags : List ℕ)
        × T.has_tags tag_visitor.old tags tag_visitor.new
        × ((held : List Value) → length held ≡ values → IsDrawnOf payload.now keys.old held tags
        (HasDrawn V.has_parts V.has_integers visitor.old visitor.new) known))) }
    ensures ok { IfOk result (λ found. OnSome found ((held : List Value) → length held ≡ values
        → feature_fault payload.now payload_at keys.old held ≡ None)) }
    ensures told { IfOk result (λ found. IfNone found ((parts : List Part)
        × (begun : List APoint) × V.has_parts visitor.old parts begun visitor.new)) }
    ensures memory { OnErr result (ListsNumbers payload.now payload_at) }
    ensures same { keys.new ≡ keys.old }
{
    let Some(parts) = parts_in_any_order(payload) else {
        return Ok(None);
    };
    if !draw_packed(visitor, parts.kind, parts.integers)? {
        return Ok(None);
    }
    match judge_packed(alloc, tag_visitor, keys, values, parts.tags)? {
        PackedTags::Good { .. } => Ok(Some(FeatureFields {
            id: parts.id,
            kind: parts.kind,
        })),
        PackedTags::Stopped => Ok(None),
        PackedTags::Broken => Ok(None),
    }
}
