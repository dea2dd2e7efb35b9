//! Reading features (Mapbox Vector Tile Specification 2.1, 4.1, message Feature).
ghost use Rattle.std.specs.Prelude.{◌≡◌, ◌≢◌, ◌⊎◌, ◌+◌, ◌^◌, ◌<◌, List, length, None, IfOk, IfErr, IsErrOf, OnOk};
ghost use Rattle.mvt_base.specs.Reports.{Reports};
ghost use Rattle.mvt_attrs.specs.Values.{Value};
ghost use Rattle.mvt_geometry.specs.Visiting.{HasDrawn};
ghost use Rattle.mvt_feature.specs.Faults.{fault_of};
ghost use Rattle.mvt_feature.specs.Drawn.{tags_of, IsDrawnOf};
ghost use Rattle.mvt_feature.specs.Features.{IsFeatureOf};
ghost use Rattle.mvt_feature.specs.FeatureRules.{feature_fault};
ghost use Rattle.mvt_feature.specs.Inner.{IsJudged};
ghost use Rattle.mvt_feature.specs.Listing.{ListsNumbers};

use crate::feature::Feature;
use crate::feature_fields::{FeatureFields, read_fields};
use crate::message_error::MessageError;
use crate::scratch::Scratch;
use mvt_attrs::{LayerKeys, Value, judge_tags, lend_texts, resolve_in};
use mvt_base::{Items, Text};
use mvt_geometry::{GeometryVisitor, draw_geometry, judge_geometry, read_geometry};
use std::alloc::Global;

/// The feature of a payload, in a layer with these keys and values.
///
/// `payload_at` is the absolute offset of the payload.
///
/// # Errors
///
/// The first broken rule: the payload splits into fields, each field in order has its form and its
/// numbers their range, then the rules of tags and those of geometry. The error names no feature.
pub fn read_feature(
    alloc: Global,
    payload: &[u8],
    payload_at: u64,
    keys: &[Text],
    values: &[Value],
) -> Result<Feature, MessageError>
    requires { payload_at + length payload.now < 2 ^ 64 }
    ensures feature { IfOk result (IsFeatureOf payload.now keys.now values.now) }
    ensures ok { OnOk result (feature_fault payload.now payload_at keys.now values.now ≡ None) }
    ensures err { IfErr result (λ error. Reports (fault_of error)
        (feature_fault payload.now payload_at keys.now values.now)) }
{
    let lent = lend_texts(alloc, keys)?;
    let mut keys = LayerKeys::new(alloc, &lent);
    let mut scratch = Scratch::new(alloc);
    read_feature_in(alloc, payload, payload_at, &mut keys, values, &mut scratch)
}

/// The feature of a payload, with a layer's keys and room that are used again for the next feature.
///
/// So a row of features groups the keys once, and needs no new lists for tags and integers.
///
/// # Errors
///
/// As `read_feature`.
pub fn read_feature_in(
    alloc: Global,
    payload: &[u8],
    payload_at: u64,
    keys: &mut LayerKeys<'_>,
    values: &[Value],
    scratch: &mut Scratch,
) -> Result<Feature, MessageError>
    requires { payload_at + length payload.now < 2 ^ 64 }
    ensures feature { IfOk result (IsFeatureOf payload.now keys.old values.now) }
    ensures ok { OnOk result (feature_fault payload.now payload_at keys.old values.now ≡ None) }
    ensures err { IfErr result (λ error. Reports (fault_of error)
        (feature_fault payload.now payload_at keys.old values.now)) }
    ensures same { keys.new ≡ keys.old }
{
    let known = read_fields(payload, payload_at, scratch)?;
    let attributes = resolve_in(alloc, keys, values, &scratch.tags)?;
    let geometry = read_geometry(alloc, known.kind, &scratch.integers)?;
    Ok(Feature {
        id: known.id,
        attributes: Items::new(attributes),
        geometry,
    })
}

/// Passes the geometry of a feature, in a layer with these keys and this number of values, to a
/// visitor, and answers what else its fields say.
///
/// The tags are left in the scratch, as they stand. Everything is judged first.
///
/// # Errors
///
/// As `read_feature`.
pub fn draw_feature<V: GeometryVisitor>(
    alloc: Global,
    visitor: &mut V,
    payload: &[u8],
    payload_at: u64,
    keys: &mut LayerKeys<'_>,
    values: usize,
    scratch: &mut Scratch,
) -> Result<FeatureFields, MessageError>
    requires { payload_at + length payload.now < 2 ^ 64 }
    ensures feature { IfOk result (λ known. (held : List Value) → length held ≡ values
        → IsDrawnOf payload.now keys.old held (tags_of scratch.new)
        (HasDrawn V.has_parts V.has_integers visitor.old visitor.new) known) }
    ensures ok { OnOk result ((held : List Value) → length held ≡ values
        → feature_fault payload.now payload_at keys.old held ≡ None) }
    ensures err { IfErr result (λ error. (held : List Value) → length held ≡ values
        → Reports (fault_of error) (feature_fault payload.now payload_at keys.old held)) }
    ensures memory { IsErrOf result MessageError.Memory → ListsNumbers payload.now payload_at
        ⊎ ((held : List Value) → length held ≡ values
        → feature_fault payload.now payload_at keys.old held ≡ None) }
    ensures untold { (held : List Value) → length held ≡ values
        → feature_fault payload.now payload_at keys.old held ≢ None → visitor.new ≡ visitor.old }
    ensures same { keys.new ≡ keys.old }
{
    let known = read_fields(payload, payload_at, scratch)?;
    let tags = &scratch.tags;
    judge_tags(alloc, keys, values, tags)?;
    draw_geometry(visitor, known.kind, &scratch.integers)?;
    Ok(known)
}

/// What the fields of a feature's payload say besides its tags and its integers, in a layer with
/// these keys and this number of values: tags and integers are judged, and left in the scratch.
///
/// # Errors
///
/// As `read_feature`; what the scratch holds then means nothing.
pub(crate) fn judge_into_scratch(
    alloc: Global,
    payload: &[u8],
    payload_at: u64,
    keys: &mut LayerKeys<'_>,
    values: usize,
    scratch: &mut Scratch,
) -> Result<FeatureFields, MessageError>
    requires { payload_at + length payload.now < 2 ^ 64 }
    ensures judged { IfOk result (λ known. (held : List Value) → length held ≡ values
        → IsJudged payload.now keys.old held known scratch.new) }
    ensures ok { OnOk result ((held : List Value) → length held ≡ values
        → feature_fault payload.now payload_at keys.old held ≡ None) }
    ensures err { IfErr result (λ error. (held : List Value) → length held ≡ values
        → Reports (fault_of error) (feature_fault payload.now payload_at keys.old held)) }
    ensures memory { IsErrOf result MessageError.Memory → ListsNumbers payload.now payload_at }
    ensures same { keys.new ≡ keys.old }
{
    let known = read_fields(payload, payload_at, scratch)?;
    judge_tags(alloc, keys, values, &scratch.tags)?;
    judge_geometry(known.kind, &scratch.integers)?;
    Ok(known)
}
