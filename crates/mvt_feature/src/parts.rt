//! The parts of a feature whose fields stand in any order, each once, and each but for its packed
//! numbers as it is to be written (Mapbox Vector Tile Specification 2.1, 4.1).
ghost use Rattle.std.specs.Prelude.{◌≢◌, ◌≤◌, ◌<◌, ◌^◌, length, IfSome};
ghost use Rattle.mvt_geometry.specs.declared.shape.Kind.TheVariants as kinds;
ghost use Rattle.mvt_feature.specs.Ordering.{AreMet, IsInAnyOrder};

use crate::canonical_feature::{Parts, kind_from};
use crate::feature_fields::{GEOMETRY_TAG, ID_TAG, TAGS_TAG, TYPE_TAG};
use crate::numbers::feature;
use mvt_geometry::Kind;
use mvt_wire::{short_bytes_at, short_number_at};

/// The parts of a payload whose fields are these, in any order. `Some` means that each stands once;
/// `None` costs speed alone.
pub(crate) fn parts_in_any_order(payload: &[u8]) -> Option<Parts<'_>>
    ensures parts { IfSome result (IsInAnyOrder payload.now) }
    ensures id { IfSome result (λ parts. IfSome parts.id (λ n. n < 2 ^ 64)) }
    ensures kind { IfSome result (λ parts. parts.kind ≢ kinds.Unknown) }
{
    let mut parts = Parts {
        id: None,
        tags: &[],
        kind: Kind::Unknown,
        integers: &[],
    };
    let mut at = 0;
    while at < payload.len() {
        let (more, after) = with_next(payload, at, &parts)?;
        parts = more;
        at = after;
    }
    if parts.kind == Kind::Unknown || parts.integers.is_empty() {
        return None;
    }
    Some(parts)
}

/// The parts with the one that stands at an offset, by the byte that begins it, and the offset
/// after it.
#[inline(always)]
fn with_next<'a>(payload: &'a [u8], at: usize, before: &Parts<'a>) -> Option<(Parts<'a>, usize)>
    requires { at ≤ length payload.now }
    ensures met { AreMet payload.now at before.now
        → IfSome result (λ f. AreMet payload.now f.1 f.0) }
    ensures within { IfSome result (λ f. (at < f.1) × (f.1 ≤ length payload.now)) }
{
    match payload.get(at) {
        Some(&ID_TAG) => with_id(payload, at, before),
        Some(&TAGS_TAG) => with_tags(payload, at, before),
        Some(&TYPE_TAG) => with_kind(payload, at, before),
        Some(&GEOMETRY_TAG) => with_integers(payload, at, before),
        _ => None,
    }
}

#[inline(always)]
fn with_id<'a>(payload: &'a [u8], at: usize, before: &Parts<'a>) -> Option<(Parts<'a>, usize)>
    requires { at ≤ length payload.now }
    ensures met { AreMet payload.now at before.now
        → IfSome result (λ f. AreMet payload.now f.1 f.0) }
    ensures within { IfSome result (λ f. (at < f.1) × (f.1 ≤ length payload.now)) }
{
    let None = before.id else {
        return None;
    };
    let Some((id, after)) = short_number_at(payload, at, feature::ID) else {
        return None;
    };
    let parts = Parts {
        id: Some(id),
        tags: before.tags,
        kind: before.kind,
        integers: before.integers,
    };
    Some((parts, after))
}

#[inline(always)]
fn with_tags<'a>(payload: &'a [u8], at: usize, before: &Parts<'a>) -> Option<(Parts<'a>, usize)>
    requires { at ≤ length payload.now }
    ensures met { AreMet payload.now at before.now
        → IfSome result (λ f. AreMet payload.now f.1 f.0) }
    ensures within { IfSome result (λ f. (at < f.1) × (f.1 ≤ length payload.now)) }
{
    let (tags, after) = short_bytes_at(payload, at, feature::TAGS)?;
    if !before.tags.is_empty() {
        return None;
    }
    if tags.is_empty() {
        return None;
    }
    let parts = Parts {
        id: before.id,
        tags,
        kind: before.kind,
        integers: before.integers,
    };
    Some((parts, after))
}

#[inline(always)]
fn with_kind<'a>(payload: &'a [u8], at: usize, before: &Parts<'a>) -> Option<(Parts<'a>, usize)>
    requires { at ≤ length payload.now }
    ensures met { AreMet payload.now at before.now
        → IfSome result (λ f. AreMet payload.now f.1 f.0) }
    ensures within { IfSome result (λ f. (at < f.1) × (f.1 ≤ length payload.now)) }
{
    let Kind::Unknown = before.kind else {
        return None;
    };
    let (kind, after) = kind_from(payload, at)?;
    let parts = Parts {
        id: before.id,
        tags: before.tags,
        kind,
        integers: before.integers,
    };
    Some((parts, after))
}

#[inline(always)]
fn with_integers<'a>(payload: &'a [u8], at: usize, before: &Parts<'a>) -> Option<(Parts<'a>, usize)>
    requires { at ≤ length payload.now }
    ensures met { AreMet payload.now at before.now
        → IfSome result (λ f. AreMet payload.now f.1 f.0) }
    ensures within { IfSome result (λ f. (at < f.1) × (f.1 ≤ length payload.now)) }
{
    let (integers, after) = short_bytes_at(payload, at, feature::GEOMETRY)?;
    if !before.integers.is_empty() {
        return None;
    }
    if integers.is_empty() {
        return None;
    }
    let parts = Parts {
        id: before.id,
        tags: before.tags,
        kind: before.kind,
        integers,
    };
    Some((parts, after))
}
