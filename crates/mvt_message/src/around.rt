//! The version, the name and the extent of a layer, which stand around its features, keys and
//! values in any order (Mapbox Vector Tile Specification 2.1, 4.1).
ghost use Rattle.std.specs.Prelude.{◌≡◌, ◌==◌, ◌≤◌, ◌<◌, ◌-◌, ◌^◌, ◌∷◌, ◌++◌, [], length, drop, IfSome, IsTrue, IsUtf8, false};
ghost use Rattle.std.specs.List.{list_any};
ghost use Rattle.mvt_wire.specs.Field.{bytes};
ghost use Rattle.mvt_wire.specs.Spelling.{short_field};
ghost use Rattle.mvt_message.specs.declared.numbers.layer.TheConstants.{NAME};
ghost use Rattle.mvt_message.specs.Around.{AreAroundFrom, IsOneMore, IsValidAround, around_fields};
ghost use Rattle.mvt_message.specs.CanonicalItems.{extent_fields, head_fields};

use crate::numbers::layer;
use mvt_wire::{short_bytes_at, short_number_at};
use std::str;

/// The tags of a name, of an extent and of a version.
const NAME_TAG: u8 = 0x0A;

pub(crate) const EXTENT_TAG: u8 = 0x28;

pub(crate) const VERSION_TAG: u8 = 0x78;

/// The field of version 2.
const VERSION_FIELD: [u8; 2] = [VERSION_TAG, 2];

/// The most bytes of an extent, whose number has up to five, and of a version 2 after it.
const MOST_BEHIND: usize = 8;

/// What was met of the three so far.
#[derive(Clone, Copy)]
pub(crate) struct Around<'a> {
    /// Whether version 2 was met.
    pub(crate) has_version: bool,
    pub(crate) name: Option<&'a str>,
    pub(crate) extent: Option<u32>,
}

/// The fields from an offset on that are among these and weren't met before, and the offset after
/// them.
pub(crate) fn around_from<'a>(
    body: &'a [u8],
    start: usize,
    before: &Around<'a>,
) -> (Around<'a>, usize)
    requires { start ≤ length body.now }
    ensures fields { AreAroundFrom body.now start before.now result.0 result.1 }
    ensures within { result.1 ≤ length body.now }
{
    let mut around = *before;
    let mut at = start;
    while let Some((more, after)) = one_more(body, at, &around) {
        around = more;
        at = after;
    }
    (around, at)
}

/// The field at an offset, by the byte that begins it, and the offset after it.
fn one_more<'a>(body: &'a [u8], at: usize, before: &Around<'a>) -> Option<(Around<'a>, usize)>
    requires { at ≤ length body.now }
    ensures field { IfSome result (λ f. IsOneMore body.now at before.now f.0 f.1) }
    ensures within { IfSome result (λ f. (at < f.1) × (f.1 ≤ length body.now)) }
{
    match body.get(at) {
        Some(&NAME_TAG) => with_name(body, at, before),
        Some(&EXTENT_TAG) => with_extent(body, at, before),
        Some(&VERSION_TAG) => with_version(body, at, before),
        _ => None,
    }
}

fn with_name<'a>(body: &'a [u8], at: usize, before: &Around<'a>) -> Option<(Around<'a>, usize)>
    requires { at ≤ length body.now }
    ensures field { IfSome result (λ f. IsOneMore body.now at before.now f.0 f.1) }
    ensures within { IfSome result (λ f. (at < f.1) × (f.1 ≤ length body.now)) }
{
    let None = before.name else {
        return None;
    };
    let Some((name, after)) = name_at(body, at) else {
        return None;
    };
    let around = Around {
        has_version: before.has_version,
        name: Some(name),
        extent: before.extent,
    };
    Some((around, after))
}

/// The name that stands at an offset, and the offset after it.
pub(crate) fn name_at(body: &[u8], at: usize) -> Option<(&str, usize)>
    requires { at ≤ length body.now }
    ensures field { IfSome result (λ f. drop at body.now
        ≡ short_field NAME (bytes f.0.now) ++ drop f.1 body.now) }
    ensures text { IfSome result (λ f. IsUtf8 f.0.now) }
    ensures short { IfSome result (λ f. length f.0.now < 2 ^ 63) }
    ensures within { IfSome result (λ f. (at < f.1) × (f.1 ≤ length body.now)) }
{
    let (bytes, after) = short_bytes_at(body, at, layer::NAME)?;
    match str::from_utf8(bytes) {
        Ok(name) => Some((name, after)),
        Err(_) => None,
    }
}

fn with_extent<'a>(body: &'a [u8], at: usize, before: &Around<'a>) -> Option<(Around<'a>, usize)>
    requires { at ≤ length body.now }
    ensures field { IfSome result (λ f. IsOneMore body.now at before.now f.0 f.1) }
    ensures within { IfSome result (λ f. (at < f.1) × (f.1 ≤ length body.now)) }
{
    let None = before.extent else {
        return None;
    };
    match short_number_at(body, at, layer::EXTENT) {
        Some((extent, after)) if extent < 1 << 32 => {
            let around = Around {
                has_version: before.has_version,
                name: before.name,
                extent: Some(extent as u32),
            };
            Some((around, after))
        }
        Some(_) => None,
        None => None,
    }
}

fn with_version<'a>(body: &'a [u8], at: usize, before: &Around<'a>) -> Option<(Around<'a>, usize)>
    requires { at ≤ length body.now }
    ensures field { IfSome result (λ f. IsOneMore body.now at before.now f.0 f.1) }
    ensures within { IfSome result (λ f. (at < f.1) × (f.1 ≤ length body.now)) }
{
    if before.has_version {
        return None;
    }
    match short_number_at(body, at, layer::VERSION) {
        Some((version, after)) if version == 2 => {
            let around = Around {
                has_version: true,
                name: before.name,
                extent: before.extent,
            };
            Some((around, after))
        }
        Some(_) => None,
        None => None,
    }
}

/// Whether what wasn't met in front may stand after, by the last bytes. Layers of another version,
/// or whose version stands among other fields, and those without an extent are told by this before
/// the keys and the values are read.
pub(crate) fn may_be_whole(body: &[u8], head: &Around<'_>) -> bool
    ensures version { IsTrue result → head.now.has_version ≡ false
        → drop (length body.now - 2) body.now ≡ 120 ∷ (2 ∷ []) }
{
    head.name.is_some()
        && (head.has_version || body.ends_with(&VERSION_FIELD))
        && (head.extent.is_some() || may_end_with_extent(body))
}

/// Whether the extent's tag stands among the last bytes, as it does where the extent is the last
/// field, or the last but the version.
pub(crate) fn may_end_with_extent(body: &[u8]) -> bool
    ensures { result ≡ list_any (λ b. b == 40) (drop (length body.now - 8) body.now) }
{
    body[body.len().saturating_sub(MOST_BEHIND)..].contains(&EXTENT_TAG)
}

/// The name and the extent where all of them were met.
pub(crate) fn whole_of<'a>(around: &Around<'a>) -> Option<(&'a str, u32)>
    ensures fields { IfSome result (λ found. around_fields around.now
        ≡ head_fields found.0.now ++ extent_fields found.1) }
    ensures valid { IsValidAround around.now
        → IfSome result (λ found. IsUtf8 found.0.now × (found.1 < 2 ^ 32)) }
{
    if !around.has_version {
        return None;
    }
    match (around.name, around.extent) {
        (Some(name), Some(extent)) => Some((name, extent)),
        _ => None,
    }
}
