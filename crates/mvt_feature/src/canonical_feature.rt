//! Values and features whose payload is canonical as it stands (Mapbox Vector Tile Specification
//! 2.1, 4.1).
ghost use Rattle.std.specs.Prelude.{◌≡◌, ◌≢◌, ◌^◌, ◌<◌, ◌≤◌, ◌+◌, ◌*◌, ◌++◌, ℕ, List, length, drop, IfOk, IfErr, IfSome, IsTrue, IsUtf8, OnOk};
ghost use Rattle.std.specs.List.{AllByRecursion};
ghost use Rattle.mvt_attrs.specs.Values.{Value as AValue};
ghost use Rattle.mvt_geometry.specs.declared.shape.Kind.TheVariants as kinds;
ghost use Rattle.mvt_geometry.specs.declared.shape.Point.{Point as APoint};
ghost use Rattle.mvt_geometry.specs.Visiting.{HasDrawn, Part};
ghost use Rattle.mvt_wire.specs.Field.{content_of, varint, fixed32, fixed64};
ghost use Rattle.mvt_wire.specs.Packed.{ArePacked};
ghost use Rattle.mvt_wire.specs.Spelling.{short_numbers, spelled};
ghost use Rattle.mvt_feature.specs.declared.canonical_feature.Unsure.TheVariants as causes;
ghost use Rattle.mvt_feature.specs.Canonical.{plain, field_of_value, id_fields, type_fields};
ghost use Rattle.mvt_feature.specs.Ordering.{IsOfPartsAfter};
ghost use Rattle.mvt_feature.specs.Copying.{IsCanonicalValue, IsCanonicalAfter, packed_tags, parts_fields};
ghost use Rattle.mvt_feature.specs.Valid.{ValidValue};

use crate::feature_fields::FeatureFields;
use crate::numbers::{feature, value};
use crate::value::{BOOL_TAG, DOUBLE_TAG, FLOAT_TAG, INT_TAG, SINT_TAG, STRING_TAG, UINT_TAG};
use mvt_attrs::{LayerKeys, PackedTags, UseOrder, judge_packed};
use mvt_geometry::{GeometryVisitor, Kind, draw_packed};
use mvt_wire::{Payload, are_short, short_bytes_at, short_field_at, short_number_at};
use std::alloc::{AllocError, Global};
use std::str;

/// Why it isn't known whether a payload is canonical.
#[derive(Clone, Copy, Debug, PartialEq, Eq)]
pub enum Unsure {
    /// Memory runs out.
    Memory,
    /// A rule seems to be broken; what judges the payload tells.
    SeemsBroken,
    /// It stands in another way, or isn't looked at further.
    Undecided,
}

impl From<AllocError> for Unsure {
    ghost use Rattle.std.specs.Prelude.{◌≡◌};
    ghost use Rattle.mvt_feature.specs.declared.canonical_feature.Unsure.TheVariants as causes;

    ghost from_gives = { λ e r. r ≡ causes.Memory };

    fn from(_: AllocError) -> Self {
        Unsure::Memory
    }
}

/// Whether a payload is the canonical one of a value. The byte that begins it tells its form, so
/// that each of these calls looks for one form alone.
pub fn is_canonical_value(payload: &[u8]) -> bool
    ensures { IsTrue result → (value : AValue) × IsCanonicalValue payload.now value }
{
    match payload.first() {
        Some(&STRING_TAG) => is_short_value(payload, value::STRING),
        Some(&FLOAT_TAG) => is_short_value(payload, value::FLOAT),
        Some(&DOUBLE_TAG) => is_short_value(payload, value::DOUBLE),
        Some(&INT_TAG) => is_short_value(payload, value::INT),
        Some(&UINT_TAG) => is_short_value(payload, value::UINT),
        Some(&SINT_TAG) => is_short_value(payload, value::SINT),
        Some(&BOOL_TAG) => is_short_value(payload, value::BOOL),
        _ => false,
    }
}

/// The same, if the number of its field is this one.
#[inline(always)]
fn is_short_value(payload: &[u8], number: u32) -> bool
    ensures { IsTrue result → (value : AValue) × IsCanonicalValue payload.now value }
{
    match short_field_at(payload, 0) {
        Some((field, after)) => {
            field.number == number && after == payload.len() && is_value(number, field.payload)
        }
        None => false,
    }
}

/// Whether a field of this number says a value in the canonical way.
#[inline(always)]
fn is_value(number: u32, payload: Payload<'_>) -> bool
    ensures { IsTrue result → (value : AValue) × ValidValue value
        × (field_of_value value ≡ plain number (content_of payload.entry)) }
{
    match payload {
        Payload::Len(bytes) => number == value::STRING && is_text(bytes),
        Payload::I32(bits) => is_float(number, bits),
        Payload::I64(bits) => is_double(number, bits),
        Payload::Varint(content) => is_number(number, content),
    }
}

fn is_text(bytes: &[u8]) -> bool
    ensures { IsTrue result → IsUtf8 bytes.now }
{
    match str::from_utf8(bytes) {
        Ok(_) => true,
        Err(_) => false,
    }
}

fn is_float(number: u32, bits: u32) -> bool
    ensures { IsTrue result → (value : AValue) × ValidValue value
        × (field_of_value value ≡ plain number (fixed32 bits)) }
{
    number == value::FLOAT
}

fn is_double(number: u32, bits: u64) -> bool
    ensures { IsTrue result → (value : AValue) × ValidValue value
        × (field_of_value value ≡ plain number (fixed64 bits)) }
{
    number == value::DOUBLE
}

/// The same for a varint. A bool is 0 or 1.
fn is_number(number: u32, content: u64) -> bool
    ensures { IsTrue result → (value : AValue) × ValidValue value
        × (field_of_value value ≡ plain number (varint content)) }
{
    match number {
        value::INT => true,
        value::UINT => true,
        value::SINT => true,
        value::BOOL => content < 2,
        _ => false,
    }
}

/// The parts of a feature's payload that is canonical but perhaps for its packed numbers. No tags
/// are no bytes.
#[derive(Clone, Copy)]
pub(crate) struct Parts<'a> {
    pub(crate) id: Option<u64>,
    pub(crate) tags: &'a [u8],
    pub(crate) kind: Kind,
    pub(crate) integers: &'a [u8],
}

fn parts_of(payload: &[u8]) -> Option<Parts<'_>>
    ensures parts { IfSome result (λ parts. payload.now ≡ spelled (parts_fields parts)) }
    ensures id { IfSome result (λ parts. IfSome parts.id (λ n. n < 2 ^ 64)) }
    ensures kind { IfSome result (λ parts. parts.kind ≢ kinds.Unknown) }
{
    let (id, tags_at) = id_from(payload);
    let (tags, kind_at) = tags_from(payload, tags_at)?;
    let (kind, integers_at) = kind_from(payload, kind_at)?;
    let (integers, end) = short_bytes_at(payload, integers_at, feature::GEOMETRY)?;
    if end != payload.len() {
        return None;
    }
    Some(Parts {
        id,
        tags,
        kind,
        integers,
    })
}

#[inline(always)]
fn id_from(payload: &[u8]) -> (Option<u64>, usize)
    ensures front { payload.now ≡ spelled (id_fields result.0) ++ drop result.1 payload.now }
    ensures within { result.1 ≤ length payload.now }
    ensures id { IfSome result.0 (λ n. n < 2 ^ 64) }
{
    match short_number_at(payload, 0, feature::ID) {
        Some((id, after)) => (Some(id), after),
        None => (None, 0),
    }
}

#[inline(always)]
fn tags_from(payload: &[u8], at: usize) -> Option<(&[u8], usize)>
    requires { at ≤ length payload.now }
    ensures front { IfSome result (λ found. drop at payload.now
        ≡ spelled (packed_tags found.0.now) ++ drop found.1 payload.now) }
    ensures within { IfSome result (λ found. found.1 ≤ length payload.now) }
{
    match short_bytes_at(payload, at, feature::TAGS) {
        Some((tags, after)) => {
            if tags.is_empty() {
                return None;
            }
            Some((tags, after))
        }
        None => Some((&[], at)),
    }
}

/// The known type that stands at an offset, and the offset after it.
#[inline(always)]
pub(crate) fn kind_from(payload: &[u8], at: usize) -> Option<(Kind, usize)>
    requires { at ≤ length payload.now }
    ensures front { IfSome result (λ found. drop at payload.now
        ≡ spelled (type_fields found.0) ++ drop found.1 payload.now) }
    ensures within { IfSome result (λ found. (at < found.1) × (found.1 ≤ length payload.now)) }
    ensures known { IfSome result (λ found. found.0 ≢ kinds.Unknown) }
{
    let (number, after) = short_number_at(payload, at, feature::TYPE)?;
    match number {
        1 => Some((Kind::Point, after)),
        2 => Some((Kind::LineString, after)),
        3 => Some((Kind::Polygon, after)),
        _ => None,
    }
}

/// What is known of a canonical feature.
#[derive(Clone, Copy, Debug)]
pub struct CanonicalFeature {
    pub fields: FeatureFields,
    /// How many keys and values are used after it.
    pub used: (usize, usize),
}

/// Judges whether a payload is the canonical one of a feature, in a layer with these keys and this
/// number of values, if earlier features use this many of them and each new one is the next. The
/// geometry is passed to a visitor on the way; then the tags are judged.
///
/// # Errors
///
/// If it isn't, or isn't known to be. The visitor may then have received some parts.
pub fn judge_canonical<V: GeometryVisitor>(
    alloc: Global,
    visitor: &mut V,
    payload: &[u8],
    keys: &mut LayerKeys<'_>,
    values: usize,
    used: (usize, usize),
) -> Result<CanonicalFeature, Unsure>
    ensures found { IfOk result (λ known. (held : List AValue) → length held ≡ values
        → IsCanonicalAfter payload.now keys.old held used
        (HasDrawn V.has_parts V.has_integers visitor.old visitor.new) known) }
    ensures told { IfErr result (λ error. error ≢ causes.Memory → (parts : List Part)
        × (begun : List APoint) × V.has_parts visitor.old parts begun visitor.new) }
    ensures same { keys.new ≡ keys.old }
{
    match parts_of(payload) {
        Some(parts) => judge_parts(alloc, visitor, &parts, keys, values, used),
        None => Err(Unsure::Undecided),
    }
}

/// The same for a payload that has these parts in the canonical order.
fn judge_parts<V: GeometryVisitor>(
    alloc: Global,
    visitor: &mut V,
    parts: &Parts<'_>,
    keys: &mut LayerKeys<'_>,
    values: usize,
    used: (usize, usize),
) -> Result<CanonicalFeature, Unsure>
    requires id { IfSome parts.now.id (λ n. n < 2 ^ 64) }
    requires kind { parts.now.kind ≢ kinds.Unknown }
    ensures found { IfOk result (λ known. (held : List AValue) → length held ≡ values
        → IsOfPartsAfter parts.now keys.old held used
        (HasDrawn V.has_parts V.has_integers visitor.old visitor.new) known) }
    ensures told { IfErr result (λ error. error ≢ causes.Memory → (parts : List Part)
        × (begun : List APoint) × V.has_parts visitor.old parts begun visitor.new) }
    ensures same { keys.new ≡ keys.old }
{
    if !draw_packed(visitor, parts.kind, parts.integers)? {
        return Err(Unsure::SeemsBroken);
    }
    if !are_short(parts.integers) {
        return Err(Unsure::Undecided);
    }
    let mut order = UseOrder {
        keys: used.0,
        values: used.1,
    };
    match judge_packed(alloc, &mut order, keys, values, parts.tags)? {
        PackedTags::Good { is_short: true } => Ok(CanonicalFeature {
            fields: FeatureFields {
                id: parts.id,
                kind: parts.kind,
            },
            used: (order.keys, order.values),
        }),
        PackedTags::Broken => Err(Unsure::SeemsBroken),
        _ => Err(Unsure::Undecided),
    }
}
