//! A feature's payload mended (section 4.2).
ghost use Rattle.std.specs.Prelude.{◌≡◌, ◌^◌, [], ◌∷◌, ◌++◌, true, is_none, nat_lt, option_map, IfOk, OnOk};
ghost use Rattle.mvt_base.specs.Rules.{first};
ghost use Rattle.mvt_wire.specs.Field.{content_of};
ghost use Rattle.mvt_wire.specs.Packed.{packed, packed_rules};
ghost use Rattle.mvt_wire.specs.Spelling.{spelled};
ghost use Rattle.mvt_wire.specs.Split.{split};
ghost use Rattle.mvt_feature.specs.FeatureRules.{kind_in, numbers_of};
ghost use Rattle.mvt_feature.specs.Features.{kind_of_type, number_of};
ghost use Rattle.mvt_mend.specs.Features.{integers_of, is_list, others, with_integers as has_integers};

use mvt_feature::numbers::feature;
use mvt_geometry::Kind;
use mvt_wire::{Fields, PackedError, Payload, append_packed, put_field, put_packed};
use std::alloc::{AllocError, Global};

/// The integers of a payload's geometry, if it splits into fields and those of its geometry are
/// lists of numbers.
pub(crate) fn read_integers(alloc: Global, payload: &[u8]) -> Result<Option<Vec<u32>>, AllocError>
    ensures { IfOk result (λ r. option_map (λ v. v.items) r ≡ integers_of payload.now) }
{
    let mut integers = Vec::new(alloc);
    for field in Fields::new(payload) {
        match field {
            Ok(field) => {
                if field.number == feature::GEOMETRY
                    && !append_list(&field.payload, &mut integers)?
                {
                    return Ok(None);
                }
            }
            Err(_) => return Ok(None),
        }
    }
    Ok(Some(integers))
}

/// Appends the number of a field, or its packed numbers; false if it is no list of numbers.
fn append_list(payload: &Payload<'_>, numbers: &mut Vec<u32>) -> Result<bool, AllocError>
    ensures is { IfOk result (λ r. r ≡ is_list (content_of payload.now)) }
    ensures numbers { IfOk result (λ r. r ≡ true → numbers.new.items
        ≡ numbers.old.items ++ numbers_of (content_of payload.now)) }
{
    match payload {
        Payload::Varint(number) => append_number(*number, numbers),
        Payload::Len(bytes) => append_numbers(bytes, numbers),
        Payload::I32(_) => Ok(false),
        Payload::I64(_) => Ok(false),
    }
}

/// Appends a number; false if it has more than 32 bits.
fn append_number(number: u64, numbers: &mut Vec<u32>) -> Result<bool, AllocError>
    ensures is { IfOk result (λ r. r ≡ nat_lt number (2 ^ 32)) }
    ensures numbers { IfOk result (λ r. r ≡ true
        → numbers.new.items ≡ numbers.old.items ++ number ∷ []) }
{
    if number >= 1 << 32 {
        return Ok(false);
    }
    numbers.push(number as u32)?;
    Ok(true)
}

/// Appends packed numbers; false if the bytes aren't such.
fn append_numbers(bytes: &[u8], numbers: &mut Vec<u32>) -> Result<bool, AllocError>
    ensures is { IfOk result (λ r. r ≡ is_none (first (packed_rules bytes.now))) }
    ensures numbers { IfOk result (λ r. r ≡ true
        → numbers.new.items ≡ numbers.old.items ++ (packed bytes.now).numbers) }
{
    match append_packed(bytes, numbers) {
        Ok(()) => Ok(true),
        Err(PackedError::Memory) => Err(AllocError),
        Err(PackedError::Truncated | PackedError::VarintRange | PackedError::NumberRange) => {
            Ok(false)
        }
    }
}

/// The type of a feature's geometry, which is that of its last type.
pub(crate) fn kind_of(payload: &[u8]) -> Kind
    ensures { result ≡ kind_in (split payload.now).fields }
{
    let mut kind = Kind::Unknown;
    for field in Fields::new(payload) {
        if let Ok(field) = field {
            if field.number == feature::TYPE {
                kind = kind_numbered(&field.payload);
            }
        }
    }
    kind
}

/// The type that a field tells.
fn kind_numbered(payload: &Payload<'_>) -> Kind
    ensures { result ≡ kind_of_type (number_of (content_of payload.now)) }
{
    match payload {
        Payload::Varint(0) => Kind::Unknown,
        Payload::Varint(1) => Kind::Point,
        Payload::Varint(2) => Kind::LineString,
        Payload::Varint(_) => Kind::Polygon,
        Payload::Len(_) | Payload::I32(_) | Payload::I64(_) => Kind::Unknown,
    }
}

/// A payload with these integers in place of its own, behind its other fields.
#[tactic(auto, unfolding(crate::specs::Features::with_integers))]
pub(crate) fn with_integers(
    alloc: Global,
    payload: &[u8],
    integers: &[u32],
) -> Result<Vec<u8>, AllocError>
    ensures { IfOk result (λ made. made.items ≡ has_integers payload.now integers.now) }
{
    let mut out = Vec::with_capacity(alloc, payload.len())?;
    put_others(&mut out, payload)?;
    put_packed(&mut out, feature::GEOMETRY, integers)?;
    Ok(out)
}

/// Appends the fields of a payload but for those of its geometry.
fn put_others(out: &mut Vec<u8>, payload: &[u8]) -> Result<(), AllocError>
    ensures { OnOk result (out.new.items
        ≡ out.old.items ++ spelled (others (split payload.now).fields)) }
{
    for field in Fields::new(payload) {
        if let Ok(field) = field {
            if field.number != feature::GEOMETRY {
                put_field(out, field.number, &field.payload)?;
            }
        }
    }
    Ok(())
}
