//! The known fields of a feature (Mapbox Vector Tile Specification 2.1, 4.1, message Feature).
ghost use Rattle.std.specs.Prelude.{◌≡◌, ◌⊎◌, ◌+◌, ◌^◌, ◌<◌, List, [], ◌++◌, length, Option, Some, None, Ok, IfOk, IfErr, IsErrOf, OnOk};
ghost use Rattle.std.specs.Option.{option_or, option_map};
ghost use Rattle.mvt_base.specs.Reports.{Reports};
ghost use Rattle.mvt_base.specs.Rules.{each, first};
ghost use Rattle.mvt_wire.specs.Field.{Entry, content_of};
ghost use Rattle.mvt_wire.specs.Packed.{PackedCause, fault_of as packed_fault_of};
ghost use Rattle.mvt_wire.specs.Split.{split};
ghost use Rattle.mvt_feature.specs.declared.numbers.feature.TheConstants.{TAGS, GEOMETRY};
ghost use Rattle.mvt_feature.specs.Causes.{of_packed};
ghost use Rattle.mvt_feature.specs.Faults.{fault_of, fault_at as the_fault_at, rest_rules};
ghost use Rattle.mvt_feature.specs.Features.{number_of, kind_of_type};
ghost use Rattle.mvt_feature.specs.FeatureRules.{numbers_of, list_rules, feature_form_rules, feature_field_rules};
ghost use Rattle.mvt_feature.specs.Forms.{any_varint, geom_type, form_rules};
ghost use Rattle.mvt_feature.specs.Inner.{id_after, kind_after, numbers_at, AreFeatureFields, AreFeatureFieldsSoFar};
ghost use Rattle.mvt_feature.specs.Listing.{ListsNumbers};
ghost use Rattle.mvt_feature.specs.Walks.{Walk};

use crate::cause::Cause;
use crate::message_error::MessageError;
use crate::numbers::feature;
use crate::rest_faults::{fault_at, rest_fault, rest_fault_before};
use crate::scratch::Scratch;
use crate::value::varint_of;
use mvt_geometry::Kind;
use mvt_wire::{Field, Fields, PackedError, Payload, append_packed};

/// The tags of the fields as they mostly stand: each once, in this order.
pub(crate) const ID_TAG: u8 = 8 * feature::ID as u8;

pub(crate) const TAGS_TAG: u8 = 8 * feature::TAGS as u8 + 2;

pub(crate) const TYPE_TAG: u8 = 8 * feature::TYPE as u8;

pub(crate) const GEOMETRY_TAG: u8 = 8 * feature::GEOMETRY as u8 + 2;

/// What the fields of a feature say besides its tags and integers.
#[derive(Clone, Copy, Debug)]
pub struct FeatureFields {
    pub id: Option<u64>,
    pub kind: Kind,
}

/// What the fields of a payload say; the tags and the integers are left in the scratch.
pub(crate) fn read_fields(
    payload: &[u8],
    payload_at: u64,
    scratch: &mut Scratch,
) -> Result<FeatureFields, MessageError>
    requires { payload_at + length payload.now < 2 ^ 64 }
    ensures whole { OnOk result ((split payload.now).rest ≡ []) }
    ensures ok { OnOk result (first
        (each (λ _. feature_field_rules payload_at) [] (split payload.now).fields) ≡ None) }
    ensures known { IfOk result (λ known. AreFeatureFields
        (split payload.now).fields known scratch.new.tags.items scratch.new.integers.items) }
    ensures err { IfErr result (λ error. Reports (fault_of error) (option_or
        (first (rest_rules payload_at (split payload.now)))
        (first (each (λ _. feature_field_rules payload_at) [] (split payload.now).fields)))) }
    ensures memory { IsErrOf result MessageError.Memory → ListsNumbers payload.now payload_at }
{
    let mut fields = Fields::new(payload);
    let front = read_front(&mut fields, payload, payload_at, scratch)?;
    let mut known = front.with_tagged(&mut fields, GEOMETRY_TAG, payload, payload_at, scratch)?;
    for field in fields {
        match field {
            Ok(field) => match known.with(&field, payload_at + field.at as u64, scratch) {
                Ok(more) => known = more,
                Err(error) => return Err(rest_fault_before(payload, payload_at, error)),
            },
            Err(fault) => return Err(rest_fault(payload_at, fault)),
        }
    }
    Ok(known)
}

/// What the fields in front say, where they are the id, the tags and the type in this order. The
/// lists of the scratch are begun anew.
#[inline(always)]
fn read_front(
    fields: &mut Fields<'_>,
    payload: &[u8],
    payload_at: u64,
    scratch: &mut Scratch,
) -> Result<FeatureFields, MessageError>
    requires fits { payload_at + length payload.now < 2 ^ 64 }
    requires start { Walk payload.now fields.old.to_come [] }
    ensures known { IfOk result (λ known. (done : List Entry)
        × Walk payload.now fields.new.to_come done
        × AreFeatureFieldsSoFar payload_at done (Ok known) scratch.new.tags.items
        scratch.new.integers.items) }
    ensures err { IfErr result (λ error. Reports (fault_of error) (option_or
        (first (rest_rules payload_at (split payload.now)))
        (first (each (λ _. feature_field_rules payload_at) [] (split payload.now).fields)))) }
    ensures memory { IsErrOf result MessageError.Memory → ListsNumbers payload.now payload_at }
{
    scratch.tags.clear();
    scratch.integers.clear();
    let nothing = FeatureFields {
        id: None,
        kind: Kind::Unknown,
    };
    nothing
        .with_tagged(fields, ID_TAG, payload, payload_at, scratch)?
        .with_tagged(fields, TAGS_TAG, payload, payload_at, scratch)?
        .with_tagged(fields, TYPE_TAG, payload, payload_at, scratch)
}

impl FeatureFields {
    /// What is known with the next field, where its tag is this byte.
    #[inline(always)]
    fn with_tagged(
        self,
        fields: &mut Fields<'_>,
        tag: u8,
        payload: &[u8],
        payload_at: u64,
        scratch: &mut Scratch,
    ) -> Result<FeatureFields, MessageError>
        requires fits { payload_at + length payload.now < 2 ^ 64 }
        requires walk { (done : List Entry) × Walk payload.now fields.old.to_come done
            × AreFeatureFieldsSoFar payload_at done (Ok self) scratch.old.tags.items
            scratch.old.integers.items }
        ensures known { IfOk result (λ known. (done : List Entry)
            × Walk payload.now fields.new.to_come done
            × AreFeatureFieldsSoFar payload_at done (Ok known) scratch.new.tags.items
            scratch.new.integers.items) }
        ensures err { IfErr result (λ error. Reports (fault_of error) (option_or
            (first (rest_rules payload_at (split payload.now)))
            (first (each (λ _. feature_field_rules payload_at) [] (split payload.now).fields)))) }
        ensures memory { IsErrOf result MessageError.Memory
            → ListsNumbers payload.now payload_at }
    {
        match fields.next_tagged(tag) {
            None => Ok(self),
            Some(Ok(field)) => match self.with(&field, payload_at + field.at as u64, scratch) {
                Ok(more) => Ok(more),
                Err(error) => Err(rest_fault_before(payload, payload_at, error)),
            },
            Some(Err(fault)) => Err(rest_fault(payload_at, fault)),
        }
    }

    /// What is known with one more field, which is told to stand at this place.
    #[inline(always)]
    fn with(
        self,
        field: &Field<'_>,
        at: u64,
        scratch: &mut Scratch,
    ) -> Result<FeatureFields, MessageError>
        ensures ok { OnOk result (first
            (feature_form_rules field.now.number (content_of field.now.payload)) ≡ None) }
        ensures id { IfOk result (λ known. known.id ≡ id_after self.id field.now.number
            (content_of field.now.payload)) }
        ensures kind { IfOk result (λ known. known.kind ≡ kind_after self.kind field.now.number
            (content_of field.now.payload)) }
        ensures tags { OnOk result
            (scratch.new.tags.items ≡ scratch.old.tags.items ++ numbers_at TAGS field.now.number
            (content_of field.now.payload)) }
        ensures integers { OnOk result
            (scratch.new.integers.items ≡ scratch.old.integers.items
            ++ numbers_at GEOMETRY field.now.number
            (content_of field.now.payload)) }
        ensures err { IfErr result (λ error. Reports (fault_of error)
            (option_map (the_fault_at at) (first
            (feature_form_rules field.now.number (content_of field.now.payload))))) }
        ensures memory { IsErrOf result MessageError.Memory
            → (field.now.number ≡ TAGS) ⊎ (field.now.number ≡ GEOMETRY) }
    {
        let payload = &field.payload;
        let mut known = self;
        match field.number {
            feature::ID => known.id = Some(id_of(payload, at)?),
            feature::TAGS => append_numbers(payload, at, &mut scratch.tags)?,
            feature::TYPE => known.kind = kind_of_payload(payload, at)?,
            feature::GEOMETRY => append_numbers(payload, at, &mut scratch.integers)?,
            _ => {}
        }
        Ok(known)
    }
}

#[inline(always)]
fn id_of(payload: &Payload<'_>, at: u64) -> Result<u64, MessageError>
    ensures number { IfOk result (λ n. number_of (content_of payload.now) ≡ Some n) }
    ensures ok { OnOk result (first (form_rules any_varint (content_of payload.now)) ≡ None) }
    ensures err { IfErr result
        (λ error. Reports (fault_of error)
        (option_map (the_fault_at at) (first (form_rules any_varint (content_of payload.now))))) }
    ensures never { IsErrOf result MessageError.Memory → ⊥ }
{
    match varint_of(payload) {
        Ok(number) => Ok(number),
        Err(cause) => Err(fault_at(at, cause)),
    }
}

#[inline(always)]
fn kind_of_payload(payload: &Payload<'_>, at: u64) -> Result<Kind, MessageError>
    ensures kind { IfOk result (λ kind. kind ≡ kind_of_type (number_of (content_of payload.now))) }
    ensures ok { OnOk result (first (form_rules geom_type (content_of payload.now)) ≡ None) }
    ensures err { IfErr result
        (λ error. Reports (fault_of error)
        (option_map (the_fault_at at) (first (form_rules geom_type (content_of payload.now))))) }
    ensures never { IsErrOf result MessageError.Memory → ⊥ }
{
    let Payload::Varint(number) = payload else {
        return Err(fault_at(at, Cause::WrongType));
    };
    match *number {
        0 => Ok(Kind::Unknown),
        1 => Ok(Kind::Point),
        2 => Ok(Kind::LineString),
        3 => Ok(Kind::Polygon),
        _ => Err(fault_at(at, Cause::GeomType)),
    }
}

/// Appends the number of a field, or its packed numbers.
#[inline(always)]
fn append_numbers(
    payload: &Payload<'_>,
    at: u64,
    numbers: &mut Vec<u32>,
) -> Result<(), MessageError>
    ensures numbers { OnOk result (numbers.new.items ≡ numbers.old.items ++ numbers_of
        (content_of payload.now)) }
    ensures ok { OnOk result (first (list_rules (content_of payload.now)) ≡ None) }
    ensures err { IfErr result
        (λ error. Reports (fault_of error)
        (option_map (the_fault_at at) (first (list_rules (content_of payload.now))))) }
{
    match payload {
        Payload::Varint(number) => {
            if *number >= 1 << 32 {
                return Err(fault_at(at, Cause::NumberRange));
            }
            numbers.push(*number as u32)?;
            Ok(())
        }
        Payload::Len(bytes) => match append_packed(bytes, numbers) {
            Ok(()) => Ok(()),
            Err(error) => Err(packed_fault(error, at)),
        },
        Payload::I32(_) => Err(fault_at(at, Cause::WrongType)),
        Payload::I64(_) => Err(fault_at(at, Cause::WrongType)),
    }
}

/// A fault of packed numbers, told at the field's place.
fn packed_fault(error: PackedError, at: u64) -> MessageError
    ensures { (cause : Option PackedCause) → Reports (packed_fault_of error) cause
        → Reports (fault_of result) (option_map (λ c. the_fault_at at (of_packed c)) cause) }
{
    match error {
        PackedError::Memory => MessageError::Memory,
        PackedError::Truncated => fault_at(at, Cause::Truncated),
        PackedError::VarintRange => fault_at(at, Cause::VarintRange),
        PackedError::NumberRange => fault_at(at, Cause::NumberRange),
    }
}
