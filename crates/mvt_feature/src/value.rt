//! Values (Mapbox Vector Tile Specification 2.1, 4.1, message Value).
ghost use Rattle.std.specs.Prelude.{◌≡◌, ◌+◌, ◌^◌, ◌<◌, ℕ, List, [], length, Some, None, true, false, IfOk, IfErr, IsErrOf, OnOk, OnErr, IfSome, MatchOption};
ghost use Rattle.std.specs.Option.{option_or};
ghost use Rattle.mvt_base.specs.Reports.{Reports};
ghost use Rattle.mvt_base.specs.Rules.{each, first};
ghost use Rattle.mvt_wire.specs.Field.{entry_of, content_of, varint, fixed64, fixed32, bytes};
ghost use Rattle.mvt_wire.specs.Split.{split};
ghost use Rattle.mvt_attrs.specs.declared.value.ValueOf.TheVariants as values;
ghost use Rattle.mvt_feature.specs.Faults.{fault_of, rest_rules};
ghost use Rattle.mvt_feature.specs.Forms.{any_varint, float, double, string, form_rules, number_rules};
ghost use Rattle.mvt_feature.specs.Values.{value_forms, Means, IsValueOf};
ghost use Rattle.mvt_feature.specs.ValueRules.{is_kind, value_field_rules, value_fault};
ghost use Rattle.mvt_feature.specs.Inner.{kinds_with, AreKinds};

use crate::cause::Cause;
use crate::message_error::MessageError;
use crate::numbers::value;
use crate::rest_faults::{fault_at, rest_fault, rest_fault_before};
use mvt_attrs::{TextRef, Value, ValueRef};
use mvt_wire::{Field, Fields, Payload, next_field, unzigzag64};
use std::alloc::{AllocError, Global};
use std::str;

/// The tag of the field of each kind.
pub(crate) const STRING_TAG: u8 = 0x0A;

pub(crate) const FLOAT_TAG: u8 = 0x15;

pub(crate) const DOUBLE_TAG: u8 = 0x19;

pub(crate) const INT_TAG: u8 = 0x20;

pub(crate) const UINT_TAG: u8 = 0x28;

pub(crate) const SINT_TAG: u8 = 0x30;

pub(crate) const BOOL_TAG: u8 = 0x38;

/// The value of a payload.
///
/// `payload_at` is the absolute offset of the payload, and `tag_at` that of the tag of its field. A
/// text of more than 14 bytes is the only value that takes memory.
///
/// # Errors
///
/// The first broken rule: the payload splits into fields, each field in order has the form of its
/// kind, and just one kind occurs.
pub fn read_value(
    alloc: Global,
    payload: &[u8],
    payload_at: u64,
    tag_at: u64,
) -> Result<Value, MessageError>
    requires { payload_at + length payload.now < 2 ^ 64 }
    ensures value { IfOk result (IsValueOf payload.now) }
    ensures ok { OnOk result (value_fault payload.now payload_at tag_at ≡ None) }
    ensures err { IfErr result (λ error. Reports (fault_of error)
        (value_fault payload.now payload_at tag_at)) }
    ensures memory { IsErrOf result MessageError.Memory
        → (text : List ℕ) × IsValueOf payload.now (values.Text text) × (14 < length text) }
{
    Ok(read_value_ref(payload, payload_at, tag_at)?.kept(alloc)?)
}

/// Whether a payload is a value, without memory.
///
/// # Errors
///
/// As `read_value`, but memory never runs out.
pub fn judge_value(payload: &[u8], payload_at: u64, tag_at: u64) -> Result<(), MessageError>
    requires { payload_at + length payload.now < 2 ^ 64 }
    ensures ok { OnOk result (value_fault payload.now payload_at tag_at ≡ None) }
    ensures err { IfErr result (λ error. Reports (fault_of error)
        (value_fault payload.now payload_at tag_at)) }
    ensures never { IsErrOf result MessageError.Memory → ⊥ }
{
    read_value_ref(payload, payload_at, tag_at)?;
    Ok(())
}

/// What a payload means as a value, without memory: its text is lent.
///
/// # Errors
///
/// As `read_value`, but memory never runs out.
#[inline(always)]
pub fn read_value_ref(
    payload: &[u8],
    payload_at: u64,
    tag_at: u64,
) -> Result<ValueRef<'_>, MessageError>
    requires { payload_at + length payload.now < 2 ^ 64 }
    ensures value { IfOk result (IsValueOf payload.now) }
    ensures ok { OnOk result (value_fault payload.now payload_at tag_at ≡ None) }
    ensures err { IfErr result (λ error. Reports (fault_of error)
        (value_fault payload.now payload_at tag_at)) }
    ensures never { IsErrOf result MessageError.Memory → ⊥ }
{
    if let Some(meaning) = only_meaning(payload) {
        return Ok(meaning);
    }
    match read_kinds(payload, payload_at)? {
        Kinds::One { meaning, .. } => Ok(meaning),
        Kinds::Nothing => Err(fault_at(tag_at, Cause::ValueKind)),
        Kinds::Several => Err(fault_at(tag_at, Cause::ValueKind)),
    }
}

/// What a payload of one field says, if this is of one of the seven kinds. The byte that begins it
/// tells its form, so that each of these calls reads one form alone. `None` costs speed alone.
#[inline(always)]
fn only_meaning(payload: &[u8]) -> Option<ValueRef<'_>>
    ensures { IfSome result (IsValueOf payload.now) }
{
    match payload.first() {
        Some(&STRING_TAG) => only_field(payload, value::STRING),
        Some(&FLOAT_TAG) => only_field(payload, value::FLOAT),
        Some(&DOUBLE_TAG) => only_field(payload, value::DOUBLE),
        Some(&INT_TAG) => only_field(payload, value::INT),
        Some(&UINT_TAG) => only_field(payload, value::UINT),
        Some(&SINT_TAG) => only_field(payload, value::SINT),
        Some(&BOOL_TAG) => only_field(payload, value::BOOL),
        _ => None,
    }
}

/// The same, if the number of the field is this one.
#[inline(always)]
fn only_field(payload: &[u8], number: u32) -> Option<ValueRef<'_>>
    ensures { IfSome result (IsValueOf payload.now) }
{
    let Ok(Some((field, after))) = next_field(payload, 0) else {
        return None;
    };
    if field.number != number || after != payload.len() {
        return None;
    }
    match meaning_of(&field) {
        Ok(meaning) => meaning,
        Err(_) => None,
    }
}

/// The kinds of value among the fields of a payload.
#[derive(Debug, Drop)]
enum Kinds<'a> {
    Nothing,
    /// Only this one, and what its last field says.
    One { number: u32, meaning: ValueRef<'a> },
    Several,
}

/// The kinds that occur in a payload.
#[inline(never)]
fn read_kinds(payload: &[u8], payload_at: u64) -> Result<Kinds<'_>, MessageError>
    requires { payload_at + length payload.now < 2 ^ 64 }
    ensures whole { OnOk result ((split payload.now).rest ≡ []) }
    ensures ok { OnOk result (first
        (each (λ _. value_field_rules payload_at) [] (split payload.now).fields) ≡ None) }
    ensures kinds { IfOk result (AreKinds (split payload.now).fields) }
    ensures err { IfErr result (λ error. Reports (fault_of error) (option_or
        (first (rest_rules payload_at (split payload.now)))
        (first (each (λ _. value_field_rules payload_at) [] (split payload.now).fields)))) }
    ensures never { IsErrOf result MessageError.Memory → ⊥ }
{
    let mut kinds = Kinds::Nothing;
    for field in Fields::new(payload) {
        match field {
            Ok(field) => match meaning_of(&field) {
                Ok(None) => {}
                Ok(Some(meaning)) => kinds = kinds.with(field.number, meaning),
                Err(cause) => {
                    let error = fault_at(payload_at + field.at as u64, cause);
                    return Err(rest_fault_before(payload, payload_at, error));
                }
            },
            Err(fault) => return Err(rest_fault(payload_at, fault)),
        }
    }
    Ok(kinds)
}

impl<'a> Kinds<'a> {
    fn with(self, number: u32, meaning: ValueRef<'a>) -> Kinds<'a>
        ensures { result ≡ kinds_with self.entry number meaning.entry }
    {
        match self {
            Kinds::Nothing => Kinds::One { number, meaning },
            Kinds::One { number: first, .. } if first == number => Kinds::One { number, meaning },
            _ => Kinds::Several,
        }
    }
}

/// What a field says, if it is of one of the seven kinds.
#[inline(always)]
fn meaning_of<'a>(field: &Field<'a>) -> Result<Option<ValueRef<'a>>, Cause>
    ensures ok { OnOk result (first
        (number_rules value_forms field.now.number (content_of field.now.payload)) ≡ None) }
    ensures means { IfOk result (λ meaning. MatchOption meaning
        (is_kind (entry_of field.now) ≡ false)
        (λ m. (is_kind (entry_of field.now) ≡ true)
        × Means field.now.number (content_of field.now.payload) m)) }
    ensures err { IfErr result (λ cause. first
        (number_rules value_forms field.now.number (content_of field.now.payload)) ≡ Some cause) }
{
    let payload = &field.payload;
    let meaning = match field.number {
        value::STRING => ValueRef::Text(TextRef::of(text_of(payload)?)),
        value::FLOAT => ValueRef::Float(fixed32_of(payload)?),
        value::DOUBLE => ValueRef::Double(fixed64_of(payload)?),
        value::INT => ValueRef::Int(varint_of(payload)?.cast_signed()),
        value::UINT => ValueRef::Uint(varint_of(payload)?),
        value::SINT => ValueRef::Sint(unzigzag64(varint_of(payload)?)),
        value::BOOL => ValueRef::Bool(varint_of(payload)? != 0),
        _ => return Ok(None),
    };
    Ok(Some(meaning))
}

/// The text of a field.
///
/// # Errors
///
/// Another wire type, or bytes that aren't UTF-8.
#[inline(always)]
pub fn text_of<'a>(payload: &Payload<'a>) -> Result<&'a str, Cause>
    ensures text { IfOk result (λ text. content_of payload.now ≡ bytes text.now) }
    ensures ok { OnOk result (first (form_rules string (content_of payload.now)) ≡ None) }
    ensures err { IfErr result (λ cause. first (form_rules string (content_of payload.now))
        ≡ Some cause) }
{
    let Payload::Len(bytes) = payload else {
        return Err(Cause::WrongType);
    };
    match str::from_utf8(bytes) {
        Ok(text) => Ok(text),
        Err(_) => Err(Cause::NotUtf8),
    }
}

fn fixed32_of(payload: &Payload<'_>) -> Result<u32, Cause>
    ensures number { IfOk result (λ n. content_of payload.now ≡ fixed32 n) }
    ensures ok { OnOk result (first (form_rules float (content_of payload.now)) ≡ None) }
    ensures err { IfErr result (λ cause. first (form_rules float (content_of payload.now))
        ≡ Some cause) }
{
    let Payload::I32(number) = payload else {
        return Err(Cause::WrongType);
    };
    Ok(*number)
}

fn fixed64_of(payload: &Payload<'_>) -> Result<u64, Cause>
    ensures number { IfOk result (λ n. content_of payload.now ≡ fixed64 n) }
    ensures ok { OnOk result (first (form_rules double (content_of payload.now)) ≡ None) }
    ensures err { IfErr result (λ cause. first (form_rules double (content_of payload.now))
        ≡ Some cause) }
{
    let Payload::I64(number) = payload else {
        return Err(Cause::WrongType);
    };
    Ok(*number)
}

/// The number of a varint field.
///
/// # Errors
///
/// Another wire type.
pub fn varint_of(payload: &Payload<'_>) -> Result<u64, Cause>
    ensures number { IfOk result (λ n. content_of payload.now ≡ varint n) }
    ensures ok { OnOk result (first (form_rules any_varint (content_of payload.now)) ≡ None) }
    ensures err { IfErr result (λ cause. first (form_rules any_varint (content_of payload.now))
        ≡ Some cause) }
{
    let Payload::Varint(number) = payload else {
        return Err(Cause::WrongType);
    };
    Ok(*number)
}
