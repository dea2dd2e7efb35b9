//! What a field of a layer holds, and how its faults are told.
ghost use Rattle.std.specs.Prelude.{◌≡◌, ◌<◌, None, Some, IfOk, IfErr, OnOk};
ghost use Rattle.std.specs.Option.{option_map};
ghost use Rattle.mvt_base.specs.Reports.{Reports};
ghost use Rattle.mvt_base.specs.Rules.{first};
ghost use Rattle.mvt_wire.specs.Field.{content_of};
ghost use Rattle.mvt_feature.specs.Faults.{fault_of, fault_at as the_fault_at};
ghost use Rattle.mvt_feature.specs.Features.{number_of};
ghost use Rattle.mvt_feature.specs.Forms.{uint32, string, message, form_rules};
ghost use Rattle.mvt_message.specs.LayerFields.{bytes_of as the_bytes_of};
ghost use Rattle.mvt_message.specs.Inner.{IsFault};

use mvt_feature::{Cause, MessageError, fault_at};
use mvt_wire::Payload;

/// The bytes of a message; a field of another form has none.
#[inline(always)]
pub(crate) fn bytes_of<'a>(payload: &Payload<'a>) -> &'a [u8]
    ensures { result.now ≡ the_bytes_of (content_of payload.now) }
{
    match payload {
        Payload::Len(bytes) => bytes,
        Payload::Varint(_) => &[],
        Payload::I64(_) => &[],
        Payload::I32(_) => &[],
    }
}

/// Whether a field has the form of a message.
#[inline(always)]
pub(crate) fn check_bytes(payload: &Payload<'_>, at: u64) -> Result<(), MessageError>
    ensures ok { OnOk result (first (form_rules message (content_of payload.now)) ≡ None) }
    ensures err { IfErr result (λ error. Reports (fault_of error)
        (option_map (the_fault_at at) (first (form_rules message (content_of payload.now))))) }
{
    let Payload::Len(_) = payload else {
        return Err(fault_at(at, Cause::WrongType));
    };
    Ok(())
}

/// A text, or its fault told at this place.
#[inline(always)]
pub(crate) fn text_of<'a>(payload: &Payload<'a>, at: u64) -> Result<&'a str, MessageError>
    ensures text { IfOk result (λ text. text.now ≡ the_bytes_of (content_of payload.now)) }
    ensures ok { OnOk result (first (form_rules string (content_of payload.now)) ≡ None) }
    ensures err { IfErr result (λ error. Reports (fault_of error)
        (option_map (the_fault_at at) (first (form_rules string (content_of payload.now))))) }
{
    match mvt_feature::text_of(payload) {
        Ok(text) => Ok(text),
        Err(cause) => Err(fault_at(at, cause)),
    }
}

#[inline(always)]
pub(crate) fn uint32_of(payload: &Payload<'_>, at: u64) -> Result<u32, MessageError>
    ensures number { IfOk result (λ n. number_of (content_of payload.now) ≡ Some n) }
    ensures ok { OnOk result (first (form_rules uint32 (content_of payload.now)) ≡ None) }
    ensures err { IfErr result (λ error. Reports (fault_of error)
        (option_map (the_fault_at at) (first (form_rules uint32 (content_of payload.now))))) }
    ensures fault { IfErr result IsFault }
{
    let Payload::Varint(number) = payload else {
        return Err(fault_at(at, Cause::WrongType));
    };
    if *number >= 1 << 32 {
        return Err(fault_at(at, Cause::NumberRange));
    }
    Ok(*number as u32)
}
