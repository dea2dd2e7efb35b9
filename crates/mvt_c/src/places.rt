//! Where the fault of refused bytes stands, what is said of it, and what they look like.
ghost use Rattle.std.specs.Prelude.{◌≡◌, ◌≤◌, length, None, IfSome};
ghost use Rattle.std.specs.Option.{option_copied};
ghost use Rattle.mvt_base.specs.declared.TheConstants.{LIMIT};
ghost use Rattle.mvt_feature.specs.Causes.{cause_number};
ghost use Rattle.mvt_c.specs.Places as spec;
ghost use Rattle.mvt_c.specs.Places.{IsExplained, IsGiven, IsLocated, IsPlace, IsPlaceOf, LacksCause, look_number};
ghost use Rattle.mvt_places.specs.Lookalikes.{lookalike_of};

use crate::fault::Fault;
use crate::lent::Bytes;
use mvt_places::{Place as TilePlace, locate, looks_like, sentence_with_zero};
use mvt_tile::{Cause, Fault as TileFault};

/// The place of a fault: the name of its layer, which is a part of the refused bytes, the id of its
/// feature, and the bytes that it is about. What isn't there is empty or 0.
#[repr(C)]
#[derive(Clone, Copy, Debug)]
pub struct Place<'a> {
    pub layer_name: &'a [u8],
    pub has_layer_name: u32,
    pub has_feature_id: u32,
    pub feature_id: u64,
    pub start: u64,
    pub end: u64,
}

/// The place of a fault of refused bytes (`mvt_locate`). A fault whose cause has a number that none
/// has stands at their end.
#[unsafe(no_mangle)]
pub extern "C" fn mvt_locate<'a>(bytes: &'a [u8], fault: &Fault, out: &mut Place<'a>)
    ensures { IsLocated bytes.now fault.now out.new }
{
    *out = place_given(bytes, fault);
}

/// The place of the fault that C gives back.
pub(crate) fn place_given<'a>(bytes: &'a [u8], fault: &Fault) -> Place<'a>
    ensures { IsLocated bytes.now fault.now result }
{
    match fault_given(fault) {
        Some(given) => located(bytes, &given),
        None => behind(bytes),
    }
}

fn located<'a>(bytes: &'a [u8], fault: &TileFault) -> Place<'a>
    ensures { IsPlaceOf bytes.now fault.now result }
{
    place_of(locate(bytes, fault))
}

/// The end of the bytes, without a name and an id.
fn behind<'a>(bytes: &'a [u8]) -> Place<'a>
    ensures { IsPlace None None (length bytes.now) (length bytes.now) result }
{
    let end = bytes.len() as u64;
    place_of(TilePlace {
        layer_name: None,
        feature_id: None,
        start: end,
        end,
    })
}

/// Hands out what is said of a fault in plain words, with a zero at the end (`mvt_explain`). The
/// text is never freed. Answers 1, or 0 where no cause has the number of the fault's.
#[unsafe(no_mangle)]
pub extern "C" fn mvt_held_sentence(bytes: &[u8], fault: &Fault, out: &mut Bytes) -> u32
    ensures said { result ≡ 1 → IsExplained bytes.now fault.now out.new.bytes.now }
    ensures unknown { result ≡ 0 → LacksCause fault.now }
    ensures few { result ≤ 1 }
    ensures out_kept { result ≡ 0 → out.new ≡ out.old }
{
    match fault_given(fault) {
        Some(given) => {
            *out = Bytes {
                bytes: sentence_with_zero(bytes, given.cause).as_bytes(),
            };
            1
        }
        None => 0,
    }
}

/// The number of what refused bytes look like (`mvt_looks_like`), or 0 where they may be meant as a
/// tile.
#[unsafe(no_mangle)]
pub extern "C" fn mvt_looks_like(bytes: &[u8]) -> u32
    ensures { result ≡ look_number (lookalike_of bytes.now) }
{
    match looks_like(bytes) {
        Some(lookalike) => lookalike.number(),
        None => 0,
    }
}

/// The fault that C gives back; none where no cause has its number.
pub(crate) fn fault_given(given: &Fault) -> Option<TileFault>
    ensures given { IfSome result (IsGiven given.now) }
    ensures unknown { result ≡ None → LacksCause given.now }
{
    Some(TileFault {
        layer: index_given(given.layer),
        feature: index_given(given.feature),
        at: given.at,
        cause: cause_given(given.cause)?,
    })
}

fn index_given(index: i64) -> Option<u32>
    ensures { result ≡ spec.index_given index }
{
    if index < 0 {
        return None;
    }
    Some(u32::try_from(index).unwrap_or(u32::MAX))
}

pub(crate) fn cause_given(number: u32) -> Option<Cause>
    ensures given { IfSome result (λ cause. cause_number cause ≡ number) }
    ensures unknown { result ≡ None → (cause : Cause) → cause_number cause ≡ number → ⊥ }
{
    Some(match number {
        1 => Cause::Truncated,
        2 => Cause::VarintRange,
        3 => Cause::FieldNumber,
        4 => Cause::WireType,
        5 => Cause::WrongType,
        6 => Cause::NumberRange,
        7 => Cause::NotUtf8,
        8 => Cause::NoVersion,
        10 => Cause::NoName,
        11 => Cause::ValueKind,
        12 => Cause::GeomType,
        13 => Cause::OddTags,
        14 => Cause::KeyIndex,
        15 => Cause::ValueIndex,
        16 => Cause::RepeatedKey,
        17 => Cause::Command,
        18 => Cause::Count,
        19 => Cause::Parameters,
        20 => Cause::ZeroSegment,
        21 => Cause::CoordinateRange,
        22 => Cause::FirstRing,
        23 => Cause::EndsEarly,
        24 => Cause::RepeatedName,
        25 => Cause::TooLarge,
        26 => Cause::ParameterRange,
        _ => return None,
    })
}

fn place_of<'a>(place: TilePlace<'a>) -> Place<'a>
    ensures { IsPlace (option_copied place.entry.layer_name) place.entry.feature_id
        place.entry.start place.entry.end result }
{
    let (layer_name, has_layer_name): (&[u8], u32) = match place.layer_name {
        Some(name) => (name, 1),
        None => (&[], 0),
    };
    let (feature_id, has_feature_id) = match place.feature_id {
        Some(id) => (id, 1),
        None => (0, 0),
    };
    Place {
        layer_name,
        has_layer_name,
        has_feature_id,
        feature_id,
        start: place.start,
        end: place.end,
    }
}
