//! The version of a layer (Mapbox Vector Tile Specification 2.1, 4.1).
ghost use Rattle.std.specs.Prelude.{◌≡◌, ℕ, ◌+◌, ◌^◌, ◌<◌, List, [], ◌∷◌, ◌++◌, length, Some, None, IfOk, IfErr, IfSome, OnOk, OnSome};
ghost use Rattle.mvt_base.specs.Reports.{Reports};
ghost use Rattle.mvt_wire.specs.Field.{Entry, entry_of};
ghost use Rattle.mvt_wire.specs.Split.{split};
ghost use Rattle.mvt_feature.specs.Faults.{fault_of};
ghost use Rattle.mvt_message.specs.declared.item.Item.TheVariants.{Foreign};
ghost use Rattle.mvt_message.specs.ItemRules.{item_fault};
ghost use Rattle.mvt_message.specs.Items.{IsItem};
ghost use Rattle.mvt_message.specs.LayerFields.{version_in};
ghost use Rattle.mvt_message.specs.Inner.{header_fault, IsFault, IsVersionSoFar};

use crate::numbers::{VERSION_2, layer};
use crate::payload::uint32_of;
use mvt_feature::{Cause, MessageError, fault_at, rest_fault};
use mvt_wire::{Field, Fields};

/// The version of a payload, which is one item's where this is `Ok`. It is inlined, so that who has
/// no use for the fault doesn't pay for one on the way.
#[inline(always)]
pub(crate) fn read_version(
    payload: &[u8],
    payload_at: u64,
    tag_at: u64,
) -> Result<u32, MessageError>
    requires { payload_at + length payload.now < 2 ^ 64 }
    ensures version { IfOk result (λ version. version_in (split payload.now).fields
        ≡ Some version) }
    ensures ok { OnOk result (header_fault payload.now payload_at tag_at ≡ None) }
    ensures err { IfErr result (λ error. Reports (fault_of error)
        (header_fault payload.now payload_at tag_at)) }
    ensures fault { IfErr result IsFault }
{
    let mut version = Ok(None);
    for field in Fields::new(payload) {
        match field {
            Ok(field) => take_version(&mut version, &field, payload_at),
            Err(fault) => return Err(rest_fault(payload_at, fault)),
        }
    }
    version_of(version, tag_at)
}

/// The version of a foreign item, where the ends of its payload suggest one.
pub(crate) fn early_version(payload: &[u8], payload_at: u64, tag_at: u64) -> Option<u32>
    requires { payload_at + length payload.now < 2 ^ 64 }
    ensures ok { OnSome result (item_fault payload.now payload_at tag_at ≡ None) }
    ensures foreign { IfSome result (λ version. IsItem payload.now (Foreign version payload.now)) }
{
    if !seems_foreign(payload) {
        return None;
    }
    match read_version(payload, payload_at, tag_at) {
        Ok(version) if version != VERSION_2 => Some(version),
        Ok(_) | Err(_) => None,
    }
}

/// Whether a payload begins, or else ends, with bytes that may be the field of another version.
/// Only a walk over its fields can tell.
fn seems_foreign(payload: &[u8]) -> bool {
    match payload {
        [0x78, version, ..] | [.., 0x78, version] => *version != 2 && *version < 0x80,
        _ => false,
    }
}

/// The last version with one more field, unless a fault was met before it.
#[inline(always)]
fn take_version(version: &mut Result<Option<u32>, MessageError>, field: &Field<'_>, payload_at: u64)
    requires { payload_at + field.now.at < 2 ^ 64 }
    ensures more { (done : List Entry) → IsVersionSoFar payload_at done version.old
        → IsVersionSoFar payload_at (done ++ entry_of field.now ∷ []) version.new }
    ensures fault { IfErr version.old IsFault → IfErr version.new IsFault }
{
    if field.number != layer::VERSION {
        return;
    }
    if version.is_err() {
        return;
    }
    match uint32_of(&field.payload, payload_at + field.at as u64) {
        Ok(number) => *version = Ok(Some(number)),
        Err(error) => *version = Err(error),
    }
}

/// The version of a payload that splits into fields, by its last version or the first fault of one.
#[inline(always)]
fn version_of(version: Result<Option<u32>, MessageError>, tag_at: u64) -> Result<u32, MessageError>
    ensures version { (payload_at : ℕ) (fields : List Entry)
        → IsVersionSoFar payload_at fields version
        → IfOk result (λ found. version_in fields ≡ Some found) }
    ensures ok { (payload : List ℕ) (payload_at : ℕ) → (split payload).rest ≡ []
        → IsVersionSoFar payload_at (split payload).fields version
        → OnOk result (header_fault payload payload_at tag_at ≡ None) }
    ensures err { (payload : List ℕ) (payload_at : ℕ) → (split payload).rest ≡ []
        → IsVersionSoFar payload_at (split payload).fields version
        → IfErr result (λ error. Reports (fault_of error)
        (header_fault payload payload_at tag_at)) }
    ensures fault { IfErr version IsFault → IfErr result IsFault }
{
    match version? {
        Some(version) => Ok(version),
        None => Err(fault_at(tag_at, Cause::NoVersion)),
    }
}
