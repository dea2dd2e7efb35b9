//! The name of a layer, without reading the rest.
ghost use Rattle.std.specs.Prelude.{◌≡◌, ◌==◌, Some, bytes_eq, if◌then◌else◌};
ghost use Rattle.std.specs.List.{list_any};
ghost use Rattle.std.specs.Option.{option_copied, option_to_list};
ghost use Rattle.mvt_wire.specs.Field.{content_of};
ghost use Rattle.mvt_feature.specs.Features.{number_of};
ghost use Rattle.mvt_message.specs.declared.numbers.layer.TheConstants.{NAME, VERSION};
ghost use Rattle.mvt_message.specs.ItemRules.{payload_names};
ghost use Rattle.mvt_message.specs.LayerFields.{is_two, bytes_of as the_bytes_of};

use crate::numbers::{VERSION_2, layer};
use crate::payload::bytes_of;
use mvt_wire::{Field, Fields, Payload};

/// Whether a payload has version 2 and this name, even if it breaks a rule.
pub fn has_name(payload: &[u8], name: &[u8]) -> bool
    ensures { result ≡ list_any (bytes_eq name.now) (payload_names payload.now) }
{
    match name_in(payload) {
        Some(own) => name == own,
        None => false,
    }
}

/// The name of a payload of version 2, even if it breaks a rule: the name may not be UTF-8.
pub fn name_in<'a>(payload: &'a [u8]) -> Option<&'a [u8]>
    ensures { option_to_list (option_copied result) ≡ payload_names payload.now }
{
    let mut has_version = false;
    let mut name = None;
    for field in Fields::new(payload) {
        if let Ok(field) = field {
            has_version = version_after(has_version, &field);
            name = name_after(name, &field);
        }
    }
    if has_version { name } else { None }
}

/// Whether the last version is 2, with one more field.
fn version_after(before: bool, field: &Field<'_>) -> bool
    ensures { result ≡ (if field.now.number == VERSION
        then is_two (number_of (content_of field.now.payload)) else before) }
{
    if field.number != layer::VERSION {
        return before;
    }
    match field.payload {
        Payload::Varint(number) => number == u64::from(VERSION_2),
        Payload::Len(_) | Payload::I64(_) | Payload::I32(_) => false,
    }
}

/// The last name, with one more field.
fn name_after<'a>(before: Option<&'a [u8]>, field: &Field<'a>) -> Option<&'a [u8]>
    ensures { option_copied result ≡ (if field.now.number == NAME
        then Some (the_bytes_of (content_of field.now.payload)) else option_copied before.entry) }
{
    if field.number != layer::NAME {
        return before;
    }
    Some(bytes_of(&field.payload))
}
