//! What is seen of a layer's fields at little cost, before they are judged (Mapbox Vector Tile
//! Specification 2.1, 4.1).
ghost use Rattle.std.specs.Prelude.{◌≡◌, ◌≤◌, ◌∷◌, ℕ, List, length, IsTrue};
ghost use Rattle.mvt_wire.specs.Field.{bytes};
ghost use Rattle.mvt_wire.specs.Spelling.{short_field};
ghost use Rattle.mvt_feature.specs.declared.numbers.feature.TheConstants.{GEOMETRY};
ghost use Rattle.mvt_message.specs.Copying.{AreFieldsFrom};

use crate::around::{EXTENT_TAG, VERSION_TAG};
use crate::numbers::{feature, layer};
use mvt_attrs::are_distinct;
use mvt_wire::{short_bytes_at, short_number_at};
use std::alloc::{AllocError, Global};

/// The most keys, and values, of a layer that is looked at further: the lists of them stay small.
const MOST_LISTED: usize = 1 << 16;

/// How many of the first keys, and values, are compared with one another before all are listed,
/// where there are more.
const FIRST_COMPARED: usize = 8;

/// Up to so many bytes of keys and values are listed before they are looked at.
const FEW_BYTES: usize = 256;

/// The tags of a feature's id, of its list of tags, and of its type.
const ID_TAG: u8 = 0x08;

const TAGS_TAG: u8 = 0x12;

const TYPE_TAG: u8 = 0x18;

/// How many keys and values a layer has, or there is room for at first.
#[derive(Clone, Copy)]
pub(crate) struct Counts {
    pub(crate) keys: usize,
    pub(crate) values: usize,
}

/// Whether the fields of the first feature may stand in the canonical order, by its first bytes. If
/// there is none, only few bytes may follow: keys and values in front of features are more. Yes
/// means nothing yet; no costs speed alone.
pub(crate) fn may_begin_in_order(body: &[u8], features_at: usize) -> bool
    requires { features_at ≤ length body.now }
{
    match short_bytes_at(body, features_at, layer::FEATURES) {
        Some((feature, _)) => may_be_in_order(feature),
        None => body.len() - features_at <= FEW_BYTES,
    }
}

/// Whether a feature begins with tags, or is a type and integers alone, after an id if it has one.
/// Yes means that what begins with a type is a type and integers; no costs speed alone.
fn may_be_in_order(payload: &[u8]) -> bool
    ensures typed { (kind : ℕ) (rest : List ℕ) → payload.now ≡ 24 ∷ (kind ∷ rest)
        → IsTrue result → (integers : List ℕ) × (rest ≡ short_field GEOMETRY (bytes integers)) }
{
    match payload {
        [ID_TAG, ..] => match short_number_at(payload, 0, feature::ID) {
            Some((_, after)) => may_go_on(&payload[after..]),
            None => false,
        },
        _ => may_go_on(payload),
    }
}

/// The same for what stands after an id.
fn may_go_on(fields: &[u8]) -> bool
    ensures typed { (kind : ℕ) (rest : List ℕ) → fields.now ≡ 24 ∷ (kind ∷ rest)
        → IsTrue result → (integers : List ℕ) × (rest ≡ short_field GEOMETRY (bytes integers)) }
{
    match fields {
        [TYPE_TAG, _, rest @ ..] => match short_bytes_at(rest, 0, feature::GEOMETRY) {
            Some((_, end)) => end == rest.len(),
            None => false,
        },
        [TAGS_TAG, ..] => true,
        _ => false,
    }
}

/// How many keys and values stand from an offset on, with nothing but an extent or a version after
/// them. `None` if anything else does, there are many, or the first few of more aren't different.
/// Where few bytes are left, they aren't looked at.
pub(crate) fn counts_from(
    alloc: Global,
    body: &[u8],
    keys_at: usize,
) -> Result<Option<Counts>, AllocError>
    requires { keys_at ≤ length body.now }
{
    if body.len() - keys_at <= FEW_BYTES {
        return Ok(Some(Counts {
            keys: FIRST_COMPARED,
            values: FIRST_COMPARED,
        }));
    }
    let (keys, values_at) = fields_from(body, keys_at, layer::KEYS);
    let (values, end_at) = fields_from(body, values_at, layer::VALUES);
    if !may_end_behind(body, end_at) {
        return Ok(None);
    }
    if keys.max(values) <= FIRST_COMPARED {
        return Ok(Some(Counts { keys, values }));
    }
    if are_first_apart(alloc, body, keys_at, layer::KEYS)?
        && are_first_apart(alloc, body, values_at, layer::VALUES)?
    {
        return Ok(Some(Counts { keys, values }));
    }
    Ok(None)
}

/// Whether a payload ends at an offset, or an extent or a version may stand there. Yes means
/// nothing yet; no costs speed alone.
fn may_end_behind(body: &[u8], at: usize) -> bool
    requires { at ≤ length body.now }
    ensures { at ≡ length body.now → IsTrue result }
{
    match body.get(at) {
        Some(tag) => *tag == EXTENT_TAG || *tag == VERSION_TAG,
        None => true,
    }
}

/// How many fields of this number stand from an offset on, up to a bound, and the offset after
/// them.
fn fields_from(body: &[u8], start: usize, number: u32) -> (usize, usize)
    requires { start ≤ length body.now }
    ensures fields { AreFieldsFrom body.now start number result.0 result.1 }
    ensures few { result.0 ≤ 65536 }
{
    let mut count = 0;
    let mut at = start;
    while count < MOST_LISTED {
        match short_bytes_at(body, at, number) {
            Some((_, after)) => {
                at = after;
                count += 1;
            }
            None => return (count, at),
        }
    }
    (count, at)
}

/// Whether the first payloads of this number are different.
fn are_first_apart(
    alloc: Global,
    body: &[u8],
    start: usize,
    number: u32,
) -> Result<bool, AllocError>
    requires { start ≤ length body.now }
{
    let mut first: [&[u8]; FIRST_COMPARED] = [&[]; FIRST_COMPARED];
    let mut count = 0;
    let mut at = start;
    while count < FIRST_COMPARED {
        match short_bytes_at(body, at, number) {
            Some((payload, after)) => {
                first[count] = payload;
                at = after;
                count += 1;
            }
            None => break,
        }
    }
    are_distinct(alloc, &first[..count])
}
