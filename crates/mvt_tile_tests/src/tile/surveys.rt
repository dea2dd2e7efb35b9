//! Surveys of layers that are canonical, and of those that differ in one thing, beside what the
//! decoded tile says.
use super::rows::*;
use super::support::{both_of, expect_survey};
use crate::expect::expect;
use mvt_tile::{DecodeError, Note, decode, encode, notes, survey_tile};
use std::alloc::{AllocError, Global};
use std::process::Abort;

// A feature of id 7 with the attributes `a` of true and `b` of false.
const TWO_TAGS: &[u8] = b"\x1A\x27\x78\x02\x0A\x01\x61\
    \x12\x0F\x08\x07\x12\x04\x00\x00\x01\x01\x18\x01\x22\x03\x09\x32\x22\
    \x1A\x01\x61\x1A\x01\x62\x22\x02\x38\x01\x22\x02\x38\x00\x28\x80\x20";

// The same by tags in another order, with an id of a byte more, with an unknown field in the
// feature, and with a feature that repeats the id behind it.
const TAGS_TURNED: &[u8] = b"\x1A\x27\x78\x02\x0A\x01\x61\
    \x12\x0F\x08\x07\x12\x04\x01\x01\x00\x00\x18\x01\x22\x03\x09\x32\x22\
    \x1A\x01\x61\x1A\x01\x62\x22\x02\x38\x01\x22\x02\x38\x00\x28\x80\x20";

const LONG_ID: &[u8] = b"\x1A\x28\x78\x02\x0A\x01\x61\
    \x12\x10\x08\x87\x00\x12\x04\x00\x00\x01\x01\x18\x01\x22\x03\x09\x32\x22\
    \x1A\x01\x61\x1A\x01\x62\x22\x02\x38\x01\x22\x02\x38\x00\x28\x80\x20";

const UNKNOWN_FIELD: &[u8] = b"\x1A\x29\x78\x02\x0A\x01\x61\
    \x12\x11\x08\x07\x12\x04\x00\x00\x01\x01\x18\x01\x22\x03\x09\x32\x22\x28\x01\
    \x1A\x01\x61\x1A\x01\x62\x22\x02\x38\x01\x22\x02\x38\x00\x28\x80\x20";

const ID_REPEATED: &[u8] = b"\x1A\x32\x78\x02\x0A\x01\x61\
    \x12\x0F\x08\x07\x12\x04\x00\x00\x01\x01\x18\x01\x22\x03\x09\x32\x22\
    \x12\x09\x08\x07\x18\x01\x22\x03\x09\x32\x22\
    \x1A\x01\x61\x1A\x01\x62\x22\x02\x38\x01\x22\x02\x38\x00\x28\x80\x20";

// With a value that no feature uses, and a key; with its value twice; with its extent in a byte
// more; with a length in a byte more.
const UNUSED_VALUE: &[u8] = b"\x1A\x2B\x78\x02\x0A\x01\x61\
    \x12\x0F\x08\x07\x12\x04\x00\x00\x01\x01\x18\x01\x22\x03\x09\x32\x22\
    \x1A\x01\x61\x1A\x01\x62\x22\x02\x38\x01\x22\x02\x38\x00\x22\x02\x30\x09\x28\x80\x20";

const UNUSED_KEY: &[u8] = b"\x1A\x2A\x78\x02\x0A\x01\x61\
    \x12\x0F\x08\x07\x12\x04\x00\x00\x01\x01\x18\x01\x22\x03\x09\x32\x22\
    \x1A\x01\x61\x1A\x01\x62\x1A\x01\x63\x22\x02\x38\x01\x22\x02\x38\x00\x28\x80\x20";

const VALUE_TWICE: &[u8] = b"\x1A\x27\x78\x02\x0A\x01\x61\
    \x12\x0F\x08\x07\x12\x04\x00\x00\x01\x01\x18\x01\x22\x03\x09\x32\x22\
    \x1A\x01\x61\x1A\x01\x62\x22\x02\x38\x01\x22\x02\x38\x01\x28\x80\x20";

const LONG_EXTENT: &[u8] = b"\x1A\x28\x78\x02\x0A\x01\x61\
    \x12\x0F\x08\x07\x12\x04\x00\x00\x01\x01\x18\x01\x22\x03\x09\x32\x22\
    \x1A\x01\x61\x1A\x01\x62\x22\x02\x38\x01\x22\x02\x38\x00\x28\x80\xA0\x00";

const LONG_LENGTH: &[u8] = b"\x1A\xA7\x00\x78\x02\x0A\x01\x61\
    \x12\x0F\x08\x07\x12\x04\x00\x00\x01\x01\x18\x01\x22\x03\x09\x32\x22\
    \x1A\x01\x61\x1A\x01\x62\x22\x02\x38\x01\x22\x02\x38\x00\x28\x80\x20";

// With its version behind it too, and with another version there.
const VERSION_TWICE: &[u8] = b"\x1A\x29\x78\x02\x0A\x01\x61\
    \x12\x0F\x08\x07\x12\x04\x00\x00\x01\x01\x18\x01\x22\x03\x09\x32\x22\
    \x1A\x01\x61\x1A\x01\x62\x22\x02\x38\x01\x22\x02\x38\x00\x28\x80\x20\x78\x02";

const OTHER_VERSION: &[u8] = b"\x1A\x29\x78\x02\x0A\x01\x61\
    \x12\x0F\x08\x07\x12\x04\x00\x00\x01\x01\x18\x01\x22\x03\x09\x32\x22\
    \x1A\x01\x61\x1A\x01\x62\x22\x02\x38\x01\x22\x02\x38\x00\x28\x80\x20\x78\x01";

#[test]
fn surveys_canonical_layers_but_for_one_thing(rt: HostRuntime) {
    let repeated = [Note::RepeatedId(0, 1, 0)];
    let foreign = [Note::Foreign(0, 1)];
    let rows: [(&[u8], u128, bool, &[Note]); 12] = [
        (TWO_TAGS, 1, true, &[]),
        (ID_REPEATED, 2, true, &repeated),
        (OTHER_VERSION, 0, true, &foreign),
        (TAGS_TURNED, 1, false, &[]),
        (LONG_ID, 1, false, &[]),
        (UNKNOWN_FIELD, 1, false, &[]),
        (UNUSED_VALUE, 1, false, &[]),
        (UNUSED_KEY, 1, false, &[]),
        (VALUE_TWICE, 1, false, &[]),
        (LONG_EXTENT, 1, false, &[]),
        (LONG_LENGTH, 1, false, &[]),
        (VERSION_TWICE, 1, false, &[]),
    ];
    for (input, features, is_canonical, notes) in rows {
        expect_survey(&rt, input, (1, features), is_canonical, notes);
    }
}

fn expect_both(rt: &(impl Abort + AllocGlobal), front: &[u8], back: &[u8], is_canonical: bool) {
    let both = both_of(rt, front, back);
    expect_survey(rt, &both, (2, 2), is_canonical, &[]);
    drop(both);
}

// A second layer that is canonical, or isn't.
#[test]
fn surveys_behind_a_canonical_layer(rt: HostRuntime) {
    expect_both(&rt, TWO_TAGS, ONE_POINT_B, true);
    expect_both(&rt, ONE_POINT_B, TWO_TAGS, true);
    expect_both(&rt, ONE_POINT_B, TAGS_TURNED, false);
    expect_both(&rt, ONE_POINT_B, UNUSED_VALUE, false);
    expect_both(&rt, UNUSED_VALUE, ONE_POINT_B, false);
    let longer = both_of(&rt, TWO_TAGS, b"\x20\x05");
    expect_survey(&rt, &longer, (1, 1), false, &[]);
    drop(longer);
}

// What the decoded tile says: whether the input is what it is encoded as, and its notes.
fn told_by_value(alloc: Global, input: &[u8]) -> Result<(bool, Vec<Note>), DecodeError> {
    let tile = decode(alloc, input)?;
    let found = notes(alloc, &tile);
    let bytes = encode(alloc, &tile);
    drop(tile);
    let notes = found?;
    match bytes {
        Ok(bytes) => Ok((bytes.as_slice() == input, notes)),
        Err(_) => Err(DecodeError::Memory),
    }
}

fn told_by_survey(alloc: Global, input: &[u8]) -> Result<(bool, Vec<Note>), DecodeError> {
    let survey = survey_tile(alloc, input)?;
    match Vec::from_slice(alloc, survey.notes.as_slice()) {
        Ok(notes) => Ok((survey.is_canonical, notes)),
        Err(_) => Err(DecodeError::Memory),
    }
}

// The input with its byte at an index changed in one of three ways: by its lowest bit, by one, and
// to the same number in a byte more.
pub(crate) fn changed(
    alloc: Global,
    input: &[u8],
    at: usize,
    way: u8,
) -> Result<Vec<u8>, AllocError> {
    let mut bytes = Vec::new(alloc);
    for (index, byte) in input.iter().enumerate() {
        if index != at {
            bytes.push(*byte)?;
        } else if way == 0 {
            bytes.push(*byte ^ 1)?;
        } else if way == 1 {
            bytes.push(byte.wrapping_add(1))?;
        } else {
            bytes.push(*byte | 0x80)?;
            bytes.push(0)?;
        }
    }
    Ok(bytes)
}

fn expect_same(rt: &(impl Abort + AllocGlobal), input: &[u8]) {
    let found = told_by_survey(rt.alloc(), input);
    let expected = told_by_value(rt.alloc(), input);
    expect!(rt; found == expected);
    drop(found);
    drop(expected);
}

fn expect_same_changed(rt: &(impl Abort + AllocGlobal), input: &[u8]) {
    expect_same(rt, input);
    for at in 0..input.len() {
        for way in 0..3u8 {
            let bytes = changed(rt.alloc(), input, at, way).expect(rt, "bytes");
            expect_same(rt, &bytes);
            drop(bytes);
        }
    }
}

#[test]
fn surveys_say_what_tiles_say(rt: HostRuntime) {
    for input in [ID_REPEATED, RINGS, CLOSED_LINE] {
        expect_same_changed(&rt, input);
    }
}

#[test]
fn surveys_say_what_tiles_of_all_kinds_say(rt: HostRuntime) {
    expect_same_changed(&rt, KINDS_CANONICAL);
}
