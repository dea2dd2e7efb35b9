//! Values and features read, refused and written.
ghost use Rattle.mvt_geometry.specs.Valid.{IsValid};

use super::support::{KEYS, feature_with, made_with, point, repeated_keys};
use crate::expect::{expect, expect_eq};
use mvt_attrs::{
    Attribute, LayerEntries, LayerKeys, PoolError, TextRef, Value, ValueRef, lend_texts,
};
use mvt_base::{Items, Text};
use mvt_feature::*;
use mvt_geometry::Geometry;
use std::alloc::{AllocError, Global};
use std::process::Abort;

// The value of a payload whose field's tag stands at 14.
fn value_of(alloc: Global, payload: &[u8]) -> Result<Value, MessageError> {
    read_value(alloc, payload, 16, 14)
}

fn key(rt: &(impl Abort + AllocGlobal)) -> Text {
    Text::from_str(rt.alloc(), "k").expect(rt, "a key")
}

// What a feature's payload, which begins at 9, is refused for, with the key `k` and the value 5.
pub(crate) fn refused_for(rt: &(impl Abort + AllocGlobal), payload: &[u8]) -> Option<(u64, u32)> {
    let keys = [key(rt)];
    let error = read_feature(rt.alloc(), payload, 9, &keys, &[Value::Uint(5)]).err();
    drop(keys);
    error.map(place_of)
}

fn judged_over(alloc: Global, keys: &[&str], payload: &[u8]) -> Result<(), MessageError> {
    let mut keys = LayerKeys::new(alloc, keys);
    let mut scratch = Scratch::new(alloc);
    let judged = judge_feature(alloc, payload, 9, &mut keys, 1, &mut scratch);
    drop(scratch);
    drop(keys);
    judged
}

// The same where it is only judged.
fn judged_for(rt: &(impl Abort + AllocGlobal), payload: &[u8]) -> Option<(u64, u32)> {
    let judged = judged_over(rt.alloc(), &["k"], payload);
    judged.err().map(place_of)
}

// No cause has the number 0.
pub(crate) fn place_of(error: MessageError) -> (u64, u32) {
    match error {
        MessageError::Memory => (0, 0),
        MessageError::Fault { at, cause, .. } => (at, cause.number()),
    }
}

// Both calls say whether the feature can be written.
fn expect_valid(rt: &(impl Abort + AllocGlobal), feature: Feature, answer: bool) {
    expect_eq!(rt; is_valid_feature(&feature), answer);
    expect_eq!(rt; validate_feature(rt.alloc(), &feature), Ok(answer));
    drop(feature);
}

// A payload is this value, which is let go.
fn expect_value(rt: &(impl Abort + AllocGlobal), payload: &[u8], expected: Value) {
    let found = value_of(rt.alloc(), payload);
    expect!(rt; found.as_ref() == Ok(&expected));
    drop(found);
    drop(expected);
}

#[test]
fn reads_values(rt: HostRuntime) {
    expect_value(&rt, &[0x28, 0x05], Value::Uint(5));
    expect_value(&rt, &[0x28, 0x05, 0x28, 0x06], Value::Uint(6));
    expect_value(&rt, &[0x30, 0x0A], Value::Sint(5));
    expect_value(&rt, &[0x38, 0x07], Value::Bool(true));
    let minus_one = [
        0x20, 0xFF, 0xFF, 0xFF, 0xFF, 0xFF, 0xFF, 0xFF, 0xFF, 0xFF, 0x01,
    ];
    expect_value(&rt, &minus_one, Value::Int(-1));
    let float = [0x15, 0x00, 0x00, 0x00, 0x80];
    expect_value(&rt, &float, Value::Float(2147483648));
    expect_eq!(rt; judge_value(&float, 16, 14), Ok(()));
    let double = [0x19, 0x00, 0x00, 0x00, 0x00, 0x00, 0x00, 0x00, 0x80];
    expect_value(&rt, &double, Value::Double(9223372036854775808));
}

// A payload whose field's tag stands at 7, and its content at 9.
fn expect_no_kind(rt: &(impl Abort + AllocGlobal), payload: &[u8]) {
    let of_no_kind = MessageError::Fault {
        feature: None,
        at: 7,
        cause: Cause::ValueKind,
    };
    let found = read_value(rt.alloc(), payload, 9, 7).err();
    expect_eq!(rt; found, Some(of_no_kind));
    expect_eq!(rt; judge_value(payload, 9, 7), Err(of_no_kind));
}

#[test]
fn refuses_values(rt: HostRuntime) {
    let of_no_kind = MessageError::Fault {
        feature: None,
        at: 14,
        cause: Cause::ValueKind,
    };
    expect_eq!(rt; value_of(rt.alloc(), &[]).err(), Some(of_no_kind));
    expect_eq!(rt; judge_value(&[], 16, 14), Err(of_no_kind));
    expect_no_kind(&rt, &[0x20, 0x05, 0x28, 0x05]);
}

const ONE_POINT: [u8; 7] = [0x18, 0x01, 0x22, 0x03, 0x09, 0x32, 0x22];

// A feature is the point (25,17).
fn expect_point(rt: &(impl Abort + AllocGlobal), found: Result<Feature, MessageError>) {
    let expected = made_with(rt, &[]);
    expect!(rt; found.as_ref() == Ok(&expected));
    drop(expected);
    drop(found);
}

#[test]
fn reads_features(rt: HostRuntime) {
    let alloc = rt.alloc();
    let mut keys = LayerKeys::new(alloc, &[]);
    let mut scratch = Scratch::new(alloc);
    for _turn in 0..2 {
        let found = read_feature_in(alloc, &ONE_POINT, 9, &mut keys, &[], &mut scratch);
        expect_point(&rt, found);
    }
    drop(scratch);
    drop(keys);
    expect_point(&rt, read_feature(alloc, &ONE_POINT, 9, &[], &[]));
}

// A feature has no fields.
fn expect_bare(rt: &(impl Abort + AllocGlobal), feature: &Feature) {
    let empty = Geometry::Unknown(Items::new(Vec::new(rt.alloc())));
    expect!(rt; feature.id.is_none());
    expect!(rt; feature.attributes.as_slice().is_empty());
    expect!(rt; feature.geometry == empty);
    drop(empty);
}

#[test]
fn reads_bare_features(rt: HostRuntime) {
    let bare = read_feature(rt.alloc(), &[], 9, &[], &[]).expect(&rt, "a feature");
    expect_bare(&rt, &bare);
    drop(bare);
}

#[test]
fn refuses_features(rt: HostRuntime) {
    let far = [
        0x18, 0x01, 0x22, 0x09, 0x11, 0xFE, 0xFF, 0xFF, 0xFF, 0x0F, 0x00, 0x02, 0x00,
    ];
    let inner = [
        0x18, 0x03, 0x22, 0x09, 0x09, 0x28, 0x44, 0x12, 0x17, 0x2B, 0x09, 0x0B, 0x0F,
    ];
    let parameter = [
        0x18, 0x01, 0x22, 0x07, 0x09, 0xFF, 0xFF, 0xFF, 0xFF, 0x0F, 0x00,
    ];
    let rows: [(&[u8], u64, u32); 15] = [
        (&[0x22, 0x01, 0x80], 9, 1),
        (&[0x18, 0x04], 9, 12),
        (&[0x12, 0x01, 0x00], 1, 13),
        (&[0x12, 0x02, 0x01, 0x00], 0, 14),
        (&[0x12, 0x02, 0x00, 0x01], 1, 15),
        (&[0x12, 0x04, 0x00, 0x00, 0x00, 0x00], 2, 16),
        (&[0x18, 0x02, 0x22, 0x03, 0x0A, 0x02, 0x02], 0, 17),
        (&[0x18, 0x01, 0x22, 0x01, 0x01], 0, 18),
        (&[0x18, 0x01, 0x22, 0x01, 0x09], 0, 19),
        (
            &[0x18, 0x02, 0x22, 0x06, 0x09, 0x04, 0x04, 0x0A, 0x00, 0x00],
            4,
            20,
        ),
        (&far, 3, 21),
        (&inner, 8, 22),
        (&[0x18, 0x02, 0x22, 0x03, 0x09, 0x04, 0x04], 3, 23),
        (&parameter, 1, 26),
        (&[0x1B], 9, 4),
    ];
    for (payload, at, number) in rows {
        expect_eq!(rt; refused_for(&rt, payload), Some((at, number)));
        expect_eq!(rt; judged_for(&rt, payload), Some((at, number)));
    }
}

#[test]
fn writes_values(rt: HostRuntime) {
    let mut out = Vec::new(rt.alloc());
    expect_eq!(rt; append_value(&mut out, &ValueRef::Bool(true)), Ok(()));
    expect_eq!(rt; append_value(&mut out, &ValueRef::Uint(5)), Ok(()));
    expect_eq!(rt; out.as_slice(), [0x38, 0x01, 0x28, 0x05].as_slice());
    drop(out);
    expect_eq!(rt; value_len(&ValueRef::Text(TextRef::of("a"))), 3);
}

// What is appended of a feature, in a layer that has nothing yet.
fn appended(alloc: Global, out: &mut Vec<u8>, feature: &Feature) -> Result<(), PoolError>
    requires { IsValid feature.now.geometry }
{
    let mut uses = LayerEntries::new(alloc);
    let mut scratch = Scratch::new(alloc);
    let done = append_feature(feature, &mut uses, &mut scratch, out);
    drop(scratch);
    drop(uses);
    done
}

fn expect_written(rt: &(impl Abort + AllocGlobal), feature: &Feature, expected: &[u8]) {
    expect!(rt; is_valid_feature(feature));
    let mut out = Vec::new(rt.alloc());
    expect_eq!(rt; appended(rt.alloc(), &mut out, feature), Ok(()));
    expect_eq!(rt; out.as_slice(), expected);
    drop(out);
}

fn expect_copy(rt: &(impl Abort + AllocGlobal), feature: &Feature) {
    let copy = feature.copy(rt.alloc()).expect(rt, "a copy");
    expect!(rt; copy == *feature);
    drop(copy);
}

#[test]
fn writes_features(rt: HostRuntime) {
    let feature = made_with(&rt, &["k"]);
    expect_copy(&rt, &feature);
    let expected = [
        0x12, 0x02, 0x00, 0x00, 0x18, 0x01, 0x22, 0x03, 0x09, 0x32, 0x22,
    ];
    expect_written(&rt, &feature, &expected);
    drop(feature);
}

// Around the number of attributes up to which keys are compared one by one, and many.
const COUNTS: [u32; 12] = [0, 1, 2, 8, 9, 15, 16, 17, 33, 49, 100, 1000];

// A feature with so many attributes, whose values are alike.
fn numbered(rt: &(impl Abort + AllocGlobal), count: u32) -> Feature {
    let mut attributes = Vec::new(rt.alloc());
    for number in 0..count {
        let text = format!(in rt.alloc(); "{number}").expect(rt, "a text");
        let key = Text::from_string(text).expect(rt, "a key");
        let value = Value::Uint(5);
        attributes
            .push(Attribute { key, value })
            .expect(rt, "an attribute");
    }
    let mut feature = made_with(rt, &[]);
    feature.attributes = Items::new(attributes);
    feature
}

fn keys_of(rt: &(impl Abort + AllocGlobal), feature: &Feature) -> Vec<Text> {
    let mut keys = Vec::new(rt.alloc());
    for attribute in feature.attributes.as_slice() {
        let key = attribute.key.copy(rt.alloc()).expect(rt, "a key");
        keys.push(key).expect(rt, "keys");
    }
    keys
}

// A payload over these keys and the value 5 is this feature.
fn expect_read(rt: &(impl Abort + AllocGlobal), payload: &[u8], keys: &[Text], feature: &Feature) {
    let found = read_feature(rt.alloc(), payload, 9, keys, &[Value::Uint(5)]);
    expect!(rt; found.as_ref() == Ok(feature));
    drop(found);
    let lent = lend_texts(rt.alloc(), keys).expect(rt, "memory");
    expect_eq!(rt; judged_over(rt.alloc(), &lent, payload), Ok(()));
    drop(lent);
}

// What is written of a feature is read as it.
fn expect_read_back(rt: &(impl Abort + AllocGlobal), feature: &Feature) {
    expect!(rt; is_valid_feature(feature));
    let mut bytes = Vec::new(rt.alloc());
    expect_eq!(rt; appended(rt.alloc(), &mut bytes, feature), Ok(()));
    let keys = keys_of(rt, feature);
    expect_read(rt, &bytes, &keys, feature);
    drop(keys);
    drop(bytes);
}

#[test]
fn reads_any_number_of_attributes(rt: HostRuntime) {
    for count in COUNTS {
        let feature = numbered(&rt, count);
        expect_read_back(&rt, &feature);
        drop(feature);
    }
}

#[test]
fn validates(rt: HostRuntime) {
    expect_valid(&rt, made_with(&rt, &[]), true);
    expect_valid(&rt, made_with(&rt, &["k"]), true);
    expect_valid(&rt, made_with(&rt, &["k", "k"]), false);
    expect_valid(&rt, made_with(&rt, &KEYS), true);
    expect_valid(&rt, made_with(&rt, &repeated_keys()), false);
}

// No integers draw this point.
#[test]
fn validates_far_points(rt: HostRuntime) {
    let mut far = made_with(&rt, &KEYS);
    far.geometry = point(rt.alloc(), -2_147_483_648, 0).expect(&rt, "a point");
    expect_valid(&rt, far, false);
}

// The tests of refused growths pass too where one allocation, whichever, is refused: each call has
// two turns, of which one at most may want memory.

fn is_text_refused(rt: &(impl Abort + AllocGlobal)) -> bool {
    match value_of(rt.alloc(), b"\x0A\x12a text of 18 bytes") {
        Ok(value) => {
            let Value::Text(text) = &value else {
                expect!(rt; false);
                return false;
            };
            expect_eq!(rt; text.as_str(), "a text of 18 bytes");
            drop(value);
            false
        }
        Err(error) => {
            expect_eq!(rt; error, MessageError::Memory);
            true
        }
    }
}

// A point with the id 7.
const POINT_OF_ID: [u8; 9] = [0x08, 0x07, 0x18, 0x01, 0x22, 0x03, 0x09, 0x32, 0x22];

fn is_judge_refused(rt: &(impl Abort + AllocGlobal)) -> bool {
    let judged = judged_over(rt.alloc(), &["k"], &POINT_OF_ID);
    expect!(rt; judged == Ok(()) || judged == Err(MessageError::Memory));
    judged.is_err()
}

fn is_read_refused(rt: &(impl Abort + AllocGlobal)) -> bool {
    match read_feature(rt.alloc(), &POINT_OF_ID, 0, &[], &[]) {
        Ok(feature) => {
            expect_eq!(rt; feature.id, Some(7));
            drop(feature);
            false
        }
        Err(error) => {
            expect_eq!(rt; error, MessageError::Memory);
            true
        }
    }
}

#[test]
fn refused_reads(rt: HostRuntime) {
    let mut refused = 0u8;
    for _turn in 0..2 {
        refused = refused.saturating_add(u8::from(is_text_refused(&rt)));
        refused = refused.saturating_add(u8::from(is_judge_refused(&rt)));
        refused = refused.saturating_add(u8::from(is_read_refused(&rt)));
    }
    expect!(rt; refused < 2);
}

fn is_copy_refused(rt: &(impl Abort + AllocGlobal), feature: &Feature) -> bool {
    match feature.copy(rt.alloc()) {
        Ok(copy) => {
            expect!(rt; copy == *feature);
            drop(copy);
            false
        }
        Err(AllocError) => true,
    }
}

fn is_write_refused(rt: &(impl Abort + AllocGlobal), feature: &Feature) -> bool {
    expect!(rt; is_valid_feature(feature));
    let mut out = Vec::new(rt.alloc());
    let error = appended(rt.alloc(), &mut out, feature).err();
    let is_refused = error.is_some();
    if is_refused {
        expect_eq!(rt; error, Some(PoolError::Memory));
    } else {
        expect_eq!(rt; out.len(), 11);
    }
    drop(out);
    is_refused
}

// How often a feature was refused memory, which is made, copied and written.
fn write_refusals(rt: &(impl Abort + AllocGlobal)) -> u8 {
    let Ok(feature) = feature_with(rt.alloc(), &["a text of 18 bytes"]) else {
        return 1;
    };
    let copied = u8::from(is_copy_refused(rt, &feature));
    let written = u8::from(is_write_refused(rt, &feature));
    drop(feature);
    copied.saturating_add(written)
}

#[test]
fn refused_writes(rt: HostRuntime) {
    let first = write_refusals(&rt);
    let second = write_refusals(&rt);
    expect!(rt; first.saturating_add(second) < 2);
}

fn is_validation_refused(rt: &(impl Abort + AllocGlobal), keys: &[&str], answer: bool) -> bool {
    let Ok(feature) = feature_with(rt.alloc(), keys) else {
        return true;
    };
    let found = validate_feature(rt.alloc(), &feature);
    drop(feature);
    expect!(rt; found == Ok(answer) || found == Err(AllocError));
    found.is_err()
}

#[test]
fn refused_validations(rt: HostRuntime) {
    let repeated = repeated_keys();
    let rows: [(&[&str], bool); 3] = [(&["k", "k"], false), (&KEYS, true), (&repeated, false)];
    let mut refused = 0u8;
    for (keys, answer) in rows {
        for _turn in 0..2 {
            let is_refused = is_validation_refused(&rt, keys, answer);
            refused = refused.saturating_add(u8::from(is_refused));
        }
    }
    expect!(rt; refused < 2);
}
