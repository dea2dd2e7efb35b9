//! Layers that are copied, beside the same made anew field by field.
use crate::expect::expect;
use mvt_geometry::Ignore;
use mvt_message::*;
use std::alloc::{AllocError, Global};
use std::process::Abort;

// Layers whose fields are canonical, and whose version stands behind them: of more values than are
// compared with one another, of each kind, and of few.
pub(crate) const MANY_VALUES: [u8; 157] = [
    0x0A, 0x05, 0x72, 0x6F, 0x61, 0x64, 0x73, 0x12, 0x0F, 0x08, 0x07, 0x12, 0x04, 0x00, 0x00, 0x01,
    0x01, 0x18, 0x01, 0x22, 0x03, 0x09, 0x32, 0x22, 0x12, 0x11, 0x12, 0x04, 0x00, 0x02, 0x01, 0x03,
    0x18, 0x02, 0x22, 0x07, 0x09, 0x00, 0x00, 0x0A, 0x04, 0xAC, 0x02, 0x12, 0x16, 0x08, 0xAC, 0x02,
    0x12, 0x04, 0x00, 0x04, 0x01, 0x05, 0x18, 0x03, 0x22, 0x09, 0x09, 0x00, 0x00, 0x12, 0x04, 0x00,
    0x03, 0x04, 0x0F, 0x12, 0x0D, 0x12, 0x04, 0x00, 0x06, 0x01, 0x07, 0x18, 0x01, 0x22, 0x03, 0x09,
    0x32, 0x22, 0x12, 0x0B, 0x12, 0x02, 0x01, 0x08, 0x18, 0x01, 0x22, 0x03, 0x09, 0x01, 0x01, 0x1A,
    0x01, 0x61, 0x1A, 0x02, 0x62, 0x63, 0x22, 0x03, 0x0A, 0x01, 0x78, 0x22, 0x05, 0x15, 0x00, 0x00,
    0x80, 0x3F, 0x22, 0x09, 0x19, 0x00, 0x00, 0x00, 0x00, 0x00, 0x00, 0x00, 0x40, 0x22, 0x02, 0x20,
    0x05, 0x22, 0x03, 0x28, 0xC8, 0x01, 0x22, 0x02, 0x30, 0x09, 0x22, 0x02, 0x38, 0x01, 0x22, 0x02,
    0x38, 0x00, 0x22, 0x04, 0x0A, 0x02, 0x79, 0x79, 0x28, 0x80, 0x20, 0x78, 0x02,
];

// The first of them, with version, name and extent in front, as vt-pbf writes layers.
const EXTENT_IN_FRONT: [u8; 157] = [
    0x78, 0x02, 0x0A, 0x05, 0x72, 0x6F, 0x61, 0x64, 0x73, 0x28, 0x80, 0x20, 0x12, 0x0F, 0x08, 0x07,
    0x12, 0x04, 0x00, 0x00, 0x01, 0x01, 0x18, 0x01, 0x22, 0x03, 0x09, 0x32, 0x22, 0x12, 0x11, 0x12,
    0x04, 0x00, 0x02, 0x01, 0x03, 0x18, 0x02, 0x22, 0x07, 0x09, 0x00, 0x00, 0x0A, 0x04, 0xAC, 0x02,
    0x12, 0x16, 0x08, 0xAC, 0x02, 0x12, 0x04, 0x00, 0x04, 0x01, 0x05, 0x18, 0x03, 0x22, 0x09, 0x09,
    0x00, 0x00, 0x12, 0x04, 0x00, 0x03, 0x04, 0x0F, 0x12, 0x0D, 0x12, 0x04, 0x00, 0x06, 0x01, 0x07,
    0x18, 0x01, 0x22, 0x03, 0x09, 0x32, 0x22, 0x12, 0x0B, 0x12, 0x02, 0x01, 0x08, 0x18, 0x01, 0x22,
    0x03, 0x09, 0x01, 0x01, 0x1A, 0x01, 0x61, 0x1A, 0x02, 0x62, 0x63, 0x22, 0x03, 0x0A, 0x01, 0x78,
    0x22, 0x05, 0x15, 0x00, 0x00, 0x80, 0x3F, 0x22, 0x09, 0x19, 0x00, 0x00, 0x00, 0x00, 0x00, 0x00,
    0x00, 0x40, 0x22, 0x02, 0x20, 0x05, 0x22, 0x03, 0x28, 0xC8, 0x01, 0x22, 0x02, 0x30, 0x09, 0x22,
    0x02, 0x38, 0x01, 0x22, 0x02, 0x38, 0x00, 0x22, 0x04, 0x0A, 0x02, 0x79, 0x79,
];

// The first of them, whose last feature has an id of 0 that takes two bytes.
const LATE_ID: [u8; 160] = [
    0x0A, 0x05, 0x72, 0x6F, 0x61, 0x64, 0x73, 0x12, 0x0F, 0x08, 0x07, 0x12, 0x04, 0x00, 0x00, 0x01,
    0x01, 0x18, 0x01, 0x22, 0x03, 0x09, 0x32, 0x22, 0x12, 0x11, 0x12, 0x04, 0x00, 0x02, 0x01, 0x03,
    0x18, 0x02, 0x22, 0x07, 0x09, 0x00, 0x00, 0x0A, 0x04, 0xAC, 0x02, 0x12, 0x16, 0x08, 0xAC, 0x02,
    0x12, 0x04, 0x00, 0x04, 0x01, 0x05, 0x18, 0x03, 0x22, 0x09, 0x09, 0x00, 0x00, 0x12, 0x04, 0x00,
    0x03, 0x04, 0x0F, 0x12, 0x0D, 0x12, 0x04, 0x00, 0x06, 0x01, 0x07, 0x18, 0x01, 0x22, 0x03, 0x09,
    0x32, 0x22, 0x12, 0x0E, 0x08, 0x80, 0x00, 0x12, 0x02, 0x01, 0x08, 0x18, 0x01, 0x22, 0x03, 0x09,
    0x01, 0x01, 0x1A, 0x01, 0x61, 0x1A, 0x02, 0x62, 0x63, 0x22, 0x03, 0x0A, 0x01, 0x78, 0x22, 0x05,
    0x15, 0x00, 0x00, 0x80, 0x3F, 0x22, 0x09, 0x19, 0x00, 0x00, 0x00, 0x00, 0x00, 0x00, 0x00, 0x40,
    0x22, 0x02, 0x20, 0x05, 0x22, 0x03, 0x28, 0xC8, 0x01, 0x22, 0x02, 0x30, 0x09, 0x22, 0x02, 0x38,
    0x01, 0x22, 0x02, 0x38, 0x00, 0x22, 0x04, 0x0A, 0x02, 0x79, 0x79, 0x28, 0x80, 0x20, 0x78, 0x02,
];

pub(crate) const FEW_VALUES: [u8; 41] = [
    0x0A, 0x01, 0x62, 0x12, 0x0F, 0x08, 0x07, 0x12, 0x04, 0x00, 0x00, 0x01, 0x01, 0x18, 0x01, 0x22,
    0x03, 0x09, 0x32, 0x22, 0x1A, 0x01, 0x61, 0x1A, 0x02, 0x62, 0x63, 0x22, 0x03, 0x0A, 0x01, 0x78,
    0x22, 0x02, 0x38, 0x01, 0x28, 0x80, 0x04, 0x78, 0x02,
];

// The canonical bytes of a short payload, made field by field.
fn make_anew(alloc: Global, payload: &[u8], out: &mut Vec<u8>) -> Result<(), MessageError> {
    if payload.len() > 1000 {
        return Err(MessageError::Memory);
    }
    let mut rewriter = LayerRewriter::new(alloc, Ignore, payload.len())?;
    let visited = visit_version_2(alloc, &mut rewriter, payload, 2, 0)?;
    match rewriter.finish(visited) {
        Rewritten::Layer(layer) => {
            layer.append_head(out)?;
            out.extend_from_slice(layer.features())?;
            layer.append_tail(out)?;
        }
        Rewritten::Foreign(_) => out.extend_from_slice(payload)?,
    }
    Ok(())
}

fn rewrite_short(alloc: Global, payload: &[u8], out: &mut Vec<u8>) -> Result<(), MessageError> {
    if payload.len() > 1000 {
        return Err(MessageError::Memory);
    }
    match rewrite_item(alloc, payload, 2, 0, out) {
        Ok(_) => Ok(()),
        Err(error) => Err(error),
    }
}

// Whether both ways answer the same.
fn are_same(alloc: Global, payload: &[u8]) -> bool {
    let mut anew = Vec::new(alloc);
    let mut found = Vec::new(alloc);
    let first = make_anew(alloc, payload, &mut anew);
    let second = rewrite_short(alloc, payload, &mut found);
    first == second && (first.is_err() || anew.as_slice() == found.as_slice())
}

// The payload with its byte at an index changed in one of four ways: by its lowest bit, by one, to
// a number of a byte more, and left out.
pub(crate) fn changed(
    alloc: Global,
    payload: &[u8],
    at: usize,
    way: u8,
) -> Result<Vec<u8>, AllocError> {
    let mut bytes = Vec::new(alloc);
    for (index, byte) in payload.iter().enumerate() {
        if index != at {
            bytes.push(*byte)?;
        } else if way == 0 {
            bytes.push(*byte ^ 1)?;
        } else if way == 1 {
            bytes.push(byte.wrapping_add(1))?;
        } else if way == 2 {
            bytes.push(*byte | 0x80)?;
            bytes.push(0)?;
        }
    }
    Ok(bytes)
}

fn expect_same(rt: &(impl Abort + AllocGlobal), payload: &[u8]) {
    expect!(rt; are_same(rt.alloc(), payload));
    for at in 0..payload.len() {
        for way in 0..4u8 {
            let bytes = changed(rt.alloc(), payload, at, way).expect(rt, "a payload");
            expect!(rt; are_same(rt.alloc(), &bytes));
            drop(bytes);
        }
    }
}

#[test]
fn copies_as_it_rewrites_many(rt: HostRuntime) {
    expect_same(&rt, &MANY_VALUES);
}

#[test]
fn copies_as_it_rewrites_few(rt: HostRuntime) {
    expect_same(&rt, &FEW_VALUES);
}

// The version in front, in the middle, and twice.
#[test]
fn copies_with_the_version_elsewhere(rt: HostRuntime) {
    expect_same(&rt, b"\x78\x02\x0A\x01a\x28\x80\x20");
    expect_same(&rt, b"\x0A\x01a\x78\x02\x28\x80\x20");
    expect_same(&rt, b"\x0A\x01a\x28\x80\x20\x78\x02\x78\x02");
    expect_same(&rt, b"\x78\x02\x0A\x01a\x28\x80\x20\x78\x02");
}

// Version, name and extent in front, each in front or behind, and in other orders.
#[test]
fn copies_whatever_stands_around(rt: HostRuntime) {
    expect_same(&rt, &EXTENT_IN_FRONT);
    expect_same(&rt, b"\x0A\x01a\x28\x80\x20\x78\x02");
    expect_same(
        &rt,
        b"\x28\x80\x04\x78\x02\x0A\x01b\x12\x07\x18\x01\x22\x03\x09\x32\x22",
    );
    expect_same(
        &rt,
        b"\x0A\x01b\x78\x02\x12\x07\x18\x01\x22\x03\x09\x32\x22\x28\x80\x04",
    );
    expect_same(
        &rt,
        b"\x28\x80\x04\x0A\x01b\x12\x07\x18\x01\x22\x03\x09\x32\x22\x78\x02",
    );
    expect_same(
        &rt,
        b"\x0A\x01b\x12\x07\x18\x01\x22\x03\x09\x32\x22\x78\x02\x28\x80\x04",
    );
    expect_same(
        &rt,
        b"\x28\x80\x04\x12\x07\x18\x01\x22\x03\x09\x32\x22\x0A\x01b\x78\x02",
    );
}

// A name, an extent and a version in front and another behind, which counts, or both in front.
#[test]
fn copies_none_of_what_stands_twice(rt: HostRuntime) {
    expect_same(
        &rt,
        b"\x78\x02\x0A\x01b\x28\x80\x04\x12\x07\x18\x01\x22\x03\x09\x32\x22\x28\x80\x20",
    );
    expect_same(
        &rt,
        b"\x78\x02\x0A\x01b\x28\x80\x04\x12\x07\x18\x01\x22\x03\x09\x32\x22\x0A\x01c",
    );
    expect_same(
        &rt,
        b"\x78\x02\x0A\x01b\x28\x80\x04\x12\x07\x18\x01\x22\x03\x09\x32\x22\x78\x02",
    );
    expect_same(
        &rt,
        b"\x78\x02\x0A\x01b\x0A\x01c\x28\x80\x04\x12\x07\x18\x01\x22\x03\x09\x32\x22",
    );
    expect_same(
        &rt,
        b"\x78\x02\x28\x80\x04\x28\x80\x20\x0A\x01b\x12\x07\x18\x01\x22\x03\x09\x32\x22",
    );
}

// Keys and values behind those that the features use: both, of one kind alone, and all of them,
// where the features have no tags and where there are none.
#[test]
fn copies_but_for_what_is_unused(rt: HostRuntime) {
    expect_same(
        &rt,
        b"\x0A\x01b\x12\x0B\x12\x02\x00\x00\x18\x01\x22\x03\x09\x32\x22\
          \x1A\x01a\x1A\x02bc\x22\x03\x0A\x01x\x22\x02\x38\x01\x28\x80\x04\x78\x02",
    );
    expect_same(
        &rt,
        b"\x0A\x01b\x12\x0B\x12\x02\x00\x00\x18\x01\x22\x03\x09\x32\x22\
          \x1A\x01a\x1A\x02bc\x1A\x00\x22\x02\x38\x01\x28\x80\x04\x78\x02",
    );
    expect_same(
        &rt,
        b"\x78\x02\x0A\x01b\x12\x0B\x12\x02\x00\x00\x18\x01\x22\x03\x09\x32\x22\
          \x1A\x01a\x22\x02\x38\x01\x22\x02\x20\x05\x22\x02\x30\x05\x28\x80\x04",
    );
    expect_same(
        &rt,
        b"\x78\x02\x0A\x01b\x12\x07\x18\x01\x22\x03\x09\x32\x22\
          \x1A\x01a\x22\x02\x38\x01\x28\x80\x04",
    );
    expect_same(
        &rt,
        b"\x0A\x01b\x1A\x01a\x22\x02\x38\x01\x28\x80\x04\x78\x02",
    );
}

// An unused key before one that is used, unused keys that are the same, and unused values that are
// the same, spelled too long, and broken.
#[test]
fn copies_nothing_else_that_is_unused(rt: HostRuntime) {
    expect_same(
        &rt,
        b"\x0A\x01b\x12\x0D\x12\x04\x00\x00\x02\x01\x18\x01\x22\x03\x09\x32\x22\
          \x1A\x01a\x1A\x01b\x1A\x01c\x22\x02\x38\x01\x22\x02\x20\x05\x28\x80\x04\x78\x02",
    );
    expect_same(
        &rt,
        b"\x0A\x01b\x12\x0B\x12\x02\x00\x00\x18\x01\x22\x03\x09\x32\x22\
          \x1A\x01a\x1A\x01b\x1A\x01b\x22\x02\x38\x01\x28\x80\x04\x78\x02",
    );
    expect_same(
        &rt,
        b"\x0A\x01b\x12\x0B\x12\x02\x00\x00\x18\x01\x22\x03\x09\x32\x22\
          \x1A\x01a\x22\x02\x38\x01\x22\x02\x20\x05\x22\x02\x20\x05\x28\x80\x04\x78\x02",
    );
    expect_same(
        &rt,
        b"\x0A\x01b\x12\x0B\x12\x02\x00\x00\x18\x01\x22\x03\x09\x32\x22\
          \x1A\x01a\x22\x02\x38\x01\x22\x03\x20\x85\x00\x28\x80\x04\x78\x02",
    );
    expect_same(
        &rt,
        b"\x0A\x01b\x12\x0B\x12\x02\x00\x00\x18\x01\x22\x03\x09\x32\x22\
          \x1A\x01a\x22\x02\x38\x01\x22\x01\x38\x28\x80\x04\x78\x02",
    );
}

// What stands behind canonical features: an unused value in the middle, a value twice, and a last
// feature whose id is spelled too long.
#[test]
fn goes_on_behind_canonical_features(rt: HostRuntime) {
    expect_same(
        &rt,
        b"\x0A\x01b\x12\x0B\x12\x02\x00\x00\x18\x01\x22\x03\x09\x32\x22\
          \x12\x0B\x12\x02\x00\x02\x18\x01\x22\x03\x09\x32\x22\
          \x1A\x01a\x22\x02\x38\x01\x22\x02\x20\x05\x22\x02\x30\x05\x28\x80\x04\x78\x02",
    );
    expect_same(
        &rt,
        b"\x0A\x01b\x12\x0B\x12\x02\x00\x00\x18\x01\x22\x03\x09\x32\x22\
          \x12\x0B\x12\x02\x00\x01\x18\x01\x22\x03\x09\x32\x22\
          \x1A\x01a\x22\x02\x38\x01\x22\x02\x38\x01\x28\x80\x04\x78\x02",
    );
    expect_same(
        &rt,
        b"\x78\x02\x0A\x01b\x12\x0B\x12\x02\x00\x00\x18\x01\x22\x03\x09\x32\x22\
          \x12\x0E\x08\x81\x00\x12\x02\x00\x01\x18\x01\x22\x03\x09\x32\x22\
          \x1A\x01a\x22\x02\x38\x01\x22\x02\x20\x05\x28\x80\x04",
    );
}

// A list with room for all that is written into it.
fn roomy(rt: &(impl Abort + AllocGlobal)) -> Vec<u8> {
    Vec::with_capacity(rt.alloc(), 200).expect(rt, "room")
}

// A layer that is copied asks for memory less often than one that is made canonical behind its
// first features, and than the same made anew (tests/refusals).
fn expect_rewritten(rt: &(impl Abort + AllocGlobal), payload: &[u8]) {
    let mut out = roomy(rt);
    expect!(rt; rewrite_short(rt.alloc(), payload, &mut out).is_ok());
    expect!(rt; out.len() < 200);
    drop(out);
}

#[test]
fn asks_least_to_copy(rt: HostRuntime) {
    expect_rewritten(&rt, &MANY_VALUES);
}

#[test]
fn asks_least_with_the_extent_in_front(rt: HostRuntime) {
    expect_rewritten(&rt, &EXTENT_IN_FRONT);
}

#[test]
fn asks_more_to_go_on(rt: HostRuntime) {
    expect_rewritten(&rt, &LATE_ID);
}

#[test]
fn asks_more_to_make_anew(rt: HostRuntime) {
    let mut out = roomy(&rt);
    expect!(rt; make_anew(rt.alloc(), &MANY_VALUES, &mut out).is_ok());
    expect!(rt; out.len() < 200);
    drop(out);
}
