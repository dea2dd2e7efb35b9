//! What is found of bytes, beside what is found of the tile that they are: tiles that have each
//! finding, with each of their bytes changed.
use super::rows::KINDS_CANONICAL;
use super::support::reader_of;
use super::surveys::changed;
use crate::expect::{expect, expect_eq};
use mvt_tile::{DecodeError, Finding, decode, lint, lint_bytes, lint_tile};
use std::alloc::Global;
use std::process::Abort;

// A layer `b` with a point that is far in an extent of 4096; a layer of version 1; a layer `a` of
// extent 1, whose features have each finding of one; a layer `c` of extent 0.
const FOUND: &[u8] = b"\x1A\x13\x78\x02\x0A\x01\x62\
    \x12\x09\x18\x01\x22\x05\x09\x00\xC0\xB8\x02\x28\x80\x20\
    \x1A\x04\x78\x01\x28\x09\
    \x1A\x6B\x78\x02\x0A\x01\x61\
    \x12\x16\x08\x80\x80\x80\x80\x80\x80\x80\x10\x12\x04\x01\x01\x00\x00\
    \x18\x01\x22\x03\x09\x08\x02\
    \x12\x00\
    \x12\x03\x22\x01\x07\
    \x12\x14\x08\x03\x12\x04\x00\x00\x01\x02\x18\x02\x22\x08\x09\x02\x02\x12\x00\x0A\x0A\x00\
    \x12\x0D\x18\x03\x22\x09\x09\x00\x00\x12\x0A\x00\x00\x0A\x0F\
    \x1A\x01\x61\x1A\x01\x62\
    \x22\x09\x28\x80\x80\x80\x80\x80\x80\x80\x10\x22\x02\x38\x01\
    \x22\x09\x30\xFF\xFF\xFF\xFF\xFF\xFF\xFF\x1F\x28\x01\
    \x1A\x10\x0A\x01\x63\x78\x02\x28\x00\x12\x07\x18\x01\x22\x03\x09\x08\x02";

#[test]
fn lints_bytes(rt: HostRuntime) {
    let expected = [
        Finding::FarPoint(0, 0, 0, 20_000),
        Finding::FarPoint(2, 0, 4, 1),
        Finding::LargeId(2, 0),
        Finding::LargeNumber(2, 0, 1),
        Finding::NoGeometry(2, 1),
        Finding::UnknownGeometry(2, 2),
        Finding::FarPoint(2, 3, 1, 6),
        Finding::LargeNumber(2, 3, 0),
        Finding::LargeNumber(2, 3, 1),
        Finding::FarPoint(2, 4, 5, 0),
        Finding::ZeroExtent(3),
    ];
    let found = lint_bytes(rt.alloc(), FOUND).expect(&rt, "findings");
    expect_eq!(rt; found.as_slice(), &expected);
    drop(found);
}

fn told_by_value(alloc: Global, input: &[u8]) -> Result<Vec<Finding>, DecodeError> {
    let tile = decode(alloc, input)?;
    let found = lint(alloc, &tile);
    drop(tile);
    Ok(found?)
}

// The bytes, and a reader of them, have the findings of the tile or its fault.
pub(crate) fn expect_same(rt: &(impl Abort + AllocGlobal), input: &[u8]) {
    let expected = told_by_value(rt.alloc(), input);
    let found = lint_bytes(rt.alloc(), input);
    expect!(rt; found == expected);
    drop(found);
    let mut reader = reader_of(rt, input, 7, u64::MAX);
    let read = lint_tile(rt.alloc(), &mut reader);
    expect!(rt; read == expected);
    drop(read);
    drop(reader);
    drop(expected);
}

fn expect_same_changed(rt: &(impl Abort + AllocGlobal), input: &[u8]) {
    expect_same(rt, input);
    for at in 0..input.len() {
        for way in 0..3u8 {
            let bytes = changed(rt.alloc(), input, at, way).expect(rt, "bytes");
            expect_same(rt, &bytes);
            drop(bytes);
        }
    }
}

#[test]
fn bytes_have_the_findings_of_the_tile(rt: HostRuntime) {
    expect_same_changed(&rt, FOUND);
    expect_same_changed(&rt, KINDS_CANONICAL);
}

// A refused growth is told, and a fault is never told in place of it.
#[test]
fn lint_of_bytes_refused_memory(rt: HostRuntime) {
    let mut wanted: u32 = 0;
    for _ in 0..2 {
        match lint_bytes(rt.alloc(), FOUND) {
            Ok(found) => {
                expect_eq!(rt; found.len(), 11);
                drop(found);
            }
            Err(error) => {
                expect_eq!(rt; error, DecodeError::Memory);
                wanted = wanted.saturating_add(1);
            }
        }
    }
    expect!(rt; wanted <= 1);
}
