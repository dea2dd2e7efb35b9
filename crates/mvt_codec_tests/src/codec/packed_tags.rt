//! Tags judged where they stand packed in bytes.
use crate::expect::{expect, expect_eq};
use mvt_attrs::{LayerKeys, NoTags, PackedTags, TagVisitor, UseOrder, judge_packed};
use std::process::Abort;

const GOOD: PackedTags = PackedTags::Good { is_short: true };

const LONG: PackedTags = PackedTags::Good { is_short: false };

// What is found of bytes over the keys `k`, `m` and `k`, and two values.
fn found(
    rt: &(impl Abort + AllocGlobal),
    visitor: &mut impl TagVisitor,
    bytes: &[u8],
) -> PackedTags {
    let mut layer = LayerKeys::new(rt.alloc(), &["k", "m", "k"]);
    let found = judge_packed(rt.alloc(), visitor, &mut layer, 2, bytes).expect(rt, "memory");
    drop(layer);
    found
}

// Whole pairs, whose indices are there, and none of whose keys stands twice.
#[test]
fn judges_packed_tags(rt: HostRuntime) {
    for bytes in [&b""[..], &b"\x02\x01"[..], &b"\x00\x01\x01\x01"[..]] {
        expect_eq!(rt; found(&rt, &mut NoTags, bytes), GOOD);
    }
    for bytes in [
        &b"\x81\x00\x00"[..],
        &b"\x00\x81\x00\x01\x00"[..],
        &b"\x00\x00\x01\x81\x80\x00"[..],
    ] {
        expect_eq!(rt; found(&rt, &mut NoTags, bytes), LONG);
    }
    for bytes in [
        &b"\x00"[..],
        &b"\x00\x80"[..],
        &b"\x03\x00"[..],
        &b"\x00\x02"[..],
        &b"\x00\x00\x01"[..],
        &b"\x00\x00\x01\x82"[..],
        &b"\x00\x00\x03\x00"[..],
        &b"\x00\x00\x01\x02"[..],
        &b"\x00\x00\x00\x01"[..],
        &b"\x00\x00\x01\x00\x02\x00"[..],
        &b"\x80\x80\x80\x80\x10\x00"[..],
    ] {
        expect_eq!(rt; found(&rt, &mut NoTags, bytes), PackedTags::Broken);
    }
}

// A list takes the tags, and an order of use stops at a later entry than the next.
#[test]
fn tells_packed_tags(rt: HostRuntime) {
    let mut tags = Vec::new(rt.alloc());
    expect_eq!(rt; found(&rt, &mut tags, b"\x01\x01\x00\x80\x00"), LONG);
    expect!(rt; tags.as_slice() == [1u32, 1, 0, 0].as_slice());
    drop(tags);
    let mut order = UseOrder { keys: 1, values: 0 };
    expect_eq!(rt; found(&rt, &mut order, b"\x00\x00\x01\x01"), GOOD);
    expect_eq!(rt; (order.keys, order.values), (2, 2));
    for bytes in [&b"\x01\x00"[..], &b"\x00\x01"[..]] {
        let mut order = UseOrder { keys: 0, values: 0 };
        expect_eq!(rt; found(&rt, &mut order, bytes), PackedTags::Stopped);
        drop(order);
    }
    drop(order);
}
