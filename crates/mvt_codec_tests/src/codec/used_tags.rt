//! The tags of a layer made those of what is used, where they stand packed in bytes (4.4).
use crate::expect::{expect, expect_eq};
use mvt_attrs::{LayerEntries, LayerKeys, TextRef, ValueRef};
use std::process::Abort;

// Four values that stand once each, and four of which two are one.
const APART: [u64; 4] = [0, 1, 2, 3];

const TWICE: [u64; 4] = [0, 1, 1, 3];

// The keys `k`, `m` and `n`, and these values.
fn made(rt: &(impl Abort + AllocGlobal), values: [u64; 4]) -> LayerEntries<'static> {
    let mut uses = LayerEntries::new(rt.alloc());
    for key in ["k", "m", "n"] {
        uses.keys.add(&TextRef::of(key)).expect(rt, "memory");
    }
    let mut held = Vec::new(rt.alloc());
    for value in values {
        held.push(ValueRef::Uint(value)).expect(rt, "memory");
    }
    uses.values.take_all(held).expect(rt, "memory");
    uses
}

// What is found of these bytes; `tags` are those that they become.
fn expect_used(
    rt: &(impl Abort + AllocGlobal),
    uses: &mut LayerEntries<'_>,
    bytes: &[u8],
    found: Option<bool>,
    tags: &[u32],
) {
    let mut keys = LayerKeys::new(rt.alloc(), &["k", "m", "n"]);
    let now = uses
        .use_packed(rt.alloc(), &mut keys, bytes)
        .expect(rt, "memory");
    drop(keys);
    expect_eq!(*rt; now, found, "of {bytes:?}");
    if now.is_some() {
        expect!(*rt; uses.tags.as_slice() == tags);
    }
}

fn counts(uses: &LayerEntries<'_>) -> (usize, usize) {
    (uses.keys.used().len(), uses.values.used().len())
}

// Entries that are used in their order keep their places, so that the bytes can stay.
#[test]
fn tags_in_order_stay(rt: HostRuntime) {
    for values in [APART, [0, 1, 3, 3]] {
        let mut uses = made(&rt, values);
        expect_used(
            &rt,
            &mut uses,
            b"\x00\x00\x01\x01",
            Some(true),
            &[0, 0, 1, 1],
        );
        expect_used(&rt, &mut uses, b"", Some(true), &[]);
        expect_used(&rt, &mut uses, b"\x00\x02", Some(true), &[0, 2]);
        expect_used(&rt, &mut uses, b"\x80\x00\x01", Some(false), &[0, 1]);
        expect_eq!(rt; counts(&uses), (2, 3));
        drop(uses);
    }
}

// An entry that is used goes behind those that are.
#[test]
fn tags_in_another_order_change(rt: HostRuntime) {
    let mut uses = made(&rt, APART);
    expect_used(&rt, &mut uses, b"\x00\x00", Some(true), &[0, 0]);
    expect_used(
        &rt,
        &mut uses,
        b"\x02\x03\x00\x01",
        Some(false),
        &[1, 1, 0, 2],
    );
    expect_used(&rt, &mut uses, b"\x01\x00", Some(false), &[2, 0]);
    expect_used(&rt, &mut uses, b"\x00\x02", Some(false), &[0, 3]);
    expect_eq!(rt; counts(&uses), (3, 4));
    drop(uses);
    let mut uses = made(&rt, TWICE);
    expect_used(
        &rt,
        &mut uses,
        b"\x00\x01\x01\x02",
        Some(false),
        &[0, 0, 1, 0],
    );
    expect_eq!(rt; counts(&uses), (2, 1));
    drop(uses);
}

// What tags name that break a rule isn't used.
#[test]
fn broken_tags_use_nothing(rt: HostRuntime) {
    for values in [APART, TWICE] {
        let mut uses = made(&rt, values);
        expect_used(&rt, &mut uses, b"\x00\x00", Some(true), &[0, 0]);
        for broken in [
            &b"\x01\x01\x01\x03"[..],
            &b"\x02\x03\x01"[..],
            &b"\x01\x01\x00\x04"[..],
            &b"\x01\x01\x03\x00"[..],
            &b"\x80"[..],
        ] {
            expect_used(&rt, &mut uses, broken, None, &[]);
            expect_eq!(rt; counts(&uses), (1, 1));
        }
        expect_used(&rt, &mut uses, b"\x02\x03", Some(false), &[1, 1]);
        expect_used(&rt, &mut uses, b"\x01\x01\x01\x03", None, &[]);
        expect_eq!(rt; counts(&uses), (2, 2));
        drop(uses);
    }
}
