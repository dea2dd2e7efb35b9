//! Tiles that are made step by step.
use crate::expect::expect_eq;
use mvt_rows::{
    AnyValue, BuildError, Builder, FinishError, PartRow, PointRow, RowsCause, RowsError, RowsFault,
    Span,
};
use mvt_tile::rewrite;
use std::process::Abort;

// Layer `a` with the point (25, 17).
const ONE_POINT: [u8; 19] = [
    0x1A, 0x11, 0x78, 0x02, 0x0A, 0x01, 0x61, 0x12, 0x07, 0x18, 0x01, 0x22, 0x03, 0x09, 0x32, 0x22,
    0x28, 0x80, 0x20,
];

// Layer `a` with a feature that has all kinds of number, and an empty geometry of unknown type.
const NUMBERS: [u8; 82] = [
    0x1A, 0x50, 0x78, 0x02, 0x0A, 0x01, 0x61, 0x12, 0x12, 0x12, 0x0C, 0x00, 0x00, 0x01, 0x01, 0x02,
    0x02, 0x03, 0x03, 0x04, 0x04, 0x05, 0x05, 0x18, 0x00, 0x22, 0x00, 0x1A, 0x01, 0x61, 0x1A, 0x01,
    0x62, 0x1A, 0x01, 0x63, 0x1A, 0x01, 0x64, 0x1A, 0x01, 0x65, 0x1A, 0x01, 0x66, 0x22, 0x02, 0x20,
    0x05, 0x22, 0x02, 0x28, 0x05, 0x22, 0x02, 0x30, 0x0A, 0x22, 0x05, 0x15, 0x00, 0x00, 0x00, 0x80,
    0x22, 0x09, 0x19, 0x00, 0x00, 0x00, 0x00, 0x00, 0x00, 0x00, 0x80, 0x22, 0x02, 0x38, 0x01, 0x28,
    0x80, 0x20,
];

// Layer `b` with the tag `name: "x"` on the points (0, 0) and (1, 1), whose id is 7, and on the
// line from (0, 0) to (2, 2), and with the ring (0, 0), (1, 0), (1, 1); then a layer of version 1.
const ALL: [u8; 73] = [
    0x1A, 0x43, 0x78, 0x02, 0x0A, 0x01, 0x62, 0x12, 0x0F, 0x08, 0x07, 0x12, 0x02, 0x00, 0x00, 0x18,
    0x01, 0x22, 0x05, 0x11, 0x00, 0x00, 0x02, 0x02, 0x12, 0x0E, 0x12, 0x02, 0x00, 0x00, 0x18, 0x02,
    0x22, 0x06, 0x09, 0x00, 0x00, 0x0A, 0x04, 0x04, 0x12, 0x0D, 0x18, 0x03, 0x22, 0x09, 0x09, 0x00,
    0x00, 0x12, 0x02, 0x00, 0x00, 0x02, 0x0F, 0x1A, 0x04, 0x6E, 0x61, 0x6D, 0x65, 0x22, 0x03, 0x0A,
    0x01, 0x78, 0x28, 0x80, 0x20, 0x1A, 0x02, 0x78, 0x01,
];

const fn number(kind: u32, bits: u64) -> AnyValue<'static> {
    AnyValue {
        kind,
        bits,
        text: &[],
    }
}

const fn text(text: &[u8]) -> AnyValue<'_> {
    AnyValue {
        kind: 1,
        bits: 0,
        text,
    }
}

fn point(x: i32, y: i32) -> PointRow {
    PointRow { x, y }
}

fn part(exterior: u32, start: u64, len: u64) -> PartRow {
    PartRow {
        exterior,
        points: Span { start, len },
    }
}

fn expect_finished(rt: &(impl Abort + AllocGlobal), builder: Builder, bytes: &[u8]) {
    let made = builder.finish(rt.alloc()).expect(rt, "bytes");
    expect_eq!(rt; made.as_slice(), bytes);
    drop(made);
}

// A builder in a layer `a`.
fn begun(rt: &(impl Abort + AllocGlobal)) -> Builder {
    let mut builder = Builder::new(rt.alloc());
    expect_eq!(rt; builder.layer(rt.alloc(), b"a", 4096), Ok(()));
    builder
}

#[test]
fn builds_nothing(rt: HostRuntime) {
    expect_finished(&rt, Builder::new(rt.alloc()), &[]);
}

#[test]
fn builds_a_point(rt: HostRuntime) {
    let mut builder = begun(&rt);
    expect_eq!(rt; builder.feature(1), Ok(()));
    expect_eq!(rt; builder.points(&[point(25, 17)]), Ok(()));
    expect_finished(&rt, builder, &ONE_POINT);
}

// Of a text the bits aren't looked at, and of a number the text.
#[test]
fn builds_numbers(rt: HostRuntime) {
    let mut builder = begun(&rt);
    expect_eq!(rt; builder.feature(0), Ok(()));
    expect_eq!(rt; builder.tag(b"a", &number(4, 5)), Ok(()));
    expect_eq!(rt; builder.tag(b"b", &number(5, 5)), Ok(()));
    expect_eq!(rt; builder.tag(b"c", &number(6, 5)), Ok(()));
    expect_eq!(rt; builder.tag(b"d", &number(2, 2147483648)), Ok(()));
    expect_eq!(rt; builder.tag(b"e", &number(3, 9223372036854775808)), Ok(()));
    let truth = AnyValue {
        text: b"no text",
        ..number(7, 1)
    };
    expect_eq!(rt; builder.tag(b"f", &truth), Ok(()));
    expect_finished(&rt, builder, &NUMBERS);
}

#[test]
fn builds_each_geometry(rt: HostRuntime) {
    let mut builder = Builder::new(rt.alloc());
    expect_eq!(rt; builder.layer(rt.alloc(), b"b", 4096), Ok(()));
    let key = builder.key(b"name").expect(&rt, "a key");
    let value = builder.value(&text(b"x")).expect(&rt, "a value");
    expect_eq!(rt; (key, value), (0, 0));
    expect_eq!(rt; builder.feature(1), Ok(()));
    expect_eq!(rt; builder.id(7), Ok(()));
    expect_eq!(rt; builder.tag_at(key, value), Ok(()));
    expect_eq!(rt; builder.points(&[point(0, 0)]), Ok(()));
    expect_eq!(rt; builder.points(&[point(1, 1)]), Ok(()));
    expect_eq!(rt; builder.feature(2), Ok(()));
    expect_eq!(rt; builder.tag(b"name", &text(b"x")), Ok(()));
    expect_eq!(rt; builder.line(), Ok(()));
    expect_eq!(rt; builder.points(&[point(0, 0), point(2, 2)]), Ok(()));
    expect_eq!(rt; builder.feature(1), Ok(()));
    expect_eq!(rt; builder.points(&[point(9, 9)]), Ok(()));
    expect_eq!(rt; builder.drop_feature(), Ok(()));
    expect_eq!(rt; builder.feature(3), Ok(()));
    expect_eq!(rt; builder.ring(true), Ok(()));
    expect_eq!(rt; builder.points(&[point(0, 0), point(1, 0), point(1, 1)]), Ok(()));
    expect_eq!(rt; builder.foreign(1, &[0x78, 0x01]), Ok(()));
    expect_finished(&rt, builder, &ALL);
}

// The same tile, feature by feature.
#[test]
fn builds_whole_features(rt: HostRuntime) {
    let mut builder = Builder::new(rt.alloc());
    expect_eq!(rt; builder.layer(rt.alloc(), b"b", 4096), Ok(()));
    expect_eq!(rt; builder.key(b"name"), Ok(0));
    expect_eq!(rt; builder.value(&text(b"x")), Ok(0));
    let points = [point(0, 0), point(1, 1), point(2, 2), point(1, 0)];
    expect_eq!(rt; builder.add(1, Some(7), &[0, 0], &[part(0, 0, 2)], &points), Ok(()));
    expect_eq!(rt; builder.feature(2), Ok(()));
    expect_eq!(rt; builder.tag_at(0, 0), Ok(()));
    expect_eq!(rt; builder.line(), Ok(()));
    expect_eq!(rt; builder.points(&[point(0, 0), point(2, 2)]), Ok(()));
    let ring = [point(0, 0), point(1, 0), point(1, 1)];
    expect_eq!(rt; builder.add(3, None, &[], &[part(1, 0, 3)], &ring), Ok(()));
    expect_eq!(rt; builder.foreign(1, &[0x78, 0x01]), Ok(()));
    expect_finished(&rt, builder, &ALL);
}

#[test]
fn wants_parts_within_the_points(rt: HostRuntime) {
    let points = [point(0, 0), point(2, 2)];
    for (start, len) in [(0, 3), (2, 1), (3, 0), (u64::MAX, 1), (1, u64::MAX)] {
        let mut builder = begun(&rt);
        let late = builder.add(2, None, &[], &[part(0, 0, 2), part(0, start, len)], &points);
        expect_late(&rt, builder, late);
    }
    let mut builder = Builder::new(rt.alloc());
    let late = builder.add(1, None, &[], &[], &[]);
    expect_late(&rt, builder, late);
    let mut builder = begun(&rt);
    expect_eq!(rt; builder.add(1, None, &[], &[part(0, 0, 1)], &points), Ok(()));
    let late = builder.id(7);
    expect_late(&rt, builder, late);
}

// A ring says by 0 or 1 whether it is an exterior one, as in rows that are written; of lines and
// points it says nothing.
#[test]
fn wants_rings_that_say_what_they_are(rt: HostRuntime) {
    let ring = [point(0, 0), point(1, 0), point(1, 1)];
    for exterior in [2, 256, u32::MAX] {
        let mut builder = begun(&rt);
        let late = builder.add(3, None, &[], &[part(1, 0, 3), part(exterior, 0, 3)], &ring);
        expect_late(&rt, builder, late);
    }
    for (kind, len) in [(1, 1), (2, 2)] {
        let mut builder = begun(&rt);
        expect_eq!(rt; builder.add(kind, None, &[], &[part(2, 0, len)], &ring), Ok(()));
    }
}

// Integers of unknown type are carried as they are.
#[test]
fn builds_integers(rt: HostRuntime) {
    let mut builder = begun(&rt);
    expect_eq!(rt; builder.feature(0), Ok(()));
    expect_eq!(rt; builder.integers(&[9]), Ok(()));
    expect_eq!(rt; builder.integers(&[50, 34]), Ok(()));
    let table = builder.rows(rt.alloc()).expect(&rt, "rows");
    let rows = table.lent();
    expect_eq!(rt; rows.integers, [9, 50, 34].as_slice());
    expect_eq!(rt; (rows.layers.len(), rows.features.len(), rows.texts.len()), (1, 1, 1));
    drop(table);
    expect_eq!(rt; builder.layer(rt.alloc(), b"b", 512), Ok(()));
    let made = builder.finish(rt.alloc()).expect(&rt, "bytes");
    let again = rewrite(rt.alloc(), &made).expect(&rt, "a tile");
    expect_eq!(rt; again.is_some_and(|bytes| bytes.as_slice() == made.as_slice()), true);
    drop(made);
}

// Keys and values stand once, whether they are texts or not.
#[test]
fn finds_entries(rt: HostRuntime) {
    let mut builder = begun(&rt);
    expect_eq!(rt; builder.key(b"one"), Ok(0));
    expect_eq!(rt; builder.key(&[0xFF]), Ok(1));
    expect_eq!(rt; builder.key(b"one"), Ok(0));
    expect_eq!(rt; builder.key(&[0xFF]), Ok(1));
    expect_eq!(rt; builder.key(b""), Ok(2));
    expect_eq!(rt; builder.value(&text(b"one")), Ok(0));
    expect_eq!(rt; builder.value(&number(99, 5)), Ok(1));
    expect_eq!(rt; builder.value(&number(5, 5)), Ok(2));
    expect_eq!(rt; builder.value(&number(99, 5)), Ok(1));
    expect_eq!(rt; builder.value(&text(b"one")), Ok(0));
    let fault = RowsFault {
        layer: 0,
        feature: None,
        cause: RowsCause::Key,
    };
    let made = builder.finish(rt.alloc());
    expect_eq!(rt; made.err(), Some(FinishError::Rows(RowsError::NoTile(fault))));
}

// A feature of points without a point is no tile.
#[test]
fn tells_what_is_wrong(rt: HostRuntime) {
    let mut builder = begun(&rt);
    expect_eq!(rt; builder.feature(1), Ok(()));
    let fault = RowsFault {
        layer: 0,
        feature: Some(0),
        cause: RowsCause::Geometry,
    };
    let made = builder.finish(rt.alloc());
    expect_eq!(rt; made.err(), Some(FinishError::Rows(RowsError::NoTile(fault))));
}

// A call that isn't due is told so, and so are all after it.
fn expect_late(rt: &(impl Abort + AllocGlobal), builder: Builder, late: Result<(), BuildError>) {
    let mut builder = builder;
    expect_eq!(rt; late, Err(BuildError::OutOfTurn));
    expect_eq!(rt; builder.layer(rt.alloc(), b"c", 1), Err(BuildError::OutOfTurn));
    expect_eq!(rt; builder.rows(rt.alloc()).is_err(), true);
    let made = builder.finish(rt.alloc());
    expect_eq!(rt; made.err(), Some(FinishError::Call(BuildError::OutOfTurn)));
}

#[test]
fn wants_a_layer(rt: HostRuntime) {
    let mut builder = Builder::new(rt.alloc());
    let late = builder.feature(1);
    expect_late(&rt, builder, late);
    let mut builder = Builder::new(rt.alloc());
    let late = builder.foreign(2, b"");
    expect_late(&rt, builder, late);
    let mut builder = Builder::new(rt.alloc());
    expect_eq!(rt; builder.key(b"k"), Err(BuildError::OutOfTurn));
    expect_eq!(rt; builder.value(&text(b"k")), Err(BuildError::OutOfTurn));
    let late = builder.tag(b"k", &text(b"v"));
    expect_late(&rt, builder, late);
}

#[test]
fn wants_a_feature(rt: HostRuntime) {
    let mut builder = begun(&rt);
    let late = builder.id(1);
    expect_late(&rt, builder, late);
    let mut builder = begun(&rt);
    let late = builder.points(&[]);
    expect_late(&rt, builder, late);
    let mut builder = begun(&rt);
    let late = builder.drop_feature();
    expect_late(&rt, builder, late);
}

#[test]
fn wants_a_feature_of_the_kind(rt: HostRuntime) {
    let mut builder = begun(&rt);
    expect_eq!(rt; builder.feature(2), Ok(()));
    let late = builder.ring(true);
    expect_late(&rt, builder, late);
    let mut builder = begun(&rt);
    expect_eq!(rt; builder.feature(2), Ok(()));
    let late = builder.points(&[point(1, 1)]);
    expect_late(&rt, builder, late);
    let mut builder = begun(&rt);
    expect_eq!(rt; builder.feature(3), Ok(()));
    let late = builder.line();
    expect_late(&rt, builder, late);
    let mut builder = begun(&rt);
    expect_eq!(rt; builder.feature(1), Ok(()));
    let late = builder.integers(&[]);
    expect_late(&rt, builder, late);
}
