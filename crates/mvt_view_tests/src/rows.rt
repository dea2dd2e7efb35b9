//! Rows that are tiles, and rows that are none.
use crate::expect::{expect, expect_eq};
use mvt_message::Cause;
use mvt_rows::{
    DrawingRule, FeatureRow, LayerRow, PartRow, PointRow, Rows, RowsCause, RowsDecoder, RowsError,
    RowsFault, RowsVisitor, Span, Undrawn, ValueRow, read_layer, read_rows, read_rows_within,
    rows_fault, write_rows,
};
use mvt_tile::{DecodeError, Fault, Tile, decode, encode, validate};
use std::process::Abort;

const NOWHERE: Span = Span { start: 0, len: 0 };

const LAYER: LayerRow = LayerRow {
    version: 2,
    extent: 4096,
    name: Span { start: 0, len: 1 },
    features: Span { start: 0, len: 1 },
    keys: NOWHERE,
    values: NOWHERE,
    bytes: NOWHERE,
};

const FEATURE: FeatureRow = FeatureRow {
    id: 0,
    has_id: 0,
    kind: 1,
    tags: NOWHERE,
    parts: Span { start: 0, len: 1 },
    integers: NOWHERE,
};

const POINTS: PartRow = PartRow {
    exterior: 0,
    points: Span { start: 0, len: 1 },
};

const NUMBER: ValueRow = ValueRow {
    kind: 4,
    bits: 0,
    text: NOWHERE,
};

// Layer `a` with the point (25, 17), as these bytes.
const ONE_POINT: Rows = Rows {
    layers: &[LAYER],
    features: &[FEATURE],
    keys: &[],
    values: &[],
    tags: &[],
    parts: &[POINTS],
    points: &[PointRow { x: 25, y: 17 }],
    integers: &[],
    texts: b"a",
};

const ONE_POINT_BYTES: [u8; 19] = [
    0x1A, 0x11, 0x78, 0x02, 0x0A, 0x01, 0x61, 0x12, 0x07, 0x18, 0x01, 0x22, 0x03, 0x09, 0x32, 0x22,
    0x28, 0x80, 0x20,
];

// Layer `a` with a feature that has all kinds of number, and an empty geometry of unknown type.
const NUMBERS: Rows = Rows {
    layers: &[LayerRow {
        keys: Span { start: 0, len: 6 },
        values: Span { start: 0, len: 6 },
        ..LAYER
    }],
    features: &[FeatureRow {
        kind: 0,
        tags: Span { start: 0, len: 12 },
        ..FEATURE
    }],
    keys: &[
        Span { start: 0, len: 1 },
        Span { start: 1, len: 1 },
        Span { start: 2, len: 1 },
        Span { start: 3, len: 1 },
        Span { start: 4, len: 1 },
        Span { start: 5, len: 1 },
    ],
    values: &[
        ValueRow {
            kind: 4,
            bits: 5,
            ..NUMBER
        },
        ValueRow {
            kind: 5,
            bits: 5,
            ..NUMBER
        },
        ValueRow {
            kind: 6,
            bits: 5,
            ..NUMBER
        },
        ValueRow {
            kind: 2,
            bits: 2147483648,
            ..NUMBER
        },
        ValueRow {
            kind: 3,
            bits: 9223372036854775808,
            ..NUMBER
        },
        ValueRow {
            kind: 7,
            bits: 1,
            ..NUMBER
        },
    ],
    tags: &[0, 0, 1, 1, 2, 2, 3, 3, 4, 4, 5, 5],
    parts: &[],
    points: &[],
    integers: &[],
    texts: b"abcdef",
};

const NUMBERS_BYTES: [u8; 82] = [
    0x1A, 0x50, 0x78, 0x02, 0x0A, 0x01, 0x61, 0x12, 0x12, 0x12, 0x0C, 0x00, 0x00, 0x01, 0x01, 0x02,
    0x02, 0x03, 0x03, 0x04, 0x04, 0x05, 0x05, 0x18, 0x00, 0x22, 0x00, 0x1A, 0x01, 0x61, 0x1A, 0x01,
    0x62, 0x1A, 0x01, 0x63, 0x1A, 0x01, 0x64, 0x1A, 0x01, 0x65, 0x1A, 0x01, 0x66, 0x22, 0x02, 0x20,
    0x05, 0x22, 0x02, 0x28, 0x05, 0x22, 0x02, 0x30, 0x0A, 0x22, 0x05, 0x15, 0x00, 0x00, 0x00, 0x80,
    0x22, 0x09, 0x19, 0x00, 0x00, 0x00, 0x00, 0x00, 0x00, 0x00, 0x80, 0x22, 0x02, 0x38, 0x01, 0x28,
    0x80, 0x20,
];

fn expect_written(rt: &(impl Abort + AllocGlobal), rows: &Rows, bytes: &[u8]) {
    let written = write_rows(rt.alloc(), rows).expect(rt, "bytes");
    expect_eq!(rt; written.as_slice(), bytes);
    drop(written);
}

fn expect_refused(rt: &(impl Abort + AllocGlobal), rows: &Rows) {
    let fault = fault_of(rt, rows).expect(rt, "a fault");
    let error = write_rows(rt.alloc(), rows).err();
    expect_eq!(rt; error, Some(RowsError::NoTile(fault)));
}

#[test]
fn writes_rows(rt: HostRuntime) {
    expect_written(&rt, &ONE_POINT, &ONE_POINT_BYTES);
    expect_written(&rt, &NUMBERS, &NUMBERS_BYTES);
    let rows = Rows {
        layers: &[LayerRow {
            version: 1,
            bytes: Span { start: 0, len: 2 },
            ..LAYER
        }],
        texts: &[0x78, 0x01],
        ..ONE_POINT
    };
    expect_written(&rt, &rows, &[0x1A, 0x02, 0x78, 0x01]);
}

// Two features of one part, whose tags name values that are one, by keys that are one.
const OVERLAPS: Rows = Rows {
    layers: &[LayerRow {
        features: Span { start: 0, len: 2 },
        keys: Span { start: 0, len: 2 },
        values: Span { start: 0, len: 2 },
        ..LAYER
    }],
    features: &[
        FeatureRow {
            tags: Span { start: 0, len: 2 },
            ..FEATURE
        },
        FeatureRow {
            tags: Span { start: 1, len: 2 },
            ..FEATURE
        },
    ],
    keys: &[Span { start: 1, len: 1 }, Span { start: 1, len: 1 }],
    values: &[
        ValueRow {
            kind: 7,
            bits: 1,
            ..NUMBER
        },
        ValueRow {
            kind: 7,
            bits: 1,
            ..NUMBER
        },
    ],
    tags: &[0, 1, 0],
    texts: b"ak",
    ..ONE_POINT
};

const OVERLAPS_BYTES: [u8; 43] = [
    0x1A, 0x29, 0x78, 0x02, 0x0A, 0x01, 0x61, 0x12, 0x0B, 0x12, 0x02, 0x00, 0x00, 0x18, 0x01, 0x22,
    0x03, 0x09, 0x32, 0x22, 0x12, 0x0B, 0x12, 0x02, 0x00, 0x00, 0x18, 0x01, 0x22, 0x03, 0x09, 0x32,
    0x22, 0x1A, 0x01, 0x6B, 0x22, 0x02, 0x38, 0x01, 0x28, 0x80, 0x20,
];

#[test]
fn writes_rows_that_overlap(rt: HostRuntime) {
    expect_written(&rt, &OVERLAPS, &OVERLAPS_BYTES);
}

#[test]
fn refuses_what_is_not_there(rt: HostRuntime) {
    let rows = [
        Rows {
            texts: &[],
            ..ONE_POINT
        },
        Rows {
            features: &[],
            ..ONE_POINT
        },
        Rows {
            parts: &[],
            ..ONE_POINT
        },
        Rows {
            points: &[],
            ..ONE_POINT
        },
        Rows {
            keys: &[],
            ..NUMBERS
        },
        Rows {
            values: &[],
            ..NUMBERS
        },
        Rows {
            tags: &[0, 0, 1, 1, 2, 2, 3, 3, 4, 4, 5, 6],
            ..NUMBERS
        },
    ];
    for rows in &rows {
        expect_refused(&rt, rows);
    }
}

#[test]
fn refuses_what_is_no_tile(rt: HostRuntime) {
    let rows = [
        Rows {
            texts: &[0xFF],
            ..ONE_POINT
        },
        Rows {
            layers: &[LAYER, LAYER],
            ..ONE_POINT
        },
        Rows {
            points: &[PointRow { x: i32::MIN, y: 0 }],
            ..ONE_POINT
        },
        Rows {
            features: &[FeatureRow { kind: 2, ..FEATURE }],
            ..ONE_POINT
        },
        Rows {
            features: &[FeatureRow { kind: 4, ..FEATURE }],
            ..ONE_POINT
        },
        Rows {
            features: &[FeatureRow {
                has_id: 2,
                ..FEATURE
            }],
            ..ONE_POINT
        },
        Rows {
            tags: &[0, 0, 0, 1, 2, 2, 3, 3, 4, 4, 5, 5],
            ..NUMBERS
        },
    ];
    for rows in &rows {
        expect_refused(&rt, rows);
    }
}

#[test]
fn reports_why_nothing_is_made(rt: HostRuntime) {
    let fault = RowsFault {
        layer: 0,
        feature: None,
        cause: RowsCause::Key,
    };
    let text = format!(in rt.alloc();
        "{}, {}, {}",
        RowsError::Memory,
        RowsError::TooLarge,
        RowsError::NoTile(fault)
    )
    .expect(&rt, "a text");
    expect_eq!(rt;
        text.as_str(),
        "out of memory, the tile is too large, the rows are no tile"
    );
    drop(text);
}

fn fault_of(rt: &(impl Abort + AllocGlobal), rows: &Rows) -> Option<RowsFault> {
    rows_fault(rt.alloc(), rows).expect(rt, "a verdict")
}

fn expect_fault(
    rt: &(impl Abort + AllocGlobal),
    rows: &Rows,
    layer: usize,
    feature: Option<usize>,
    cause: RowsCause,
) {
    let fault = RowsFault {
        layer,
        feature,
        cause,
    };
    expect_eq!(rt; fault_of(rt, rows), Some(fault));
}

#[test]
fn finds_nothing_wrong(rt: HostRuntime) {
    for rows in &[NONE, ONE_POINT, NUMBERS, OVERLAPS, READ] {
        expect_eq!(rt; fault_of(&rt, rows), None);
    }
}

// Layers `a` and `b`, each with a point that can't be drawn; a layer of version 1, and one of `a`.
const UNDRAWN: Rows = Rows {
    layers: &[
        LAYER,
        LayerRow {
            name: Span { start: 1, len: 1 },
            ..LAYER
        },
        LayerRow {
            version: 1,
            bytes: Span { start: 2, len: 2 },
            ..LAYER
        },
        LayerRow {
            features: NOWHERE,
            ..LAYER
        },
    ],
    points: &[PointRow { x: i32::MIN, y: 0 }],
    texts: b"ab\x78\x01",
    ..ONE_POINT
};

const FAR_POINT: RowsCause = RowsCause::Drawing(Undrawn {
    rule: DrawingRule::ParameterRange,
    part: 0,
    point: Some(0),
});

#[test]
fn finds_what_cannot_be_written(rt: HostRuntime) {
    expect_fault(&rt, &UNDRAWN, 0, Some(0), FAR_POINT);
    let bytes = Rows {
        points: ONE_POINT.points,
        texts: b"ab\x78\x03",
        ..UNDRAWN
    };
    expect_fault(&rt, &bytes, 2, None, RowsCause::Bytes);
    let names = Rows {
        points: ONE_POINT.points,
        ..UNDRAWN
    };
    expect_fault(&rt, &names, 3, None, RowsCause::RepeatedName);
}

// A layer is looked at to its end before the next.
#[test]
fn finds_what_is_wrong_layer_by_layer(rt: HostRuntime) {
    let undrawn = Rows {
        texts: b"ab\x78",
        ..UNDRAWN
    };
    expect_fault(&rt, &undrawn, 0, Some(0), FAR_POINT);
    let drawn = Rows {
        points: ONE_POINT.points,
        ..undrawn
    };
    expect_fault(&rt, &drawn, 2, None, RowsCause::BytesSpan);
}

// The tile's canonical bytes; none where it isn't valid.
fn spelled(rt: &(impl Abort + AllocGlobal), tile: &Tile) -> Vec<u8> {
    if validate(rt.alloc(), tile).expect(rt, "an answer") {
        return encode(rt.alloc(), tile).expect(rt, "bytes");
    }
    Vec::new(rt.alloc())
}

#[test]
fn makes_a_tile_of_rows(rt: HostRuntime) {
    let written = write_rows(rt.alloc(), &NUMBERS).expect(&rt, "bytes");
    let tile = decode(rt.alloc(), &written).expect(&rt, "a tile");
    let bytes = spelled(&rt, &tile);
    expect_eq!(rt; bytes.as_slice(), &NUMBERS_BYTES[..]);
    drop(bytes);
    drop(tile);
    drop(written);
}

// Layer `a` of a point and a ring, with two keys and two values that no feature names, and a layer
// of version 1.
pub(crate) const READ_BYTES: [u8; 67] = [
    0x1A, 0x3D, 0x78, 0x02, 0x0A, 0x01, 0x61, 0x12, 0x0D, 0x08, 0x07, 0x12, 0x02, 0x02, 0x01, 0x18,
    0x01, 0x22, 0x03, 0x09, 0x32, 0x22, 0x12, 0x0F, 0x18, 0x03, 0x22, 0x0B, 0x09, 0x00, 0x00, 0x1A,
    0x14, 0x00, 0x00, 0x14, 0x13, 0x00, 0x0F, 0x1A, 0x01, 0x6B, 0x1A, 0x01, 0x75, 0x1A, 0x01, 0x6C,
    0x22, 0x03, 0x0A, 0x01, 0x78, 0x22, 0x02, 0x28, 0x05, 0x22, 0x02, 0x30, 0x01, 0x28, 0x64, 0x1A,
    0x02, 0x78, 0x01,
];

pub(crate) const READ: Rows = Rows {
    layers: &[
        LayerRow {
            version: 2,
            extent: 100,
            name: Span { start: 4, len: 1 },
            features: Span { start: 0, len: 2 },
            keys: Span { start: 0, len: 3 },
            values: Span { start: 0, len: 3 },
            bytes: NOWHERE,
        },
        LayerRow {
            version: 1,
            extent: 0,
            name: NOWHERE,
            features: NOWHERE,
            keys: NOWHERE,
            values: NOWHERE,
            bytes: Span { start: 5, len: 2 },
        },
    ],
    features: &[
        FeatureRow {
            id: 7,
            has_id: 1,
            kind: 1,
            tags: Span { start: 0, len: 2 },
            parts: Span { start: 0, len: 1 },
            integers: NOWHERE,
        },
        FeatureRow {
            id: 0,
            has_id: 0,
            kind: 3,
            tags: Span { start: 2, len: 0 },
            parts: Span { start: 1, len: 1 },
            integers: NOWHERE,
        },
    ],
    keys: &[
        Span { start: 1, len: 1 },
        Span { start: 2, len: 1 },
        Span { start: 3, len: 1 },
    ],
    values: &[
        ValueRow {
            kind: 1,
            bits: 0,
            text: Span { start: 0, len: 1 },
        },
        ValueRow {
            kind: 5,
            bits: 5,
            text: NOWHERE,
        },
        ValueRow {
            kind: 6,
            bits: u64::MAX,
            text: NOWHERE,
        },
    ],
    tags: &[2, 1],
    parts: &[
        PartRow {
            exterior: 0,
            points: Span { start: 0, len: 1 },
        },
        PartRow {
            exterior: 1,
            points: Span { start: 1, len: 4 },
        },
    ],
    points: &[
        PointRow { x: 25, y: 17 },
        PointRow { x: 0, y: 0 },
        PointRow { x: 10, y: 0 },
        PointRow { x: 10, y: 10 },
        PointRow { x: 0, y: 10 },
    ],
    integers: &[],
    texts: b"xkula\x78\x01",
};

pub(crate) const NONE: Rows = Rows {
    layers: &[],
    features: &[],
    keys: &[],
    values: &[],
    tags: &[],
    parts: &[],
    points: &[],
    integers: &[],
    texts: &[],
};

fn expect_rows(rt: &(impl Abort + AllocGlobal), found: &Rows, expected: &Rows) {
    expect_eq!(rt; found.layers, expected.layers);
    expect_eq!(rt; found.features, expected.features);
    expect_eq!(rt; found.keys, expected.keys);
    expect_eq!(rt; found.values, expected.values);
    expect_eq!(rt; found.tags, expected.tags);
    expect_eq!(rt; found.parts, expected.parts);
    expect_eq!(rt; found.points, expected.points);
    expect_eq!(rt; found.integers, expected.integers);
    expect_eq!(rt; found.texts, expected.texts);
}

fn expect_read(rt: &(impl Abort + AllocGlobal), bytes: &[u8], rows: &Rows) {
    let table = read_rows(rt.alloc(), bytes).expect(rt, "rows");
    expect_rows(rt, &table.leak(), rows);
}

// A layer of version 1 with the value `y`, whose version stands last, and layer `a` with the
// value 7.
const OLD_AND_NEW: [u8; 23] = [
    0x1A, 0x0A, 0x0A, 0x01, 0x78, 0x22, 0x03, 0x0A, 0x01, 0x79, 0x78, 0x01, 0x1A, 0x09, 0x78, 0x02,
    0x0A, 0x01, 0x61, 0x22, 0x02, 0x28, 0x07,
];

// A layer of another version has its bytes alone.
#[test]
fn reads_rows_behind_a_layer_of_another_version(rt: HostRuntime) {
    let table = read_rows(rt.alloc(), &OLD_AND_NEW).expect(&rt, "rows");
    let rows = table.leak();
    expect_eq!(rt; rows.values.len(), 1);
    let spans = rows.layers.iter().map(|layer| (layer.bytes, layer.values));
    let spans = spans.collect::<Vec<_>>(rt.alloc()).expect(&rt, "spans");
    let old = (Span { start: 0, len: 10 }, NOWHERE);
    expect_eq!(rt; spans.first(), Some(&old));
    let new = (NOWHERE, Span { start: 0, len: 1 });
    expect_eq!(rt; rows.texts.len(), 11);
    expect_eq!(rt; spans.last(), Some(&new));
}

#[test]
fn reads_rows(rt: HostRuntime) {
    expect_read(&rt, &READ_BYTES, &READ);
    expect_read(&rt, &[], &NONE);
    let unknown = Rows {
        layers: &[LAYER],
        features: &[FeatureRow {
            kind: 0,
            parts: NOWHERE,
            integers: Span { start: 0, len: 2 },
            ..FEATURE
        }],
        integers: &[7, 9],
        texts: b"a",
        ..NONE
    };
    let bytes = b"\x1A\x0B\x78\x02\x0A\x01\x61\x12\x04\x22\x02\x07\x09";
    expect_read(&rt, bytes, &unknown);
}

fn expect_fed(rt: &(impl Abort + AllocGlobal), size: usize) {
    let mut decoder = RowsDecoder::new(rt.alloc(), RowsVisitor::new(rt.alloc(), u64::MAX));
    for piece in READ_BYTES.chunks(size.max(1)) {
        decoder.feed(piece).expect(rt, "a piece");
    }
    let rows = decoder.finish().expect(rt, "rows");
    expect_rows(rt, &rows.into_table().leak(), &READ);
}

#[test]
fn reads_rows_in_pieces(rt: HostRuntime) {
    for size in [1, 7, 66, 67] {
        expect_fed(&rt, size);
    }
}

// The lists have 2 * 88 + 2 * 64 + 3 * 16 + 3 * 32 + 2 * 4 + 2 * 24 + 5 * 8 + 7 bytes.
#[test]
fn reads_rows_within_a_bound(rt: HostRuntime) {
    let table = read_rows_within(rt.alloc(), &READ_BYTES, 551).expect(&rt, "rows");
    expect_rows(&rt, &table.leak(), &READ);
    let error = read_rows_within(rt.alloc(), &READ_BYTES, 550).err();
    expect_eq!(rt; error, Some(DecodeError::Memory));
}

fn has_layer(rt: &(impl Abort + AllocGlobal), bytes: &[u8], name: &[u8], layer: &Rows) -> bool {
    match read_layer(rt.alloc(), bytes, name, u64::MAX).expect(rt, "a layer") {
        Some(table) => {
            expect_rows(rt, &table.leak(), layer);
            true
        }
        None => false,
    }
}

// The layer after that of the name is broken.
#[test]
fn reads_one_layer(rt: HostRuntime) {
    let layer = Rows {
        layers: &[LayerRow {
            version: 2,
            extent: 100,
            name: Span { start: 4, len: 1 },
            features: Span { start: 0, len: 2 },
            keys: Span { start: 0, len: 3 },
            values: Span { start: 0, len: 3 },
            bytes: NOWHERE,
        }],
        texts: b"xkula",
        ..READ
    };
    let mut bytes = READ_BYTES;
    bytes[66] = 0x80;
    expect!(rt; has_layer(&rt, &bytes, b"a", &layer));
    expect!(rt; !has_layer(&rt, &READ_BYTES, b"b", &layer));
    expect!(rt; !has_layer(&rt, &[], b"a", &layer));
    let error = read_layer(rt.alloc(), &bytes[..66], b"b", u64::MAX).err();
    let fault = Fault {
        layer: None,
        feature: None,
        at: 63,
        cause: Cause::Truncated,
    };
    expect_eq!(rt; error, Some(DecodeError::Fault(fault)));
}

#[test]
fn reads_no_rows_of_a_broken_tile(rt: HostRuntime) {
    let mut bytes = READ_BYTES;
    bytes[13] = 3;
    let error = read_rows(rt.alloc(), &bytes).err();
    let fault = Fault {
        layer: Some(0),
        feature: Some(0),
        at: 0,
        cause: Cause::KeyIndex,
    };
    expect_eq!(rt; error, Some(DecodeError::Fault(fault)));
}

// A layer of version 3 with 16 values, whose version stands neither first nor last.
const VERSION_3: [u8; 74] = [
    0x1A, 0x48, 0x0A, 0x01, 0x61, 0x22, 0x02, 0x28, 0x01, 0x22, 0x02, 0x28, 0x02, 0x22, 0x02, 0x28,
    0x03, 0x22, 0x02, 0x28, 0x04, 0x22, 0x02, 0x28, 0x05, 0x22, 0x02, 0x28, 0x06, 0x22, 0x02, 0x28,
    0x07, 0x22, 0x02, 0x28, 0x08, 0x22, 0x02, 0x28, 0x09, 0x22, 0x02, 0x28, 0x0A, 0x22, 0x02, 0x28,
    0x0B, 0x22, 0x02, 0x28, 0x0C, 0x22, 0x02, 0x28, 0x0D, 0x22, 0x02, 0x28, 0x0E, 0x22, 0x02, 0x28,
    0x0F, 0x22, 0x02, 0x28, 0x10, 0x78, 0x03, 0x1A, 0x01, 0x6B,
];

const VERSION_3_LAYER: LayerRow = LayerRow {
    version: 3,
    extent: 0,
    name: NOWHERE,
    features: NOWHERE,
    keys: NOWHERE,
    values: NOWHERE,
    bytes: Span { start: 0, len: 72 },
};

fn is_reading_refused(rt: &(impl Abort + AllocGlobal), bytes: &[u8], rows: &Rows) -> bool {
    match read_rows(rt.alloc(), bytes) {
        Ok(table) => {
            expect_rows(rt, &table.leak(), rows);
            false
        }
        Err(error) => {
            expect_eq!(rt; error, DecodeError::Memory);
            true
        }
    }
}

#[test]
fn rows_refused_memory(rt: HostRuntime) {
    let mut refused: u32 = 0;
    for _ in 0..2 {
        refused = refused.saturating_add(u32::from(is_reading_refused(&rt, &READ_BYTES, &READ)));
    }
    expect!(rt; refused <= 1);
}

// Where a value of a layer of another version finds no memory, the rows are the same.
#[test]
fn rows_of_another_version_refused_memory(rt: HostRuntime) {
    let rows = Rows {
        layers: &[VERSION_3_LAYER],
        texts: &VERSION_3[2..],
        ..NONE
    };
    let mut refused: u32 = 0;
    for _ in 0..2 {
        let is_refused = is_reading_refused(&rt, &VERSION_3, &rows);
        refused = refused.saturating_add(u32::from(is_refused));
    }
    expect!(rt; refused <= 1);
}

fn is_judging_refused(rt: &(impl Abort + AllocGlobal), rows: &Rows) -> bool {
    match rows_fault(rt.alloc(), rows) {
        Ok(found) => {
            let fault = RowsFault {
                layer: 3,
                feature: None,
                cause: RowsCause::RepeatedName,
            };
            expect_eq!(rt; found, Some(fault));
            false
        }
        Err(error) => {
            expect_eq!(rt; error, RowsError::Memory);
            true
        }
    }
}

#[test]
fn judging_rows_refused_memory(rt: HostRuntime) {
    let rows = Rows {
        points: ONE_POINT.points,
        ..UNDRAWN
    };
    let mut refused: u32 = 0;
    for _ in 0..2 {
        refused = refused.saturating_add(u32::from(is_judging_refused(&rt, &rows)));
    }
    expect!(rt; refused <= 1);
}

// A first line of one point, which can't be drawn, and 1,099 that name 65,536 points each.
fn lines_that_overlap(rt: &(impl Abort + AllocGlobal), parts: &mut Vec<PartRow>) {
    for index in 0..1100 {
        let len = if index == 0 { 1 } else { 65_536 };
        let points = Span { start: 0, len };
        let line = PartRow {
            exterior: 0,
            points,
        };
        parts.push(line).expect(rt, "a line");
    }
}

// Spans that overlap too often are told before a line that can't be drawn.
#[test]
fn counts_all_parts_before_it_draws(rt: HostRuntime) {
    let mut parts = Vec::new(rt.alloc());
    lines_that_overlap(&rt, &mut parts);
    let zeros = vec![in rt.alloc(); PointRow { x: 0, y: 0 }; 65_536];
    let rows = Rows {
        features: &[FeatureRow {
            kind: 2,
            parts: Span {
                start: 0,
                len: 1100,
            },
            ..FEATURE
        }],
        parts: parts.leak(),
        points: zeros.expect(&rt, "points").leak(),
        ..ONE_POINT
    };
    let error = write_rows(rt.alloc(), &rows).err();
    expect_eq!(rt; error, Some(RowsError::Memory));
    let fewer = Rows {
        features: &[FeatureRow {
            kind: 2,
            parts: Span {
                start: 0,
                len: 1024,
            },
            ..FEATURE
        }],
        ..rows
    };
    expect_refused(&rt, &fewer);
}
