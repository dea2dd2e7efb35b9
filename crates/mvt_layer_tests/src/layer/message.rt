//! Items read, refused and written.
use super::support::{KEYS, feature_with, repeated_keys};
use crate::expect::{expect, expect_eq};
use mvt_base::{Items, Text};
use mvt_geometry::Geometry;
use mvt_message::*;
use std::alloc::{AllocError, Global};
use std::process::Abort;

// A layer `a` with the point (25,17); and the same layer named `b`.
const ONE_POINT: [u8; 17] = [
    0x78, 0x02, 0x0A, 0x01, 0x61, 0x12, 0x07, 0x18, 0x01, 0x22, 0x03, 0x09, 0x32, 0x22, 0x28, 0x80,
    0x20,
];

const ONE_POINT_B: [u8; 17] = [
    0x78, 0x02, 0x0A, 0x01, 0x62, 0x12, 0x07, 0x18, 0x01, 0x22, 0x03, 0x09, 0x32, 0x22, 0x28, 0x80,
    0x20,
];

// Two features with the attribute `k` of 5, by two entries of the layer for one key, and the same
// with one.
const TWICE_A_KEY: [u8; 44] = [
    0x78, 0x02, 0x0A, 0x01, 0x61, 0x12, 0x0B, 0x12, 0x02, 0x00, 0x00, 0x18, 0x01, 0x22, 0x03, 0x09,
    0x32, 0x22, 0x12, 0x0B, 0x12, 0x02, 0x01, 0x00, 0x18, 0x01, 0x22, 0x03, 0x09, 0x32, 0x22, 0x1A,
    0x01, 0x6B, 0x1A, 0x01, 0x6B, 0x22, 0x02, 0x28, 0x05, 0x28, 0x80, 0x20,
];

const ONCE_A_KEY: [u8; 41] = [
    0x78, 0x02, 0x0A, 0x01, 0x61, 0x12, 0x0B, 0x12, 0x02, 0x00, 0x00, 0x18, 0x01, 0x22, 0x03, 0x09,
    0x32, 0x22, 0x12, 0x0B, 0x12, 0x02, 0x00, 0x00, 0x18, 0x01, 0x22, 0x03, 0x09, 0x32, 0x22, 0x1A,
    0x01, 0x6B, 0x22, 0x02, 0x28, 0x05, 0x28, 0x80, 0x20,
];

// A layer `a` without features, and one with a feature of nothing.
const PLAIN: [u8; 8] = [0x78, 0x02, 0x0A, 0x01, 0x61, 0x28, 0x80, 0x20];

const BARE: [u8; 14] = [
    0x78, 0x02, 0x0A, 0x01, 0x61, 0x12, 0x04, 0x18, 0x00, 0x22, 0x00, 0x28, 0x80, 0x20,
];

// A layer with a name, a key and a value that are too long to be kept in place, and a feature of
// nothing.
const LONG_TEXTS: &[u8] = b"\x78\x02\x0A\x12a name of 18 bytes\
    \x12\x08\x12\x02\x00\x00\x18\x00\x22\x00\
    \x1A\x12a text of 18 bytes\x22\x14\x0A\x12a text of 18 bytes\x28\x80\x20";

const FOREIGN: [u8; 5] = [0x78, 0x01, 0x0A, 0x01, 0x61];

// The layer `a` with a feature of the point (25,17), and these keys with the value 5 each.
fn layer_with(alloc: Global, keys: &[&str]) -> Result<Layer, AllocError> {
    let mut features = Vec::with_capacity(alloc, 1)?;
    features.push(feature_with(alloc, keys)?)?;
    Ok(Layer {
        name: Text::from_str(alloc, "a")?,
        extent: 4096,
        features: Items::new(features),
    })
}

fn layer_item(rt: &(impl Abort + AllocGlobal), keys: &[&str]) -> Item {
    Item::Layer(layer_with(rt.alloc(), keys).expect(rt, "a layer"))
}

fn foreign(alloc: Global, version: u32, bytes: &[u8]) -> Result<Item, AllocError> {
    let bytes = Items::new(Vec::from_slice(alloc, bytes)?);
    Ok(Item::Foreign { version, bytes })
}

fn foreign_item(rt: &(impl Abort + AllocGlobal), version: u32, bytes: &[u8]) -> Item {
    foreign(rt.alloc(), version, bytes).expect(rt, "an item")
}

// The item of a short payload that begins at 2, after the tag at 0.
fn read_short(alloc: Global, payload: &[u8]) -> Result<Item, MessageError> {
    if payload.len() > 100 {
        return Err(MessageError::Memory);
    }
    read_item(alloc, payload, 2, 0)
}

fn item_of(rt: &(impl Abort + AllocGlobal), payload: &[u8]) -> Item {
    read_short(rt.alloc(), payload).expect(rt, "an item")
}

// The name that such a payload has, which is only judged.
fn judge_short(alloc: Global, payload: &[u8]) -> Result<Option<&str>, MessageError> {
    if payload.len() > 100 {
        return Err(MessageError::Memory);
    }
    judge_item(alloc, payload, 2, 0)
}

// What such a payload is refused for, read or judged.
fn expect_refused(rt: &(impl Abort + AllocGlobal), payload: &[u8], place: (Option<u32>, u64, u32)) {
    let read = read_short(rt.alloc(), payload).err();
    expect_eq!(rt; read.map(place_of), Some(place));
    let judged = judge_short(rt.alloc(), payload).err();
    expect_eq!(rt; judged.map(place_of), Some(place));
}

// No cause has the number 0.
fn place_of(error: MessageError) -> (Option<u32>, u64, u32) {
    match error {
        MessageError::Memory => (None, 0, 0),
        MessageError::Fault { feature, at, cause } => (feature, at, cause.number()),
    }
}

fn expect_name(rt: &(impl Abort + AllocGlobal), payload: &[u8], name: Option<&str>) {
    let judged = judge_short(rt.alloc(), payload).expect(rt, "an item");
    expect_eq!(rt; judged, name);
}

// The payload of an item that is valid, written, is these bytes, and its length theirs.
fn expect_written(rt: &(impl Abort + AllocGlobal), item: &Item, bytes: &[u8]) {
    expect!(rt; is_valid_item(item));
    let written = put_item(rt.alloc(), item).expect(rt, "bytes");
    expect_eq!(rt; written.as_slice(), bytes);
    drop(written);
    expect_eq!(rt; item_len(rt.alloc(), item), Ok(bytes.len() as u64));
}

fn expect_copy(rt: &(impl Abort + AllocGlobal), item: &Item) {
    let copy = item.copy(rt.alloc()).expect(rt, "a copy");
    expect!(rt; copy == *item);
    drop(copy);
}

// A payload is this item, which is let go.
fn expect_item(rt: &(impl Abort + AllocGlobal), payload: &[u8], expected: Item) {
    let item = item_of(rt, payload);
    expect!(rt; item == expected);
    drop(expected);
    drop(item);
}

#[test]
fn reads_and_writes_layers(rt: HostRuntime) {
    let item = item_of(&rt, &ONE_POINT);
    expect_written(&rt, &item, &ONE_POINT);
    expect_copy(&rt, &item);
    drop(item);
    let item = item_of(&rt, &TWICE_A_KEY);
    expect_written(&rt, &item, &ONCE_A_KEY);
    drop(item);
}

#[test]
fn reads_layers(rt: HostRuntime) {
    let without_extent = &ONE_POINT[..14];
    let version_last = [
        0x0A, 0x01, 0x61, 0x12, 0x07, 0x18, 0x01, 0x22, 0x03, 0x09, 0x32, 0x22, 0x28, 0x80, 0x20,
        0x78, 0x02,
    ];
    for payload in [&ONE_POINT, without_extent, &version_last] {
        expect_item(&rt, payload, layer_item(&rt, &[]));
    }
}

fn expect_layer_copy(rt: &(impl Abort + AllocGlobal), layer: &Layer, name: &str) {
    let copy = layer.copy(rt.alloc()).expect(rt, "a copy");
    expect!(rt; copy == *layer);
    expect_eq!(rt; copy.name.as_str(), name);
    drop(copy);
}

#[test]
fn copies_layers(rt: HostRuntime) {
    for (payload, name) in [(ONE_POINT, "a"), (ONE_POINT_B, "b")] {
        let item = item_of(&rt, &payload);
        match &item {
            Item::Layer(layer) => expect_layer_copy(&rt, layer, name),
            Item::Foreign { .. } => expect!(rt; false),
        }
        drop(item);
    }
}

#[test]
fn carries_foreign_items(rt: HostRuntime) {
    let item = foreign_item(&rt, 1, &FOREIGN);
    expect_copy(&rt, &item);
    expect_written(&rt, &item, &FOREIGN);
    expect_item(&rt, &FOREIGN, item);
    let two_versions = [0x78, 0x02, 0x78, 0x01, 0x0A, 0x01, 0x61, 0x28, 0x80, 0x20];
    expect_item(&rt, &two_versions, foreign_item(&rt, 1, &two_versions));
    let no_text = [0x78, 0x01, 0x0A, 0x01, 0xFF];
    expect_item(&rt, &no_text, foreign_item(&rt, 1, &no_text));
    expect_item(&rt, &[0x78, 0x00], foreign_item(&rt, 0, &[0x78, 0x00]));
}

// The version is the last that stands, and only a field is one.
#[test]
fn tells_foreign_items_by_their_last_version(rt: HostRuntime) {
    expect_name(&rt, b"\x0A\x01a\x28\x80\x20\x78\x01", None);
    expect_name(&rt, b"\x78\x01\x0A\x01a\x28\x80\x20\x78\x02", Some("a"));
    expect_name(&rt, b"\x0A\x01a\x78\x02\x22\x04\x0A\x02\x78\x01", Some("a"));
    expect_name(&rt, b"\x0A\x01a\x78\x01\x22\x04\x0A\x02\x78\x02", None);
}

// Both calls say whether the item can be written.
fn expect_valid(rt: &(impl Abort + AllocGlobal), item: Item, answer: bool) {
    expect_eq!(rt; is_valid_item(&item), answer);
    expect_eq!(rt; validate_item(rt.alloc(), &item), Ok(answer));
    drop(item);
}

#[test]
fn validates_items(rt: HostRuntime) {
    expect_valid(&rt, layer_item(&rt, &[]), true);
    expect_valid(&rt, layer_item(&rt, &["k", "k"]), false);
    expect_valid(&rt, layer_item(&rt, &KEYS), true);
    expect_valid(&rt, layer_item(&rt, &repeated_keys()), false);
    expect_valid(&rt, foreign_item(&rt, 1, &FOREIGN), true);
    expect_valid(&rt, foreign_item(&rt, 2, &[0x78, 0x02]), false);
    expect_valid(&rt, foreign_item(&rt, 1, &[0x78, 0x03]), false);
    let layer = layer_with(rt.alloc(), &["k", "k"]).expect(&rt, "a layer");
    expect!(rt; !is_valid_layer(&layer));
    drop(layer);
}

// Payloads, and what they are written as.
#[test]
fn writes_what_it_read(rt: HostRuntime) {
    let rows: [(&[u8], &[u8]); 8] = [
        (
            &[0x78, 0x01, 0x78, 0x02, 0x0A, 0x01, 0x61, 0x28, 0x80, 0x20],
            &PLAIN,
        ),
        (
            &[
                0x78, 0x02, 0x0A, 0x01, 0x62, 0x0A, 0x01, 0x61, 0x28, 0x80, 0x20,
            ],
            &PLAIN,
        ),
        (
            &[0x78, 0x02, 0x0A, 0x00, 0x28, 0x80, 0x20],
            &[0x78, 0x02, 0x0A, 0x00, 0x28, 0x80, 0x20],
        ),
        (&[0x78, 0x02, 0x0A, 0x01, 0x61, 0x12, 0x00], &BARE),
        (
            &[0x78, 0x02, 0x0A, 0x01, 0x61, 0x12, 0x02, 0x28, 0x07],
            &BARE,
        ),
        (
            &[
                0x78, 0x02, 0x0A, 0x01, 0x61, 0x22, 0x02, 0x28, 0x05, 0x28, 0x80, 0x20,
            ],
            &PLAIN,
        ),
        (
            &[
                0x78, 0x02, 0x0A, 0x01, 0x61, 0x22, 0x04, 0x28, 0x05, 0x28, 0x06, 0x28, 0x80, 0x20,
            ],
            &PLAIN,
        ),
        (&PLAIN, &PLAIN),
    ];
    for (payload, written) in rows {
        let item = item_of(&rt, payload);
        expect_written(&rt, &item, written);
        expect_item(&rt, written, item);
    }
}

// A layer has one feature, which has no fields.
fn expect_bare(rt: &(impl Abort + AllocGlobal), layer: &Layer) {
    let empty = Geometry::Unknown(Items::new(Vec::new(rt.alloc())));
    expect_eq!(rt; layer.features.as_slice().len(), 1);
    for feature in layer.features.as_slice() {
        expect!(rt; feature.id.is_none());
        expect!(rt; feature.attributes.as_slice().is_empty());
        expect!(rt; feature.geometry == empty);
    }
    drop(empty);
}

#[test]
fn reads_bare_features(rt: HostRuntime) {
    let item = item_of(&rt, &BARE);
    match &item {
        Item::Layer(layer) => {
            expect_bare(&rt, layer);
            expect_layer_copy(&rt, layer, "a");
        }
        Item::Foreign { .. } => expect!(rt; false),
    }
    drop(item);
}

#[test]
fn refuses_layers(rt: HostRuntime) {
    let rows: [(&[u8], u64, u32); 12] = [
        (&[0x78, 0x02, 0x0A, 0x02, 0x61], 4, 1),
        (&[0x78, 0x01, 0x0A, 0x02, 0x61], 4, 1),
        (&[0x7A, 0x00, 0x78, 0x01], 2, 5),
        (&[0x78, 0x80, 0x80, 0x80, 0x80, 0x10], 2, 6),
        (
            &[
                0x78, 0x02, 0x0A, 0x01, 0x61, 0x28, 0x80, 0x80, 0x80, 0x80, 0x10,
            ],
            7,
            6,
        ),
        (&[0x78, 0x02, 0x0A, 0x01, 0xFF], 4, 7),
        (
            &[
                0x78, 0x02, 0x0A, 0x01, 0xFF, 0x0A, 0x01, 0x61, 0x28, 0x80, 0x20,
            ],
            4,
            7,
        ),
        (&[0x0A, 0x01, 0x61], 0, 8),
        (&[0x78, 0x02], 0, 10),
        (&[0x78, 0x02, 0x0A, 0x01, 0x61, 0x22, 0x00], 7, 11),
        (
            &[
                0x78, 0x02, 0x0A, 0x01, 0x61, 0x22, 0x04, 0x20, 0x05, 0x28, 0x05,
            ],
            7,
            11,
        ),
        (
            &[
                0x78, 0x02, 0x0A, 0x01, 0x61, 0x12, 0x05, 0x18, 0x01, 0x22, 0x01, 0x09, 0x22, 0x00,
            ],
            14,
            11,
        ),
    ];
    for (payload, at, number) in rows {
        expect_refused(&rt, payload, (None, at, number));
    }
}

#[test]
fn judges_items(rt: HostRuntime) {
    for payload in [
        ONE_POINT.as_slice(),
        &TWICE_A_KEY,
        &ONCE_A_KEY,
        &PLAIN,
        &BARE,
    ] {
        expect_name(&rt, payload, Some("a"));
    }
    expect_name(&rt, LONG_TEXTS, Some("a name of 18 bytes"));
    expect_name(&rt, &FOREIGN, None);
}

#[test]
fn refuses_features(rt: HostRuntime) {
    let rows: [(&[u8], u64, u32); 14] = [
        (
            &[0x78, 0x02, 0x0A, 0x01, 0x61, 0x12, 0x03, 0x22, 0x01, 0x80],
            9,
            1,
        ),
        (
            &[0x78, 0x02, 0x0A, 0x01, 0x61, 0x12, 0x02, 0x18, 0x04],
            9,
            12,
        ),
        (
            &[
                0x78, 0x02, 0x0A, 0x01, 0x61, 0x12, 0x03, 0x12, 0x01, 0x00, 0x1A, 0x01, 0x6B, 0x22,
                0x02, 0x28, 0x05,
            ],
            1,
            13,
        ),
        (
            &[
                0x78, 0x02, 0x0A, 0x01, 0x61, 0x12, 0x04, 0x12, 0x02, 0x01, 0x00, 0x1A, 0x01, 0x6B,
                0x22, 0x02, 0x28, 0x05,
            ],
            0,
            14,
        ),
        (
            &[
                0x78, 0x02, 0x0A, 0x01, 0x61, 0x12, 0x04, 0x12, 0x02, 0x00, 0x01, 0x1A, 0x01, 0x6B,
                0x22, 0x02, 0x28, 0x05,
            ],
            1,
            15,
        ),
        (
            &[
                0x78, 0x02, 0x0A, 0x01, 0x61, 0x12, 0x06, 0x12, 0x04, 0x00, 0x00, 0x00, 0x00, 0x1A,
                0x01, 0x6B, 0x22, 0x02, 0x28, 0x05,
            ],
            2,
            16,
        ),
        (
            &[
                0x78, 0x02, 0x0A, 0x01, 0x61, 0x12, 0x07, 0x18, 0x02, 0x22, 0x03, 0x0A, 0x02, 0x02,
            ],
            0,
            17,
        ),
        (
            &[
                0x78, 0x02, 0x0A, 0x01, 0x61, 0x12, 0x05, 0x18, 0x01, 0x22, 0x01, 0x01,
            ],
            0,
            18,
        ),
        (
            &[
                0x78, 0x02, 0x0A, 0x01, 0x61, 0x12, 0x05, 0x18, 0x01, 0x22, 0x01, 0x09,
            ],
            0,
            19,
        ),
        (
            &[
                0x78, 0x02, 0x0A, 0x01, 0x61, 0x12, 0x0A, 0x18, 0x02, 0x22, 0x06, 0x09, 0x04, 0x04,
                0x0A, 0x00, 0x00,
            ],
            4,
            20,
        ),
        (
            &[
                0x78, 0x02, 0x0A, 0x01, 0x61, 0x12, 0x0D, 0x18, 0x01, 0x22, 0x09, 0x11, 0xFE, 0xFF,
                0xFF, 0xFF, 0x0F, 0x00, 0x02, 0x00,
            ],
            3,
            21,
        ),
        (
            &[
                0x78, 0x02, 0x0A, 0x01, 0x61, 0x12, 0x0D, 0x18, 0x03, 0x22, 0x09, 0x09, 0x28, 0x44,
                0x12, 0x17, 0x2B, 0x09, 0x0B, 0x0F,
            ],
            8,
            22,
        ),
        (
            &[
                0x78, 0x02, 0x0A, 0x01, 0x61, 0x12, 0x07, 0x18, 0x02, 0x22, 0x03, 0x09, 0x04, 0x04,
            ],
            3,
            23,
        ),
        (
            &[
                0x78, 0x02, 0x0A, 0x01, 0x61, 0x12, 0x0B, 0x18, 0x01, 0x22, 0x07, 0x09, 0xFF, 0xFF,
                0xFF, 0xFF, 0x0F, 0x00,
            ],
            1,
            26,
        ),
    ];
    for (payload, at, number) in rows {
        expect_refused(&rt, payload, (Some(0), at, number));
    }
    let second = [
        0x78, 0x02, 0x0A, 0x01, 0x61, 0x12, 0x00, 0x12, 0x03, 0x12, 0x01, 0x00,
    ];
    expect_refused(&rt, &second, (Some(1), 1, 13));
}

// The tests of refused growths pass too where one allocation, whichever, is refused: each call has
// two turns, of which one at most may want memory.

fn is_read_refused(rt: &(impl Abort + AllocGlobal), payload: &[u8]) -> bool {
    match read_short(rt.alloc(), payload) {
        Ok(item) => {
            expect!(rt; is_valid_item(&item));
            drop(item);
            false
        }
        Err(error) => {
            expect_eq!(rt; error, MessageError::Memory);
            true
        }
    }
}

#[test]
fn refused_reads(rt: HostRuntime) {
    let mut refused = 0u8;
    for payload in [TWICE_A_KEY.as_slice(), LONG_TEXTS, FOREIGN.as_slice()] {
        for _turn in 0..2 {
            refused = refused.saturating_add(u8::from(is_read_refused(&rt, payload)));
        }
    }
    expect!(rt; refused < 2);
}

fn is_copy_refused(rt: &(impl Abort + AllocGlobal), item: &Item) -> bool {
    match item.copy(rt.alloc()) {
        Ok(copy) => {
            expect!(rt; copy == *item);
            drop(copy);
            false
        }
        Err(AllocError) => true,
    }
}

fn is_len_refused(rt: &(impl Abort + AllocGlobal), item: &Item, len: u64) -> bool {
    expect!(rt; is_valid_item(item));
    match item_len(rt.alloc(), item) {
        Err(PutError::Memory) => true,
        found => {
            expect_eq!(rt; found, Ok(len));
            false
        }
    }
}

fn is_put_refused(rt: &(impl Abort + AllocGlobal), item: &Item, written: &[u8]) -> bool {
    expect!(rt; is_valid_item(item));
    match put_item(rt.alloc(), item) {
        Ok(bytes) => {
            expect_eq!(rt; bytes.as_slice(), written);
            drop(bytes);
            false
        }
        Err(error) => {
            expect_eq!(rt; error, PutError::Memory);
            true
        }
    }
}

// How often an item was refused memory, which is made, copied and measured.
fn write_refusals(rt: &(impl Abort + AllocGlobal)) -> u8 {
    let Ok(item) = read_short(rt.alloc(), LONG_TEXTS) else {
        return 1;
    };
    let copied = u8::from(is_copy_refused(rt, &item));
    let measured = u8::from(is_len_refused(rt, &item, 77));
    drop(item);
    copied.saturating_add(measured)
}

#[test]
fn refused_writes(rt: HostRuntime) {
    let first = write_refusals(&rt);
    let second = write_refusals(&rt);
    expect!(rt; first.saturating_add(second) < 2);
}

fn is_layer_copy_refused(rt: &(impl Abort + AllocGlobal), layer: &Layer) -> bool {
    match layer.copy(rt.alloc()) {
        Ok(copy) => {
            expect!(rt; copy == *layer);
            drop(copy);
            false
        }
        Err(AllocError) => true,
    }
}

fn is_layer_refused(rt: &(impl Abort + AllocGlobal), payload: &[u8]) -> bool {
    let Ok(item) = read_short(rt.alloc(), payload) else {
        return true;
    };
    let is_refused = match &item {
        Item::Layer(layer) => is_layer_copy_refused(rt, layer),
        Item::Foreign { .. } => {
            expect!(rt; false);
            false
        }
    };
    drop(item);
    is_refused
}

#[test]
fn refused_copies(rt: HostRuntime) {
    let mut refused = 0u8;
    for payload in [ONE_POINT, ONE_POINT_B] {
        for _turn in 0..2 {
            refused = refused.saturating_add(u8::from(is_layer_refused(&rt, &payload)));
        }
    }
    expect!(rt; refused < 2);
}

fn is_validation_refused(rt: &(impl Abort + AllocGlobal), keys: &[&str], answer: bool) -> bool {
    let Ok(layer) = layer_with(rt.alloc(), keys) else {
        return true;
    };
    let item = Item::Layer(layer);
    let found = validate_item(rt.alloc(), &item);
    drop(item);
    expect!(rt; found == Ok(answer) || found == Err(AllocError));
    found.is_err()
}

#[test]
fn refused_validations(rt: HostRuntime) {
    let repeated = repeated_keys();
    let rows: [(&[&str], bool); 3] = [(&["k", "k"], false), (&KEYS, true), (&repeated, false)];
    let mut refused = 0u8;
    for (keys, answer) in rows {
        for _turn in 0..2 {
            let is_refused = is_validation_refused(&rt, keys, answer);
            refused = refused.saturating_add(u8::from(is_refused));
        }
    }
    expect!(rt; refused < 2);
}

fn is_payload_refused(rt: &(impl Abort + AllocGlobal), payload: &[u8], written: &[u8]) -> bool {
    let Ok(item) = read_short(rt.alloc(), payload) else {
        return true;
    };
    let is_refused = is_put_refused(rt, &item, written);
    drop(item);
    is_refused
}

#[test]
fn refused_payloads(rt: HostRuntime) {
    let mut refused = 0u8;
    for (payload, written) in [
        (&ONE_POINT[..], &ONE_POINT[..]),
        (&TWICE_A_KEY, &ONCE_A_KEY),
    ] {
        for _turn in 0..2 {
            let is_refused = is_payload_refused(&rt, payload, written);
            refused = refused.saturating_add(u8::from(is_refused));
        }
    }
    expect!(rt; refused < 2);
}

// How often an item of another version was refused memory, which is made, copied and put.
fn foreign_refusals(rt: &(impl Abort + AllocGlobal)) -> u8 {
    let Ok(item) = foreign(rt.alloc(), 1, &FOREIGN) else {
        return 1;
    };
    // A length takes no memory.
    expect!(rt; !is_len_refused(rt, &item, 5));
    let copied = u8::from(is_copy_refused(rt, &item));
    let put = u8::from(is_put_refused(rt, &item, &FOREIGN));
    drop(item);
    copied.saturating_add(put)
}

#[test]
fn refused_foreign_items(rt: HostRuntime) {
    let first = foreign_refusals(&rt);
    let second = foreign_refusals(&rt);
    expect!(rt; first.saturating_add(second) < 2);
}
