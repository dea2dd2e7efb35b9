//! Features that are judged straight from their bytes, beside the same read by their fields.
use super::feature::{place_of, refused_for};
use crate::expect::expect_eq;
use mvt_attrs::LayerKeys;
use mvt_feature::{Scratch, judge_feature};
use std::process::Abort;

/// A polygon with an id and tags, a line without, points of two packed pieces, a point whose type
/// stands first, and integers of unknown type.
const FEATURES: [&[u8]; 5] = [
    &[
        0x08, 0x81, 0x01, 0x12, 0x02, 0x00, 0x00, 0x18, 0x03, 0x22, 0x09, 0x09, 0x00, 0x00, 0x12,
        0x14, 0x00, 0x00, 0x14, 0x0F,
    ],
    &[
        0x18, 0x02, 0x22, 0x07, 0x09, 0x04, 0x04, 0x0A, 0x80, 0x01, 0x02,
    ],
    &[
        0x18, 0x01, 0x22, 0x03, 0x11, 0x02, 0x02, 0x22, 0x02, 0x04, 0x04,
    ],
    &[
        0x18, 0x01, 0x12, 0x02, 0x00, 0x00, 0x22, 0x03, 0x09, 0x02, 0x02,
    ],
    &[0x12, 0x02, 0x00, 0x00, 0x22, 0x02, 0x07, 0x07],
];

/// What a feature's payload, which begins at 9, is refused for where it is judged straight from its
/// bytes, with the key `k` and one value.
fn checked_for(rt: &(impl Abort + AllocGlobal), payload: &[u8]) -> Option<(u64, u32)> {
    let mut keys = LayerKeys::new(rt.alloc(), &["k"]);
    let mut scratch = Scratch::new(rt.alloc());
    let checked = judge_feature(rt.alloc(), payload, 9, &mut keys, 1, &mut scratch);
    drop(scratch);
    drop(keys);
    checked.err().map(place_of)
}

/// A payload is refused for the same where it is judged and where it is read; and so is each front
/// of it, and it with each byte made another.
fn expect_same_around(rt: &(impl Abort + AllocGlobal), payload: &[u8]) {
    for len in 0..=payload.len() {
        let front = &payload[..len];
        expect_eq!(*rt; checked_for(rt, front), refused_for(rt, front));
    }
    let mut changed = Vec::from_slice(rt.alloc(), payload).expect(rt, "bytes");
    for (index, byte) in payload.iter().enumerate() {
        for other in 0..=u8::MAX {
            if let Some(place) = changed.get_mut(index) {
                *place = other;
            }
            expect_eq!(*rt; checked_for(rt, &changed), refused_for(rt, &changed));
        }
        if let Some(place) = changed.get_mut(index) {
            *place = *byte;
        }
    }
    drop(changed);
}

/// A point with tags behind its integers, or its id; with an unknown field in front; of two types,
/// of which the last counts; with tags in two pieces, in front of its integers and round them; with
/// integers that aren't packed; and with a tag that is spelled in two bytes.
const ODD_FEATURES: [&[u8]; 8] = [
    &[
        0x18, 0x01, 0x22, 0x03, 0x09, 0x02, 0x02, 0x12, 0x02, 0x00, 0x00,
    ],
    &[0x18, 0x01, 0x22, 0x03, 0x09, 0x02, 0x02, 0x08, 0x05],
    &[0x48, 0x01, 0x18, 0x01, 0x22, 0x03, 0x09, 0x02, 0x02],
    &[0x18, 0x03, 0x18, 0x01, 0x22, 0x03, 0x09, 0x02, 0x02],
    &[
        0x12, 0x01, 0x00, 0x12, 0x01, 0x00, 0x18, 0x01, 0x22, 0x03, 0x09, 0x02, 0x02,
    ],
    &[
        0x12, 0x01, 0x00, 0x18, 0x01, 0x22, 0x03, 0x09, 0x02, 0x02, 0x12, 0x01, 0x00,
    ],
    &[0x18, 0x01, 0x20, 0x09, 0x20, 0x02, 0x20, 0x02],
    &[0x18, 0x01, 0xA2, 0x00, 0x03, 0x09, 0x02, 0x02],
];

#[test]
fn odd_features_are_judged_as_they_are_read(rt: HostRuntime) {
    for payload in ODD_FEATURES {
        expect_eq!(rt; checked_for(&rt, payload), None);
        expect_same_around(&rt, payload);
    }
}

/// These bytes, then 1,100 zeros, and those behind them.
fn round_zeros(rt: &(impl Abort + AllocGlobal), front: &[u8], back: &[u8]) -> Vec<u8> {
    let mut bytes = Vec::with_capacity(rt.alloc(), 1200).expect(rt, "room");
    bytes.extend_from_slice(front).expect(rt, "the front");
    for _ in 0..1100 {
        bytes.push(0).expect(rt, "a zero");
    }
    bytes.extend_from_slice(back).expect(rt, "the back");
    bytes
}

/// The integers, at 11, are cut off; many tags stand behind them, which ask for no memory.
#[test]
fn tags_behind_broken_integers(rt: HostRuntime) {
    let front = [0x18, 0x03, 0x22, 0x01, 0x80, 0x12, 0xCC, 0x08];
    let payload = round_zeros(&rt, &front, &[]);
    expect_eq!(rt; checked_for(&rt, &payload), Some((11, 1)));
    drop(payload);
}

/// The integers, at 1,114, are cut off; as many tags stand in front of them.
#[test]
fn tags_in_front_of_broken_integers(rt: HostRuntime) {
    let front = [0x18, 0x03, 0x12, 0xCC, 0x08];
    let payload = round_zeros(&rt, &front, &[0x22, 0x01, 0x80]);
    expect_eq!(rt; checked_for(&rt, &payload), Some((1114, 1)));
    drop(payload);
}

/// The field at 15 runs past the end, whatever memory there is for the tags in front of it.
#[test]
fn refused_tags_hide_no_broken_field(rt: HostRuntime) {
    let payload = [0x18, 0x03, 0x12, 0x02, 0x00, 0x00, 0x22, 0x7F, 0x09];
    expect_eq!(rt; checked_for(&rt, &payload), Some((15, 1)));
}

#[test]
fn features_are_judged_as_they_are_read(rt: HostRuntime) {
    for payload in FEATURES {
        expect_eq!(rt; checked_for(&rt, payload), None);
        expect_same_around(&rt, payload);
    }
}

/// These bytes, then 60 fields of 600 tags each, and those behind them.
fn round_pieces(rt: &(impl Abort + AllocGlobal), front: &[u8], back: &[u8]) -> Vec<u8> {
    let mut bytes = Vec::with_capacity(rt.alloc(), 40_000).expect(rt, "room");
    bytes.extend_from_slice(front).expect(rt, "the front");
    for _ in 0..60 {
        bytes
            .extend_from_slice(&[0x12, 0xD8, 0x04])
            .expect(rt, "a field of tags");
        bytes.extend_from_slice(&[0; 600]).expect(rt, "its tags");
    }
    bytes.extend_from_slice(back).expect(rt, "the back");
    bytes
}

/// The integers, at 11, are cut off; of the tags behind them few are read.
#[test]
fn tags_in_pieces_behind_broken_integers(rt: HostRuntime) {
    let payload = round_pieces(&rt, &[0x18, 0x03, 0x22, 0x01, 0x80], &[]);
    expect_eq!(rt; checked_for(&rt, &payload), Some((11, 1)));
    drop(payload);
}

/// The same tags in front of the integers, which are at 36,191.
#[test]
fn tags_in_pieces_in_front_of_broken_integers(rt: HostRuntime) {
    let payload = round_pieces(&rt, &[0x18, 0x03], &[0x22, 0x01, 0x80]);
    expect_eq!(rt; checked_for(&rt, &payload), Some((36_191, 1)));
    drop(payload);
}
