//! What a tile is rewritten as, beside what it is written as once it was read as a value: tiles by
//! a seed in the orders that programs write, as they are and with bytes changed; 20,400 in all.
use super::making::{
    CANONICAL, EXTENT_FIRST, EXTENT_IN_FRONT, FEATURES_LAST, Order, Random, TAGS_LAST,
    VERSION_LAST, changed, make_tile,
};
use crate::expect::{expect, expect_eq};
use mvt_tile::{decode, encode, is_valid, rewrite};
use std::process::Abort;

const TILES: u32 = 3_400;

// Rewriting answers the bytes of the value, or its fault; whether it is a tile.
fn expect_same(rt: &(impl Abort + AllocGlobal), input: &[u8]) -> bool {
    let made = rewrite(rt.alloc(), input);
    match decode(rt.alloc(), input) {
        Ok(tile) => {
            expect!(rt; is_valid(&tile));
            let canonical = encode(rt.alloc(), &tile).expect(rt, "bytes");
            let found = made.expect(rt, "bytes");
            expect_eq!(rt; found.as_deref(), Some(canonical.as_slice()), "of {input:?}");
            drop(found);
            drop(canonical);
            drop(tile);
            true
        }
        Err(error) => {
            expect_eq!(rt; made.err(), Some(error), "of {input:?}");
            false
        }
    }
}

// A tile as it is made, and with one or two of its bytes changed; whether the last is a tile.
fn expect_changed(rt: &(impl Abort + AllocGlobal), random: &mut Random, order: &Order) -> bool {
    let tile = make_tile(rt.alloc(), random, order).expect(rt, "a tile");
    expect!(rt; expect_same(rt, &tile));
    let mut input = tile;
    for _ in 0..1 + random.below(2) {
        input = changed(rt.alloc(), random, &input).expect(rt, "bytes");
    }
    let is_tile = expect_same(rt, &input);
    drop(input);
    is_tile
}

// Of the changed tiles of an order many are tiles still, and many aren't.
fn expect_order(rt: &(impl Abort + AllocGlobal), seed: u64, order: &Order) {
    let mut random = Random::new(seed);
    let mut tiles = 0u32;
    for _ in 0..TILES {
        if expect_changed(rt, &mut random, order) {
            tiles = tiles.saturating_add(1);
        }
    }
    expect!(rt; tiles > TILES / 16);
    expect!(rt; tiles < TILES / 2);
}

#[test]
fn rewrites_as_it_encodes_in_order(rt: HostRuntime) {
    expect_order(&rt, 1, &CANONICAL);
}

#[test]
fn rewrites_as_it_encodes_with_the_version_last(rt: HostRuntime) {
    expect_order(&rt, 2, &VERSION_LAST);
}

#[test]
fn rewrites_as_it_encodes_with_the_extent_in_front(rt: HostRuntime) {
    expect_order(&rt, 3, &EXTENT_IN_FRONT);
}

#[test]
fn rewrites_as_it_encodes_with_the_extent_first(rt: HostRuntime) {
    expect_order(&rt, 4, &EXTENT_FIRST);
}

#[test]
fn rewrites_as_it_encodes_with_the_features_last(rt: HostRuntime) {
    expect_order(&rt, 5, &FEATURES_LAST);
}

#[test]
fn rewrites_as_it_encodes_with_the_tags_last(rt: HostRuntime) {
    expect_order(&rt, 6, &TAGS_LAST);
}
