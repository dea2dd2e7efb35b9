//! What is found of bytes, beside what is found of the tile that they are: tiles by a seed, as they
//! are and with a byte changed; 4,000 in all.
use super::making::{EXTENT_FIRST, FEATURES_LAST, Order, Random, changed, make_tile};
use crate::tile::linting::expect_same;
use std::process::Abort;

const TILES: u32 = 1_000;

// A tile as it is made, and with one of its bytes changed.
fn expect_order(rt: &(impl Abort + AllocGlobal), seed: u64, order: &Order) {
    let mut random = Random::new(seed);
    for _ in 0..TILES {
        let tile = make_tile(rt.alloc(), &mut random, order).expect(rt, "a tile");
        expect_same(rt, &tile);
        let other = changed(rt.alloc(), &mut random, &tile).expect(rt, "bytes");
        drop(tile);
        expect_same(rt, &other);
        drop(other);
    }
}

#[test]
fn bytes_have_the_findings_with_the_extent_first(rt: HostRuntime) {
    expect_order(&rt, 7, &EXTENT_FIRST);
}

#[test]
fn bytes_have_the_findings_with_the_features_last(rt: HostRuntime) {
    expect_order(&rt, 8, &FEATURES_LAST);
}
