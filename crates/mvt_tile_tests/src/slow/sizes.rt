//! Tiles of any number of attributes and layers, also of more than two bytes count.
use crate::expect::{expect, expect_eq};
use crate::tile::sizes::{COUNTS, expect_answers, keyed, layer, one_layer, text_of};
use crate::tile::support::{KEYS, named};
use mvt_base::Items;
use mvt_io::MemorySink;
use mvt_tile::{Tile, decode, encode, validate, write_tile};
use std::process::Abort;

#[test]
fn takes_any_number_of_attributes(rt: HostRuntime) {
    for count in COUNTS {
        let features = vec![in rt.alloc(); keyed(&rt, count), keyed(&rt, 2)];
        expect_answers(&rt, one_layer(&rt, features.expect(&rt, "features")));
    }
}

// A tile is made, read again and written to a writer.
fn expect_round_trip(rt: &(impl Abort + AllocGlobal), tile: &Tile) {
    let valid = validate(rt.alloc(), tile).expect(rt, "an answer");
    expect!(rt; valid);
    let bytes = encode(rt.alloc(), tile).expect(rt, "bytes");
    let read = decode(rt.alloc(), &bytes).expect(rt, "a tile");
    expect!(rt; read == *tile);
    drop(read);
    let made = MemorySink::new(rt.alloc(), bytes.len(), bytes.len(), u64::MAX, false);
    let mut writer = made.expect(rt, "a writer");
    expect_eq!(rt; write_tile(rt.alloc(), tile, &mut writer), Ok(()));
    expect!(rt; writer.taken() == bytes.as_slice());
    drop(writer);
    drop(bytes);
}

#[test]
fn takes_more_attributes_than_two_bytes_count(rt: HostRuntime) {
    for count in [65_536, 65_537, 70_000] {
        let features = vec![in rt.alloc(); keyed(&rt, count), keyed(&rt, 2)];
        let tile = one_layer(&rt, features.expect(&rt, "features"));
        expect_round_trip(&rt, &tile);
        drop(tile);
    }
}

fn layers(rt: &(impl Abort + AllocGlobal), count: u32) -> Tile {
    let mut items = Vec::new(rt.alloc());
    for number in 0..count {
        items
            .push(layer(rt, text_of(rt, number, 0), 4096))
            .expect(rt, "layers");
    }
    Tile {
        items: Items::new(items),
    }
}

#[test]
fn takes_any_number_of_layers(rt: HostRuntime) {
    for count in COUNTS {
        expect_answers(&rt, layers(&rt, count));
    }
    expect_answers(&rt, named(rt.alloc(), &KEYS).expect(&rt, "layers"));
}
