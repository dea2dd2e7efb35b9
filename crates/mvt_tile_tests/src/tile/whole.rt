//! Whole tiles, read and written.
use super::rows::*;
use super::support::{
    both_of, expect_tile, foreign_item, layer_a, named, one_feature, points, tile_of,
};
use crate::expect::{expect, expect_eq};
use mvt_attrs::{Attribute, Value};
use mvt_base::{Items, Text};
use mvt_geometry::{Geometry, Point, Polygon};
use mvt_message::{Feature, Item};
use mvt_tile::Tile;
use std::process::Abort;

fn points_of(rt: &(impl Abort + AllocGlobal), places: &[(i32, i32)]) -> Items<Point> {
    points(rt.alloc(), places).expect(rt, "points")
}

// Layer `a` with one feature of this geometry.
fn drawn(rt: &(impl Abort + AllocGlobal), geometry: Geometry) -> Tile {
    one_feature(rt.alloc(), Vec::new(rt.alloc()), geometry).expect(rt, "a tile")
}

// Layer `a` with one feature of these points.
fn point_tile(rt: &(impl Abort + AllocGlobal), places: &[(i32, i32)]) -> Tile {
    drawn(rt, Geometry::Points(points_of(rt, places)))
}

// Each input is this tile, which is written as these bytes, and let go.
fn expect_all(rt: &(impl Abort + AllocGlobal), inputs: &[&[u8]], tile: Tile, canonical: &[u8]) {
    for input in inputs {
        expect_tile(rt, input, &tile, canonical);
    }
    drop(tile);
}

#[test]
fn reads_points(rt: HostRuntime) {
    let one = [ONE_POINT, NO_EXTENT, VERSION_LAST];
    expect_all(&rt, &one, point_tile(&rt, &[(25, 17)]), ONE_POINT);
    let two = [IN_PIECES, UNPACKED];
    expect_all(&rt, &two, point_tile(&rt, &[(5, 7), (3, 2)]), TWO_POINTS);
    let far = tile_of(&rt, FAR_POINT);
    let expected = point_tile(&rt, &[(1_073_741_824, 0)]);
    expect!(rt; far == expected);
    drop(far);
    drop(expected);
}

// A polygon of an outer ring and two more, of which the second has no area.
fn rings(rt: &(impl Abort + AllocGlobal)) -> Polygon {
    let hole = points_of(rt, &[(2, 2), (2, 8), (8, 8)]);
    let flat = points_of(rt, &[(1, 1), (2, 2), (3, 3)]);
    let rest = vec![in rt.alloc(); hole, flat].expect(rt, "rings");
    Polygon {
        outer: points_of(rt, &[(0, 0), (10, 0), (10, 10), (0, 10)]),
        rest: Items::new(rest),
    }
}

#[test]
fn reads_rings(rt: HostRuntime) {
    let polygons = vec![in rt.alloc(); rings(&rt)].expect(&rt, "a polygon");
    let tile = drawn(&rt, Geometry::Polygons(Items::new(polygons)));
    expect_all(&rt, &[RINGS], tile, RINGS);
}

fn attribute(rt: &(impl Abort + AllocGlobal), key: &str, value: Value) -> Attribute {
    let key = Text::from_str(rt.alloc(), key).expect(rt, "a key");
    Attribute { key, value }
}

// A feature of the point (25,17).
fn feature(
    rt: &(impl Abort + AllocGlobal),
    id: Option<u64>,
    attributes: Vec<Attribute>,
) -> Feature {
    Feature {
        id,
        attributes: Items::new(attributes),
        geometry: Geometry::Points(points_of(rt, &[(25, 17)])),
    }
}

// The same with the attribute `k` of 5.
fn feature_k(rt: &(impl Abort + AllocGlobal)) -> Feature {
    let attributes = vec![in rt.alloc(); attribute(rt, "k", Value::Uint(5))];
    feature(rt, None, attributes.expect(rt, "an attribute"))
}

// Layer `a` with two features.
fn both_in_layer(rt: &(impl Abort + AllocGlobal), one: Feature, two: Feature) -> Tile {
    let features = vec![in rt.alloc(); one, two].expect(rt, "features");
    layer_a(rt.alloc(), features).expect(rt, "a tile")
}

#[test]
fn reads_attributes(rt: HostRuntime) {
    let tile = both_in_layer(&rt, feature_k(&rt), feature_k(&rt));
    expect_all(&rt, &[TWICE_A_KEY], tile, ONCE_A_KEY);
}

// An attribute of each kind but text.
fn all_kinds(rt: &(impl Abort + AllocGlobal)) -> Vec<Attribute> {
    let kinds = [
        ("a", Value::Int(5)),
        ("b", Value::Uint(5)),
        ("c", Value::Sint(5)),
        ("d", Value::Float(2_147_483_648)),
        ("e", Value::Double(9_223_372_036_854_775_808)),
        ("f", Value::Bool(true)),
    ];
    let mut attributes = Vec::new(rt.alloc());
    for (key, value) in kinds {
        attributes
            .push(attribute(rt, key, value))
            .expect(rt, "an attribute");
    }
    attributes
}

#[test]
fn reads_kinds(rt: HostRuntime) {
    let empty = Geometry::Unknown(Items::new(Vec::new(rt.alloc())));
    let tile = one_feature(rt.alloc(), all_kinds(&rt), empty).expect(&rt, "a tile");
    expect_all(&rt, &[KINDS], tile, KINDS_CANONICAL);
}

#[test]
fn reads_ids(rt: HostRuntime) {
    let one = feature(&rt, Some(7), Vec::new(rt.alloc()));
    let two = feature(&rt, Some(7), Vec::new(rt.alloc()));
    expect_all(&rt, &[SAME_ID], both_in_layer(&rt, one, two), SAME_ID);
}

#[test]
fn reads_what_is_left_out(rt: HostRuntime) {
    let alloc = rt.alloc();
    let none = Tile {
        items: Items::new(Vec::new(alloc)),
    };
    expect_all(&rt, &[b"", b"\x20\x05"], none, b"");
    let plain = layer_a(alloc, Vec::new(alloc)).expect(&rt, "a tile");
    expect_tile(&rt, PLAIN, &plain, PLAIN);
    expect_all(&rt, &ALSO_PLAIN, plain, PLAIN);
    let bare = drawn(&rt, Geometry::Unknown(Items::new(Vec::new(alloc))));
    expect_all(&rt, &BARE, bare, BARE_CANONICAL);
    let unnamed = named(alloc, &[""]).expect(&rt, "a tile");
    expect_all(&rt, &[EMPTY_NAME], unnamed, EMPTY_NAME);
}

// A tile of this item alone.
fn foreign_tile(rt: &(impl Abort + AllocGlobal), version: u32, bytes: &[u8]) -> Tile {
    let item: Item = foreign_item(rt.alloc(), version, bytes).expect(rt, "an item");
    let items = Items::new(vec![in rt.alloc(); item].expect(rt, "items"));
    Tile { items }
}

// The payloads of foreign items after a tag and a length of one byte each.
#[test]
fn carries_foreign_items(rt: HostRuntime) {
    let rows: [(u32, &[u8]); 4] = [
        (1, FOREIGN),
        (1, NUMBERED_ONE),
        (1, b"\x1A\x05\x78\x01\x0A\x01\xFF"),
        (0, b"\x1A\x02\x78\x00"),
    ];
    for (version, input) in rows {
        let payload = input.get(2..).unwrap_or_default();
        expect_all(&rt, &[input], foreign_tile(&rt, version, payload), input);
    }
    expect_all(&rt, &[LONG_FOREIGN], tile_of(&rt, FOREIGN), FOREIGN);
    let mixed = both_of(&rt, FOREIGN, ONE_POINT);
    let tile = tile_of(&rt, &mixed);
    expect_eq!(rt; tile.items.as_slice().len(), 2);
    expect_all(&rt, &[&mixed], tile, &mixed);
    drop(mixed);
}

// A tile can be sent to another thread, and be shared by several.
fn is_shareable<T: Send + Sync>(_: &T) -> bool {
    true
}

#[test]
fn tiles_are_sent(rt: HostRuntime) {
    let tile = tile_of(&rt, LONG_TEXTS);
    expect!(rt; is_shareable(&tile));
    drop(tile);
}
