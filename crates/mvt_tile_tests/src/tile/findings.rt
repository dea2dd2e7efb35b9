//! What viewers stumble over, in tiles made by hand.
use super::support::{layer_a, one_feature, points, tile_of};
use crate::expect::{expect, expect_eq};
use mvt_attrs::{Attribute, Value};
use mvt_base::{Items, Text};
use mvt_geometry::{Geometry, Point, Polygon};
use mvt_message::{Feature, Item, Layer};
use mvt_tile::{Finding, Tile, lint};
use std::alloc::{AllocError, Global};
use std::process::Abort;

// The largest integer that a number of JavaScript can tell from its neighbours.
const SAFE: u64 = 9_007_199_254_740_991;

fn expect_findings(rt: &(impl Abort + AllocGlobal), tile: Tile, expected: &[Finding]) {
    let found = lint(rt.alloc(), &tile).expect(rt, "findings");
    drop(tile);
    expect_eq!(rt; found.as_slice(), expected);
    drop(found);
}

// A layer of this extent with these features.
fn layer(alloc: Global, extent: u32, features: Vec<Feature>) -> Result<Item, AllocError> {
    Ok(Item::Layer(Layer {
        name: Text::from_str(alloc, "a")?,
        extent,
        features: Items::new(features),
    }))
}

fn bare(alloc: Global, geometry: Geometry) -> Feature {
    Feature {
        id: None,
        attributes: Items::new(Vec::new(alloc)),
        geometry,
    }
}

// A layer of this extent with points at these places.
fn points_layer(alloc: Global, extent: u32, places: &[(i32, i32)]) -> Result<Item, AllocError> {
    let mut features = Vec::new(alloc);
    features.push(bare(alloc, Geometry::Points(points(alloc, places)?)))?;
    layer(alloc, extent, features)
}

fn tile_with(alloc: Global, extent: u32, places: &[(i32, i32)]) -> Result<Tile, AllocError> {
    let mut items = Vec::new(alloc);
    items.push(points_layer(alloc, extent, places)?)?;
    Ok(Tile {
        items: Items::new(items),
    })
}

fn expect_far(rt: &(impl Abort + AllocGlobal), extent: u32, number: i32, is_far: bool) {
    let across = tile_with(rt.alloc(), extent, &[(number, 0)]).expect(rt, "a tile");
    let down = tile_with(rt.alloc(), extent, &[(0, number)]).expect(rt, "a tile");
    if is_far {
        expect_findings(rt, across, &[Finding::FarPoint(0, 0, number, 0)]);
        expect_findings(rt, down, &[Finding::FarPoint(0, 0, 0, number)]);
    } else {
        expect_findings(rt, across, &[]);
        expect_findings(rt, down, &[]);
    }
}

// 8192ths of the extent, rounded to the nearest, halves away from 0, and what 16 bits hold. Of an
// extent of 32768 a unit is a fourth, so 131069 is 32767.25, 131070 is 32767.5, and so below 0.
#[test]
fn tells_far_points(rt: HostRuntime) {
    let rows: [(u32, i32, bool); 22] = [
        (4096, 16_384, true),
        (4096, 16_383, false),
        (4096, -16_384, false),
        (4096, -16_385, true),
        (512, 2048, true),
        (512, 2047, false),
        (512, -2048, false),
        (512, -2049, true),
        (1, 4, true),
        (1, 3, false),
        (1, -4, false),
        (1, -5, true),
        (65_536, 262_143, true),
        (65_536, 30_000, false),
        (32_768, 131_069, false),
        (32_768, 131_070, true),
        (32_768, -131_073, false),
        (32_768, -131_074, true),
        (u32::MAX, i32::MAX, false),
        (u32::MAX, i32::MIN, false),
        (1, i32::MAX, true),
        (1, i32::MIN, true),
    ];
    for (extent, number, is_far) in rows {
        expect_far(&rt, extent, number, is_far);
    }
}

#[test]
fn tells_zero_extents(rt: HostRuntime) {
    let zero = tile_with(rt.alloc(), 0, &[(20_000, 0)]).expect(&rt, "a tile");
    expect_findings(&rt, zero, &[Finding::ZeroExtent(0)]);
}

// Two layers of two extents: each is scaled by its own.
fn two_extents(alloc: Global) -> Result<Tile, AllocError> {
    let mut items = Vec::new(alloc);
    items.push(Item::Foreign {
        version: 1,
        bytes: Items::new(Vec::new(alloc)),
    })?;
    items.push(points_layer(alloc, 8192, &[(20_000, 0)])?)?;
    items.push(points_layer(alloc, 4096, &[(1, 2), (0, -17_000), (20_000, 0)])?)?;
    Ok(Tile {
        items: Items::new(items),
    })
}

#[test]
fn tells_the_first_far_point_of_each_layer(rt: HostRuntime) {
    let tile = two_extents(rt.alloc()).expect(&rt, "a tile");
    expect_findings(&rt, tile, &[Finding::FarPoint(2, 0, 0, -17_000)]);
}

// A line of lines, the second of which is far; polygons, of which a hole of the second is.
fn far_shapes(alloc: Global) -> Result<Tile, AllocError> {
    let mut lines = Vec::new(alloc);
    lines.push(points(alloc, &[(0, 0), (1, 0)])?)?;
    lines.push(points(alloc, &[(0, 0), (30_000, 1), (30_000, 2)])?)?;
    let mut holes = Vec::new(alloc);
    holes.push(points(alloc, &[(1, 1), (1, 2), (2, 20_000)])?)?;
    let mut polygons = Vec::new(alloc);
    polygons.push(Polygon {
        outer: points(alloc, &[(0, 0), (9, 0), (9, 9)])?,
        rest: Items::new(Vec::new(alloc)),
    })?;
    polygons.push(Polygon {
        outer: points(alloc, &[(0, 0), (9, 0), (9, 9)])?,
        rest: Items::new(holes),
    })?;
    let mut features = Vec::new(alloc);
    features.push(bare(alloc, Geometry::Lines(Items::new(lines))))?;
    features.push(bare(alloc, Geometry::Polygons(Items::new(polygons))))?;
    layer_a(alloc, features)
}

#[test]
fn tells_far_points_of_lines_and_rings(rt: HostRuntime) {
    let tile = far_shapes(rt.alloc()).expect(&rt, "a tile");
    let expected = [
        Finding::FarPoint(0, 0, 30_000, 1),
        Finding::FarPoint(0, 1, 2, 20_000),
    ];
    expect_findings(&rt, tile, &expected);
}

fn unknown(alloc: Global, integers: &[u32]) -> Result<Feature, AllocError> {
    let integers = Vec::from_slice(alloc, integers)?;
    Ok(bare(alloc, Geometry::Unknown(Items::new(integers))))
}

fn unknown_tile(alloc: Global) -> Result<Tile, AllocError> {
    let mut features = Vec::new(alloc);
    features.push(unknown(alloc, &[])?)?;
    features.push(unknown(alloc, &[7, 7, 9])?)?;
    let mut large = unknown(alloc, &[])?;
    large.id = Some(SAFE + 1);
    features.push(large)?;
    let mut safe = bare(alloc, Geometry::Points(points(alloc, &[(1, 2)])?));
    safe.id = Some(SAFE);
    features.push(safe)?;
    layer_a(alloc, features)
}

#[test]
fn tells_unknown_types_and_large_ids(rt: HostRuntime) {
    let tile = unknown_tile(rt.alloc()).expect(&rt, "a tile");
    let expected = [
        Finding::NoGeometry(0, 0),
        Finding::UnknownGeometry(0, 1),
        Finding::NoGeometry(0, 2),
        Finding::LargeId(0, 2),
    ];
    expect_findings(&rt, tile, &expected);
}

fn attribute(alloc: Global, key: &str, value: Value) -> Result<Attribute, AllocError> {
    Ok(Attribute {
        key: Text::from_str(alloc, key)?,
        value,
    })
}

fn large_numbers(alloc: Global) -> Result<Tile, AllocError> {
    let safe = SAFE as i64;
    let mut attributes = Vec::new(alloc);
    attributes.push(attribute(alloc, "a", Value::Uint(SAFE))?)?;
    attributes.push(attribute(alloc, "b", Value::Uint(SAFE + 1))?)?;
    attributes.push(attribute(alloc, "c", Value::Int(-safe))?)?;
    attributes.push(attribute(alloc, "d", Value::Int(-safe - 1))?)?;
    attributes.push(attribute(alloc, "e", Value::Sint(i64::MIN))?)?;
    attributes.push(attribute(alloc, "f", Value::Sint(safe))?)?;
    attributes.push(attribute(alloc, "g", Value::Double(u64::MAX))?)?;
    attributes.push(attribute(alloc, "h", Value::Int(i64::MAX))?)?;
    let geometry = Geometry::Points(points(alloc, &[(1, 2)])?);
    one_feature(alloc, attributes, geometry)
}

#[test]
fn tells_large_numbers(rt: HostRuntime) {
    let tile = large_numbers(rt.alloc()).expect(&rt, "a tile");
    let expected = [
        Finding::LargeNumber(0, 0, 1),
        Finding::LargeNumber(0, 0, 3),
        Finding::LargeNumber(0, 0, 4),
        Finding::LargeNumber(0, 0, 7),
    ];
    expect_findings(&rt, tile, &expected);
}

#[test]
fn tells_nothing_of_usual_tiles(rt: HostRuntime) {
    let tile = tile_of(&rt, super::rows::ONE_POINT);
    expect_findings(&rt, tile, &[]);
}

// A refused growth is told, and nothing in place of it.
#[test]
fn lint_refused_memory(rt: HostRuntime) {
    let Ok(tile) = unknown_tile(rt.alloc()) else {
        return;
    };
    let mut wanted: u32 = 0;
    for _ in 0..2 {
        match lint(rt.alloc(), &tile) {
            Ok(found) => {
                expect_eq!(rt; found.len(), 4);
                drop(found);
            }
            Err(AllocError) => wanted = wanted.saturating_add(1),
        }
    }
    drop(tile);
    expect!(rt; wanted <= 1);
}
