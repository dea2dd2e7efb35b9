//! Tiles that can be written, and tiles that can't.
use super::support::{KEYS, keyed, layer_a, named, one_feature, points};
use crate::expect::expect_eq;
use mvt_base::Items;
use mvt_geometry::{Geometry, Point};
use mvt_tile::{Tile, is_valid, validate};
use std::alloc::AllocError;
use std::process::Abort;

// Both calls say the same of a tile, which is let go.
fn expect_valid(rt: &(impl Abort + AllocGlobal), made: Result<Tile, AllocError>, answer: bool) {
    let tile = made.expect(rt, "a tile");
    expect_eq!(rt; is_valid(&tile), answer);
    expect_eq!(rt; validate(rt.alloc(), &tile), Ok(answer));
    drop(tile);
}

#[test]
fn keys_of_a_feature(rt: HostRuntime) {
    let mut keys = KEYS;
    expect_valid(&rt, keyed(rt.alloc(), &keys), true);
    expect_valid(&rt, keyed(rt.alloc(), &keys[..16]), true);
    for (first, repeated) in [(0, 15), (0, 16), (16, 19), (17, 18), (0, 19)] {
        let kept = keys[repeated];
        keys[repeated] = keys[first];
        expect_valid(&rt, keyed(rt.alloc(), &keys), false);
        keys[repeated] = kept;
    }
    keys[15] = "a";
    expect_valid(&rt, keyed(rt.alloc(), &keys[..16]), false);
}

#[test]
fn names_of_layers(rt: HostRuntime) {
    expect_valid(&rt, named(rt.alloc(), &[]), true);
    expect_valid(&rt, named(rt.alloc(), &["b", "a", "", "A"]), true);
    expect_valid(&rt, named(rt.alloc(), &["b", "a", "b"]), false);
    expect_valid(&rt, named(rt.alloc(), &["", "a", ""]), false);
}

fn points_of(rt: &(impl Abort + AllocGlobal), places: &[(i32, i32)]) -> Items<Point> {
    points(rt.alloc(), places).expect(rt, "points")
}

// A line of one point can't be drawn, nor can no points.
#[test]
fn geometry_of_a_feature(rt: HostRuntime) {
    let alloc = rt.alloc();
    let lines = vec![in alloc; points_of(&rt, &[(1, 2)])].expect(&rt, "a line");
    let line = Geometry::Lines(Items::new(lines));
    expect_valid(&rt, one_feature(alloc, Vec::new(alloc), line), false);
    let none = Geometry::Points(points_of(&rt, &[]));
    expect_valid(&rt, one_feature(alloc, Vec::new(alloc), none), false);
    expect_valid(&rt, layer_a(alloc, Vec::new(alloc)), true);
}
