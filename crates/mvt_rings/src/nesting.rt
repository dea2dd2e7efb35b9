//! Where a spot lies as to a ring: even-odd, by whole numbers alone.
ghost use Rattle.std.specs.Prelude.{◌≡◌, ◌^◌, ◌≤◌, ◌-ℤ◌, ◌*ℤ◌, unsigned_abs, IfOk};
ghost use Rattle.mvt_rings.specs.Nesting.{side as the_side, is_between as lies_between, is_on as lies_on, is_crossed as crosses, is_within as lies_within, lies_at as the_lies, edges_of as the_edges, in_parts};
ghost use Rattle.mvt_geometry.specs.Shape.{origin, last_of as the_last_of};

use mvt_geometry::Point;
use std::alloc::{AllocError, Global};

/// A place in halves of a unit.
#[derive(Clone, Copy, Debug)]
pub(crate) struct Spot {
    pub(crate) x: i64,
    pub(crate) y: i64,
}

/// An edge of a ring.
#[derive(Clone, Copy, Debug)]
pub(crate) struct Edge {
    pub(crate) from: Point,
    pub(crate) to: Point,
}

/// Where a spot lies as to a ring.
#[derive(Clone, Copy, Debug)]
pub(crate) enum Lies {
    Inside,
    OnEdge,
    Outside,
}

/// The edges of a ring; that from its last point to its first comes first.
pub(crate) fn edges_of(alloc: Global, ring: &[Point]) -> Result<Vec<Edge>, AllocError>
    ensures { IfOk result (λ edges. edges.items ≡ the_edges ring.now) }
{
    let mut edges = Vec::with_capacity(alloc, ring.len())?;
    let mut from = last_of(ring);
    for to in ring {
        edges.push(Edge { from, to: *to })?;
        from = *to;
    }
    Ok(edges)
}

/// The last point of a ring.
pub(crate) fn last_of(ring: &[Point]) -> Point
    ensures { result ≡ the_last_of origin ring.now }
{
    if ring.is_empty() {
        return Point { x: 0, y: 0 };
    }
    ring[ring.len() - 1]
}

/// Where a spot lies as to the ring of these edges.
pub(crate) fn lies_at(spot: Spot, edges: &[Edge]) -> Lies
    ensures { result ≡ the_lies 2 spot edges.now }
{
    let mut odd = false;
    for edge in edges {
        if is_on(spot, *edge) {
            return Lies::OnEdge;
        }
        if is_crossed(spot, *edge) {
            odd = !odd;
        }
    }
    if odd { Lies::Inside } else { Lies::Outside }
}

/// A coordinate in halves of a unit.
#[inline]
pub(crate) fn halves(z: i32) -> i64
    ensures { result ≡ in_parts 2 z }
{
    2 * i64::from(z)
}

/// Whether a spot lies on an edge.
#[inline]
#[tactic(auto, unfolding(crate::specs::Nesting::is_on))]
fn is_on(spot: Spot, edge: Edge) -> bool
    ensures { result ≡ lies_on 2 spot edge }
{
    if !is_between(spot.y, halves(edge.from.y), halves(edge.to.y)) {
        return false;
    }
    if !is_between(spot.x, halves(edge.from.x), halves(edge.to.x)) {
        return false;
    }
    side(spot, edge) == 0
}

#[inline]
fn is_within(z: i64, low: i64, high: i64) -> bool
    ensures { result ≡ lies_within z low high }
{
    low <= z && z <= high
}

#[inline]
fn is_between(z: i64, a: i64, b: i64) -> bool
    ensures { result ≡ lies_between z a b }
{
    if a < b {
        is_within(z, a, b)
    } else {
        is_within(z, b, a)
    }
}

/// Whether an edge crosses the ray that goes from a spot to greater x.
#[inline]
#[tactic(auto, unfolding(crate::specs::Nesting::is_crossed))]
fn is_crossed(spot: Spot, edge: Edge) -> bool
    ensures { result ≡ crosses 2 spot edge }
{
    if spot.y < halves(edge.from.y) {
        spot.y >= halves(edge.to.y) && side(spot, edge) < 0
    } else {
        spot.y < halves(edge.to.y) && side(spot, edge) > 0
    }
}

/// On which side of an edge a spot is: twice the area of the triangle that they make, in halves.
#[inline]
fn side(spot: Spot, edge: Edge) -> i128
    ensures { result ≡ the_side 2 spot edge }
{
    let right = difference(edge.from.x, edge.to.x);
    let down = difference(edge.from.y, edge.to.y);
    product(right, beyond(spot.y, edge.from.y)) - product(down, beyond(spot.x, edge.from.x))
}

#[inline]
fn difference(from: i32, to: i32) -> i64
    ensures value { result ≡ to -ℤ from }
    ensures small { unsigned_abs result ≤ 2 ^ 32 }
{
    i64::from(to) - i64::from(from)
}

/// How far a coordinate in halves is from another in units.
#[inline]
fn beyond(z: i64, from: i32) -> i128
    ensures value { result ≡ z -ℤ in_parts 2 from }
    ensures small { unsigned_abs result ≤ 2 ^ 64 }
{
    i128::from(z) - 2 * i128::from(from)
}

#[inline]
fn product(a: i64, b: i128) -> i128
    requires a { unsigned_abs a ≤ 2 ^ 32 }
    requires b { unsigned_abs b ≤ 2 ^ 64 }
    ensures value { result ≡ a *ℤ b }
    ensures small { unsigned_abs result ≤ 2 ^ 96 }
{
    i128::from(a) * b
}
