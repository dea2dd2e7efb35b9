//! Where a ring lies as to a larger one, but for the unit by which rounding moves points.
ghost use Rattle.std.specs.Prelude.{◌≡◌, ◌^◌, ◌≤◌, ◌*◌, length, max, not, pos, ◌+ℤ◌, ◌-ℤ◌, unsigned_abs, IfOk};
ghost use Rattle.mvt_rings.specs.Placing.{all_near as are_all_near, band as the_band, edge_near as is_edge_near, end_of as the_end, fits as does_fit, fits_at as does_fit_at, is_level_with as lies_level_with, is_near as lies_near, length_of as the_length, marks_on as the_marks_on, middle_of as the_middle, one_if as the_one_if, place_in as the_place_in, row_fits as does_row_fit, strictly as lies_strictly, wide_place as the_wide_place};
ghost use Rattle.std.specs.Int.Signed.{lt_z};
ghost use Rattle.mvt_rings.specs.Nesting.{edges_of as the_edges};

use crate::boxes::{Bounds, greater, less};
use crate::nesting::{Edge, Lies, Spot, halves, last_of, lies_at};
use mvt_geometry::Point;
use std::alloc::{AllocError, Global};

/// Where a ring lies as to a larger one: held by it, apart from it, or neither.
#[derive(Clone, Copy, Debug)]
pub(crate) enum Place {
    Held,
    Apart,
    Unclear,
}

/// A mark, the end of an edge.
#[inline]
fn end_of(edge: Edge) -> Spot
    ensures value { result ≡ the_end edge }
    ensures x { unsigned_abs result.x ≤ 2 ^ 32 }
    ensures y { unsigned_abs result.y ≤ 2 ^ 32 }
{
    Spot {
        x: halves(edge.to.x),
        y: halves(edge.to.y),
    }
}

/// A mark, the middle of an edge.
#[inline]
fn middle_of(edge: Edge) -> Spot
    ensures value { result ≡ the_middle edge }
    ensures x { unsigned_abs result.x ≤ 2 ^ 32 }
    ensures y { unsigned_abs result.y ≤ 2 ^ 32 }
{
    let x = sum(edge.from.x, edge.to.x);
    let y = sum(edge.from.y, edge.to.y);
    Spot { x, y }
}

#[inline]
fn sum(a: i32, b: i32) -> i64
    ensures value { result ≡ a +ℤ b }
    ensures small { unsigned_abs result ≤ 2 ^ 32 }
{
    i64::from(a) + i64::from(b)
}

/// Whether what lies so is on a side, or on the edge.
#[inline]
fn fits(inside: bool, lies: Lies) -> bool
    ensures { result ≡ does_fit inside lies }
{
    match lies {
        Lies::Inside => inside,
        Lies::OnEdge => true,
        Lies::Outside => !inside,
    }
}

#[inline]
fn fits_at(inside: bool, edges: &[Edge], x: i64, y: i64) -> bool
    ensures { result ≡ does_fit_at inside edges.now x y }
{
    fits(inside, lies_at(Spot { x, y }, edges))
}

/// Whether one of three spots in a row, a unit apart, is on a side or on the edge.
#[inline]
fn row_fits(inside: bool, edges: &[Edge], x: i64, y: i64) -> bool
    requires { unsigned_abs x ≤ 2 ^ 32 }
    ensures { result ≡ does_row_fit inside edges.now x y }
{
    fits_at(inside, edges, x, y)
        || (fits_at(inside, edges, x - 2, y) || fits_at(inside, edges, x + 2, y))
}

/// The same of a mark, or of one of the eight spots around it.
#[inline]
fn is_near(inside: bool, edges: &[Edge], mark: Spot) -> bool
    requires x { unsigned_abs mark.x ≤ 2 ^ 32 }
    requires y { unsigned_abs mark.y ≤ 2 ^ 32 }
    ensures { result ≡ lies_near inside edges.now mark }
{
    row_fits(inside, edges, mark.x, mark.y)
        || (row_fits(inside, edges, mark.x, mark.y - 2)
            || row_fits(inside, edges, mark.x, mark.y + 2))
}

/// The same of both marks of an edge.
fn edge_near(inside: bool, edges: &[Edge], edge: Edge) -> bool
    ensures { result ≡ is_edge_near inside edges.now edge }
{
    is_near(inside, edges, end_of(edge)) && is_near(inside, edges, middle_of(edge))
}

/// The same of all marks of a ring.
fn all_near(inside: bool, edges: &[Edge], marks: &[Edge]) -> bool
    ensures { result ≡ are_all_near inside edges.now marks.now }
{
    for edge in marks {
        if !edge_near(inside, edges, *edge) {
            return false;
        }
    }
    true
}

#[inline]
fn one_if(is: bool) -> u128
    ensures value { result ≡ the_one_if is }
    ensures small { result ≤ 1 }
{
    if is { 1 } else { 0 }
}

/// 1 where a mark is on a side, and not on the edge.
#[inline]
fn strictly(inside: bool, edges: &[Edge], mark: Spot) -> u128
    ensures value { result ≡ lies_strictly inside edges.now mark }
    ensures small { result ≤ 1 }
{
    one_if(!fits(!inside, lies_at(mark, edges)))
}

/// How many marks of a ring are on a side, and not on the edge.
fn marks_on(inside: bool, edges: &[Edge], marks: &[Edge]) -> u128
    ensures { result ≡ the_marks_on inside edges.now marks.now }
{
    let mut count = 0u128;
    for edge in marks {
        let end = strictly(inside, edges, end_of(*edge));
        let middle = strictly(inside, edges, middle_of(*edge));
        count += end + middle;
    }
    count
}

/// The length of a ring: of each edge the greater difference.
pub(crate) fn length_of(ring: &[Point]) -> u128
    ensures value { result ≡ the_length (the_edges ring.now) }
    ensures small { result ≤ 2 ^ 32 * length ring.now }
{
    let mut length = 0u128;
    let mut from = last_of(ring);
    for to in ring {
        length += reach(Edge { from, to: *to });
        from = *to;
    }
    length
}

/// The greater difference of an edge.
#[inline]
fn reach(edge: Edge) -> u128
    ensures value { result ≡ max (unsigned_abs (edge.to.x -ℤ edge.from.x))
        (unsigned_abs (edge.to.y -ℤ edge.from.y)) }
    ensures small { result ≤ 2 ^ 32 }
{
    let right = edge.to.x.abs_diff(edge.from.x);
    let down = edge.to.y.abs_diff(edge.from.y);
    u128::from(right.max(down))
}

/// Whether an edge is level with a box, a unit wider.
#[inline]
#[tactic(auto, unfolding(crate::specs::Placing::is_level_with))]
pub(crate) fn is_level_with(bounds: Bounds, edge: Edge) -> bool
    ensures { result ≡ lies_level_with bounds edge }
{
    let highest = less(edge.from.y, edge.to.y);
    let lowest = greater(edge.from.y, edge.to.y);
    is_just_above(bounds.top, lowest) && is_just_above(highest, bounds.bottom)
}

/// Whether one number is at most a unit greater than another.
#[inline]
pub(crate) fn is_just_above(above: i32, below: i32) -> bool
    ensures { result ≡ not (lt_z below (above -ℤ pos 1)) }
{
    i64::from(above) - 1 <= i64::from(below)
}

/// The edges of a ring that are level with a box.
pub(crate) fn band(alloc: Global, bounds: Bounds, ring: &[Point]) -> Result<Vec<Edge>, AllocError>
    ensures { IfOk result (λ edges. edges.items ≡ the_band bounds ring.now) }
{
    let mut edges = Vec::new(alloc);
    let mut from = last_of(ring);
    for to in ring {
        let edge = Edge { from, to: *to };
        if is_level_with(bounds, edge) {
            edges.push(edge)?;
        }
        from = *to;
    }
    Ok(edges)
}

/// How many edges of a ring are level with a box.
pub(crate) fn band_len(bounds: Bounds, ring: &[Point]) -> usize
    ensures { result ≡ length (the_band bounds ring.now) }
{
    let mut count = 0usize;
    let mut from = last_of(ring);
    for to in ring {
        if is_level_with(bounds, Edge { from, to: *to }) {
            count += 1;
        }
        from = *to;
    }
    count
}

/// Where a ring lies as to another, of which these edges are level with it.
#[tactic(auto, unfolding(crate::specs::Placing::place_in))]
pub(crate) fn place_in(edges: &[Edge], marks: &[Edge], is_narrow: bool, against: bool) -> Place
    ensures { result ≡ the_place_in edges.now marks.now is_narrow against }
{
    if is_narrow {
        let inside = marks_on(true, edges, marks);
        let outside = marks_on(false, edges, marks);
        return if outside < inside {
            Place::Held
        } else {
            Place::Apart
        };
    }
    wide_place(
        all_near(true, edges, marks),
        all_near(false, edges, marks),
        against,
    )
}

fn wide_place(fits_in: bool, fits_out: bool, against: bool) -> Place
    ensures { result ≡ the_wide_place fits_in fits_out against }
{
    match (fits_in, fits_out) {
        (true, true) => { if against { Place::Held } else { Place::Unclear } }
        (true, false) => Place::Held,
        (false, true) => Place::Apart,
        (false, false) => Place::Unclear,
    }
}
