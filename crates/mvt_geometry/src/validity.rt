//! Whether integers can draw a geometry.
ghost use Rattle.std.specs.Prelude.{◌≡◌, ◌↔◌, ◌<◌, ℕ, IsTrue, ◌-ℤ◌, List, IfSome, IfNone};
ghost use Rattle.mvt_geometry.specs.declared.shape.Kind.{Kind};
ghost use Rattle.mvt_geometry.specs.Shape.{InRange, last_of};
ghost use Rattle.mvt_geometry.specs.Valid.{AreInner, IsValid};
ghost use Rattle.mvt_geometry.specs.Drawing.{Draws};
ghost use Rattle.mvt_geometry.specs.Inner.Strokes.{AreSmall};
ghost use Rattle.mvt_geometry.specs.Inner.Validity.{IsStepTo, IsPath, IsLineFrom, AreLinesFrom, end_of_lines, HasArea, IsPolygonFrom, end_of_polygon, ArePoints, AreLines, ArePolygons, CanBeDrawn};

use crate::area::twice_area;
use crate::judging::{ORIGIN, is_in_range};
use crate::shape::{Geometry, Point, Polygon};
use mvt_base::Items;

/// The most points of a line or a ring: 2^29.
pub(crate) const MOST_POINTS: usize = 536_870_912;

/// Whether some integers draw the geometry.
pub fn is_valid_geometry(geometry: &Geometry) -> bool
    ensures drawn { IsTrue result ↔
        ((kind : Kind) × (ints : List ℕ) × Draws kind ints geometry.now) }
    ensures valid { IsTrue result ↔ IsValid geometry.now }
{
    can_be_drawn(geometry)
}

fn can_be_drawn(geometry: &Geometry) -> bool
    ensures { IsTrue result ↔ CanBeDrawn geometry.now }
{
    match geometry {
        Geometry::Unknown(integers) => are_integers(integers.as_slice()),
        Geometry::Points(points) => are_points(points.as_slice()),
        Geometry::Lines(lines) => are_lines(lines.as_slice()),
        Geometry::Polygons(polygons) => are_polygons(polygons.as_slice()),
    }
}

/// Integers of a geometry of unknown type draw it, whatever they are.
fn are_integers(integers: &[u32]) -> bool
    ensures { IsTrue result ↔ AreSmall integers.now }
{
    // Read for the proof, which so knows their range.
    let _ = integers;
    true
}

fn are_points(points: &[Point]) -> bool
    ensures { IsTrue result ↔ ArePoints points.now }
{
    !points.is_empty() && points.len() < MOST_POINTS && path_end(ORIGIN, points, false).is_some()
}

fn are_lines(lines: &[Items<Point>]) -> bool
    ensures { IsTrue result ↔ AreLines lines.now }
{
    !lines.is_empty() && lines_end(ORIGIN, lines, 2).is_some()
}

fn are_polygons(polygons: &[Polygon]) -> bool
    ensures { IsTrue result ↔ ArePolygons polygons.now }
{
    if polygons.is_empty() {
        return false;
    }
    let mut cursor = ORIGIN;
    let mut is_first = true;
    for polygon in polygons {
        let Some(end) = polygon_end(cursor, polygon, is_first) else {
            return false;
        };
        cursor = end;
        is_first = false;
    }
    true
}

/// The last point of a polygon; None if none can be drawn from the cursor.
fn polygon_end(from: Point, polygon: &Polygon, is_first: bool) -> Option<Point>
    ensures some { IfSome result (λ last. IsPolygonFrom is_first from polygon.now
        × (last ≡ end_of_polygon from polygon.now)) }
    ensures none { IfNone result (IsPolygonFrom is_first from polygon.now → ⊥) }
{
    let outer = polygon.outer.as_slice();
    let rest = polygon.rest.as_slice();
    if !has_area(outer, is_first) || !are_inner(rest) {
        return None;
    }
    let end = line_end(from, outer, 3)?;
    lines_end(end, rest, 3)
}

/// Whether a ring may open a polygon.
fn has_area(ring: &[Point], is_first: bool) -> bool
    ensures { IsTrue result ↔ HasArea is_first ring.now }
{
    let area = twice_area(ring);
    if is_first { area >= 0 } else { area > 0 }
}

fn are_inner(rings: &[Items<Point>]) -> bool
    ensures { IsTrue result ↔ AreInner rings.now }
{
    for ring in rings {
        if twice_area(ring.as_slice()) > 0 {
            return false;
        }
    }
    true
}

/// The last point of lines; None if they can't be drawn from the cursor.
fn lines_end(from: Point, lines: &[Items<Point>], least: usize) -> Option<Point>
    requires { 0 < least }
    ensures some { IfSome result (λ last. AreLinesFrom least from lines.now
        × (last ≡ end_of_lines from lines.now)) }
    ensures none { IfNone result (AreLinesFrom least from lines.now → ⊥) }
{
    let mut cursor = from;
    for line in lines {
        cursor = line_end(cursor, line.as_slice(), least)?;
    }
    Some(cursor)
}

/// The last point of a line; None if it can't be drawn from the cursor.
fn line_end(from: Point, line: &[Point], least: usize) -> Option<Point>
    requires { 0 < least }
    ensures some { IfSome result (λ last. IsLineFrom least from line.now
        × (last ≡ last_of from line.now)) }
    ensures none { IfNone result (IsLineFrom least from line.now → ⊥) }
{
    if line.len() < least || line.len() > MOST_POINTS {
        return None;
    }
    let (first, others) = line.split_at(1);
    let start = path_end(from, first, false)?;
    path_end(start, others, true)
}

/// The last point of a path; None if it can't be drawn from the cursor.
fn path_end(from: Point, points: &[Point], is_line: bool) -> Option<Point>
    ensures some { IfSome result (λ last. IsPath is_line from points.now
        × (last ≡ last_of from points.now)) }
    ensures none { IfNone result (IsPath is_line from points.now → ⊥) }
{
    let mut cursor = from;
    for point in points {
        if !is_step(cursor, *point, is_line) {
            return None;
        }
        cursor = *point;
    }
    Some(cursor)
}

/// Whether a pair can lead from one point to another.
#[inline]
pub(crate) fn is_step(from: Point, to: Point, is_line: bool) -> bool
    ensures { IsTrue result ↔ IsStepTo is_line from to }
{
    if is_line && from == to {
        return false;
    }
    moves(from.x, to.x) && moves(from.y, to.y)
}

/// Whether a parameter can lead from one coordinate to another that is in range.
fn moves(from: i32, to: i32) -> bool
    ensures { IsTrue result ↔ (InRange to × InRange (to -ℤ from)) }
{
    let from = i64::from(from);
    let to = i64::from(to);
    is_in_range(to) && is_in_range(to - from)
}
