//! A geometry that is a value, passed to a visitor.
ghost use Rattle.std.specs.Prelude.{◌≡◌, ◌∷◌, ◌++◌, false, [], List, length, map, OnOk};
ghost use Rattle.std.specs.List.{flat_map};
ghost use Rattle.mvt_geometry.specs.Rings.{is_closed as the_is_closed};
ghost use Rattle.mvt_geometry.specs.Visiting.{EndsAs, HasDrawn, Part, plain, ring_part, ring_parts};

use crate::area::twice_area;
use crate::shape::{Geometry, Point, Polygon};
use crate::visiting::{GeometryVisitor, Ring, is_same};
use mvt_base::Items;
use std::alloc::AllocError;

/// Passes a geometry to a visitor, as [`draw_geometry`](crate::draw_geometry) does one that
/// integers draw.
///
/// # Errors
///
/// When memory runs out.
pub fn tell_geometry<V: GeometryVisitor>(
    visitor: &mut V,
    geometry: &Geometry,
) -> Result<(), AllocError>
    ensures { OnOk result
        (HasDrawn V.has_parts V.has_integers visitor.old visitor.new geometry.now) }
{
    match geometry {
        Geometry::Unknown(integers) => visitor.visit_integers(integers.as_slice()),
        Geometry::Points(points) => tell_part(visitor, points.as_slice(), None),
        Geometry::Lines(lines) => tell_lines(visitor, lines.as_slice()),
        Geometry::Polygons(polygons) => tell_polygons(visitor, polygons.as_slice()),
    }
}

fn tell_part<V: GeometryVisitor>(
    visitor: &mut V,
    points: &[Point],
    ring: Option<Ring>,
) -> Result<(), AllocError>
    ensures { (start : V) (parts : List Part) (part : Part) → part.points ≡ points.now
        → EndsAs part (length points.now) ring → V.has_parts start parts [] visitor.old
        → OnOk result (V.has_parts start (parts ++ part ∷ []) [] visitor.new) }
{
    for point in points {
        visitor.visit_point(*point)?;
    }
    visitor.end_part(points.len(), ring)
}

fn tell_lines<V: GeometryVisitor>(visitor: &mut V, lines: &[Items<Point>]) -> Result<(), AllocError>
    ensures { (start : V) → V.has_parts start [] [] visitor.old
        → OnOk result (V.has_parts start (map plain lines.now) [] visitor.new) }
{
    for line in lines {
        tell_part(visitor, line.as_slice(), None)?;
    }
    Ok(())
}

fn tell_polygons<V: GeometryVisitor>(
    visitor: &mut V,
    polygons: &[Polygon],
) -> Result<(), AllocError>
    ensures { (start : V) → V.has_parts start [] [] visitor.old
        → OnOk result (V.has_parts start (flat_map ring_parts polygons.now) [] visitor.new) }
{
    for polygon in polygons {
        tell_ring(visitor, true, polygon.outer.as_slice())?;
        tell_interiors(visitor, polygon.rest.as_slice())?;
    }
    Ok(())
}

fn tell_interiors<V: GeometryVisitor>(
    visitor: &mut V,
    rings: &[Items<Point>],
) -> Result<(), AllocError>
    ensures { (start : V) (parts : List Part) → V.has_parts start parts [] visitor.old
        → OnOk result (V.has_parts start (parts ++ map (ring_part false) rings.now) []
        visitor.new) }
{
    for ring in rings {
        tell_ring(visitor, false, ring.as_slice())?;
    }
    Ok(())
}

fn tell_ring<V: GeometryVisitor>(
    visitor: &mut V,
    exterior: bool,
    ring: &[Point],
) -> Result<(), AllocError>
    ensures { (start : V) (parts : List Part) → V.has_parts start parts [] visitor.old
        → OnOk result (V.has_parts start (parts ++ ring_part exterior ring.now ∷ []) []
        visitor.new) }
{
    let known = Ring {
        exterior,
        twice_area: twice_area(ring),
        is_closed: is_closed(ring),
    };
    tell_part(visitor, ring, Some(known))
}

/// Whether the last point of a ring is its first.
fn is_closed(ring: &[Point]) -> bool
    ensures { result ≡ the_is_closed ring.now }
{
    match (ring.first(), ring.last()) {
        (Some(first), Some(last)) => is_same(*first, *last),
        _ => false,
    }
}
