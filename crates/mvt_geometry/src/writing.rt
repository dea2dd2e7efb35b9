//! The integers that draw a geometry (sections 4.3.1 to 4.3.4).
ghost use Rattle.std.specs.Prelude.{◌≡◌, ◌<◌, ◌+◌, ◌*◌, ◌≤◌, ◌^◌, Bool, if◌then◌else◌, List, [], ◌∷◌, ◌++◌, length, ℕ, IfOk, OnOk, OnErr};
ghost use Rattle.std.specs.List.{AllByRecursion};
ghost use Rattle.mvt_base.specs.Related.{Extends};
ghost use Rattle.mvt_geometry.specs.Shape.{kind_of, AreSteps, origin, joined, rings_of, last_of};
ghost use Rattle.mvt_geometry.specs.Valid.{IsValid};
ghost use Rattle.mvt_geometry.specs.Drawing.{path_from, drawn, Draws, stroke, strokes};
ghost use Rattle.mvt_geometry.specs.Inner.Writing.{ending, AreShort, IsShort};

use crate::command::Command;
use crate::judging::ORIGIN;
use crate::shape::{Geometry, Point, Polygon};
use mvt_base::Items;
use mvt_wire::{NumberList, zigzag32};
use std::alloc::{AllocError, Global};

/// The integers that draw the geometry, and no others draw it.
///
/// # Errors
///
/// When memory runs out.
pub fn put_geometry(alloc: Global, geometry: &Geometry) -> Result<Vec<u32>, AllocError>
    requires { IsValid geometry.now }
    ensures { IfOk result (λ v. Draws (kind_of geometry.now) v.items geometry.now) }
{
    let mut integers = Vec::new(alloc);
    append_geometry(geometry, &mut integers)?;
    Ok(integers)
}

/// Appends the integers that draw the geometry.
///
/// # Errors
///
/// When memory runs out; the list is then unchanged or longer.
pub fn append_geometry<N: NumberList>(
    geometry: &Geometry,
    integers: &mut N,
) -> Result<(), AllocError>
    requires { IsValid geometry.now }
    ensures integers { OnOk result
        (N.numbers integers.new ≡ N.numbers integers.old ++ drawn geometry.now) }
    ensures integers_left { OnErr result
        ((more : List ℕ) × (N.numbers integers.new ≡ N.numbers integers.old ++ more)) }
{
    match geometry {
        Geometry::Unknown(kept) => put_kept(integers, kept.as_slice())?,
        Geometry::Points(points) => {
            let points = points.as_slice();
            integers.reserve_numbers(1 + 2 * points.len())?;
            integers.push_number(Command::MoveTo.integer(points.len() as u32))?;
            put_path(integers, ORIGIN, points)?;
        }
        Geometry::Lines(lines) => {
            put_lines(integers, ORIGIN, lines.as_slice(), false)?;
        }
        Geometry::Polygons(polygons) => put_polygons(integers, polygons.as_slice())?,
    }
    Ok(())
}

/// Appends integers as they are.
pub(crate) fn put_kept<N: NumberList>(integers: &mut N, kept: &[u32]) -> Result<(), AllocError>
    ensures integers { OnOk result (N.numbers integers.new ≡ N.numbers integers.old ++ kept.now) }
    ensures left { OnErr result (Extends (N.numbers integers.old) (N.numbers integers.new)) }
{
    integers.reserve_numbers(kept.len())?;
    for integer in kept {
        integers.push_number(*integer)?;
    }
    Ok(())
}

fn put_polygons<N: NumberList>(integers: &mut N, polygons: &[Polygon]) -> Result<(), AllocError>
    requires steps { AreSteps origin (joined (rings_of polygons.now)) }
    requires short { AreShort (rings_of polygons.now) }
    ensures integers { OnOk result (N.numbers integers.new
        ≡ N.numbers integers.old ++ strokes (15 ∷ []) origin (rings_of polygons.now)) }
    ensures left { OnErr result (Extends (N.numbers integers.old) (N.numbers integers.new)) }
{
    let mut cursor = ORIGIN;
    for polygon in polygons {
        cursor = put_line(integers, cursor, polygon.outer.as_slice(), true)?;
        cursor = put_lines(integers, cursor, polygon.rest.as_slice(), true)?;
    }
    Ok(())
}

/// Appends lines or rings, and answers the last point.
fn put_lines<N: NumberList>(
    integers: &mut N,
    from: Point,
    lines: &[Items<Point>],
    are_rings: bool,
) -> Result<Point, AllocError>
    requires steps { AreSteps from (joined lines.now) }
    requires short { AreShort lines.now }
    ensures integers { OnOk result (N.numbers integers.new
        ≡ N.numbers integers.old ++ strokes (ending are_rings) from lines.now) }
    ensures left { OnErr result (Extends (N.numbers integers.old) (N.numbers integers.new)) }
    ensures last { IfOk result (λ last. last ≡ last_of from (joined lines.now)) }
{
    let mut cursor = from;
    for line in lines {
        cursor = put_line(integers, cursor, line.as_slice(), are_rings)?;
    }
    Ok(cursor)
}

/// Appends a line or a ring, and answers its last point.
fn put_line<N: NumberList>(
    integers: &mut N,
    from: Point,
    line: &[Point],
    is_ring: bool,
) -> Result<Point, AllocError>
    requires steps { AreSteps from line.now }
    requires short { IsShort line.now }
    ensures integers { OnOk result
        (N.numbers integers.new ≡ N.numbers integers.old ++ stroke (ending is_ring) from line.now) }
    ensures left { OnErr result (Extends (N.numbers integers.old) (N.numbers integers.new)) }
    ensures last { IfOk result (λ last. last ≡ last_of from line.now) }
{
    let (first, others) = line.split_at(1);
    integers.reserve_numbers(3 + 2 * line.len())?;
    integers.push_number(Command::MoveTo.integer(1))?;
    let first = put_path(integers, from, first)?;
    integers.push_number(Command::LineTo.integer(others.len() as u32))?;
    let last = put_path(integers, first, others)?;
    if is_ring {
        integers.push_number(Command::ClosePath.integer(1))?;
    }
    Ok(last)
}

/// Appends the pairs of a path, and answers its last point.
fn put_path<N: NumberList>(
    integers: &mut N,
    from: Point,
    points: &[Point],
) -> Result<Point, AllocError>
    requires { AreSteps from points.now }
    ensures integers { OnOk result
        (N.numbers integers.new ≡ N.numbers integers.old ++ path_from from points.now) }
    ensures left { OnErr result (Extends (N.numbers integers.old) (N.numbers integers.new)) }
    ensures last { IfOk result (λ last. last ≡ last_of from points.now) }
{
    let mut cursor = from;
    for point in points {
        integers.push_number(zigzag32(point.x - cursor.x))?;
        integers.push_number(zigzag32(point.y - cursor.y))?;
        cursor = *point;
    }
    Ok(cursor)
}
