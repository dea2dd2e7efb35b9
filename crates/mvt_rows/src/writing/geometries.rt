//! Geometries drawn straight from their rows.
ghost use Rattle.std.specs.Prelude.{◌≡◌, ◌∷◌, ◌++◌, [], List, length, map, IfOk, IfErr, None, option_map};
ghost use Rattle.mvt_geometry.specs.declared.shape.Geometry.TheVariants.{Lines, Polygons};
ghost use Rattle.mvt_geometry.specs.declared.shape.Point.{Point as APoint};
ghost use Rattle.mvt_geometry.specs.declared.shape.Polygon.{Polygon};
ghost use Rattle.mvt_rows.specs.Drawing.{AreDrawnIf, AreJudged, DrawnLines, DrawnPolygons, IsFollowedBy, role_of as the_role_of};
ghost use Rattle.mvt_rows.specs.Lent.{table_of};
ghost use Rattle.mvt_rows.specs.TileRows.{each, geometry_of, line_of, point_of, points_of, steps, with_ring_row};
ghost use Rattle.mvt_rows.specs.Undrawn.{Stroke, a_line, a_ring};
ghost use Rattle.mvt_rows.specs.Written.{IfNoPart};

use super::parts::part;
use super::refused::{refused_line, refused_points, refused_ring};
use super::values::truth;
use crate::rows::{FeatureRow, PartRow, PointRow, Rows};
use crate::rows_error::RowPartError;
use crate::undrawn::{DrawingRule, Undrawn};
use crate::work::Work;
use mvt_geometry::{
    Kind, PartError, Point, Position, RingRole, append_integers, append_line, append_points,
    append_ring,
};
use mvt_wire::PackedNumbers;
use std::alloc::AllocError;

/// The cursor before the first part.
pub(crate) const ORIGIN: Point = Point { x: 0, y: 0 };

impl Position for PointRow {
    ghost use Rattle.mvt_rows.specs.TileRows.{point_of as the_point_of};

    ghost point_of = { the_point_of };

    #[inline(always)]
    fn point(&self) -> Point {
        Point {
            x: self.x,
            y: self.y,
        }
    }
}

/// Draws the geometry of a feature's row, and answers its type, or the first rule that it breaks if
/// no integers draw it. The list then has its integers alone.
///
/// Parts that can't be drawn are told only after all parts have counted.
pub(crate) fn append_row_geometry(
    rows: &Rows<'_>,
    row: &FeatureRow,
    work: &mut Work,
    integers: &mut PackedNumbers,
) -> Result<Result<Kind, Undrawn>, RowPartError>
    ensures drawn { IfOk result
        (λ drawn. AreDrawnIf (geometry_of (table_of rows.now) row.now) drawn integers.new) }
    ensures none { IfErr result (IfNoPart (geometry_of (table_of rows.now) row.now ≡ None)) }
{
    integers.clear();
    if row.kind == 0 {
        append_integers(integers, part(rows.integers, row.integers, work)?)?;
        return Ok(Ok(Kind::Unknown));
    }
    let parts = part(rows.parts, row.parts, work)?;
    match row.kind {
        1 => write_points(rows.points, parts, work, integers),
        2 => write_lines(rows.points, parts, work, integers),
        3 => write_polygons(rows.points, parts, work, integers),
        _ => Err(RowPartError::NoPart),
    }
}

/// Writes all points of a feature, which are one part.
fn write_points(
    points: &[PointRow],
    rows: &[PartRow],
    work: &mut Work,
    integers: &mut PackedNumbers,
) -> Result<Result<Kind, Undrawn>, RowPartError>
    requires { integers.now ≡ [] }
    ensures drawn { IfOk result
        (λ drawn. AreDrawnIf (points_of points.now rows.now) drawn integers.new) }
    ensures none { IfErr result (IfNoPart (points_of points.now rows.now ≡ None)) }
{
    let [row] = rows else {
        return Err(RowPartError::NoPart);
    };
    let points = part(points, row.points, work)?;
    match append_points(integers, points) {
        Ok(()) => Ok(Ok(Kind::Point)),
        Err(PartError::Invalid) => Ok(Err(refused_points(points))),
        Err(PartError::Memory) => Err(RowPartError::Memory),
    }
}

fn write_lines(
    points: &[PointRow],
    rows: &[PartRow],
    work: &mut Work,
    integers: &mut PackedNumbers,
) -> Result<Result<Kind, Undrawn>, RowPartError>
    requires { integers.now ≡ [] }
    ensures drawn { IfOk result (λ drawn. AreDrawnIf
        (option_map Lines (each (line_of points.now) rows.now)) drawn integers.new) }
    ensures none { IfErr result (IfNoPart (each (line_of points.now) rows.now ≡ None)) }
{
    let mut cursor = Ok(ORIGIN);
    for (index, row) in rows.iter().enumerate() {
        let line = part(points, row.points, work)?;
        cursor = write_line(integers, index, cursor, line)?;
    }
    if rows.is_empty() {
        return Ok(Err(Undrawn::of_part(0, DrawingRule::EndsEarly)));
    }
    match cursor {
        Ok(_) => Ok(Ok(Kind::LineString)),
        Err(undrawn) => Ok(Err(undrawn)),
    }
}

/// Writes one line more, of this index. In place of a cursor there is the rule that a line broke,
/// from where one can't be drawn.
fn write_line(
    integers: &mut PackedNumbers,
    index: usize,
    cursor: Result<Point, Undrawn>,
    line: &[PointRow],
) -> Result<Result<Point, Undrawn>, AllocError>
    ensures drawn { (lines : List (List APoint)) → DrawnLines lines cursor integers.old
        → IfOk result (λ next. DrawnLines (lines ++ map point_of line.now ∷ []) next
        integers.new) }
    ensures judged { (parts : List Stroke) → length parts ≡ index → AreJudged parts cursor
        → IfOk result (AreJudged (parts ++ a_line (map point_of line.now) ∷ [])) }
{
    let from = match cursor {
        Ok(from) => from,
        Err(undrawn) => return Ok(Err(undrawn)),
    };
    match append_line(integers, from, line) {
        Ok(last) => Ok(Ok(last)),
        Err(PartError::Invalid) => Ok(Err(refused_line(index, from, line))),
        Err(PartError::Memory) => Err(AllocError),
    }
}

fn write_polygons(
    points: &[PointRow],
    rows: &[PartRow],
    work: &mut Work,
    integers: &mut PackedNumbers,
) -> Result<Result<Kind, Undrawn>, RowPartError>
    requires { integers.now ≡ [] }
    ensures drawn { IfOk result (λ drawn. AreDrawnIf
        (option_map Polygons (steps (with_ring_row points.now) [] rows.now)) drawn integers.new) }
    ensures none { IfErr result (IfNoPart (steps (with_ring_row points.now) [] rows.now ≡ None)) }
{
    let mut cursor = Ok(ORIGIN);
    let mut begun = false;
    for (index, row) in rows.iter().enumerate() {
        let ring = part(points, row.points, work)?;
        let Some(role) = role_of(row, begun) else {
            return Err(RowPartError::NoPart);
        };
        cursor = write_ring(integers, index, cursor, ring, role)?;
        begun = true;
    }
    if !begun {
        return Ok(Err(Undrawn::of_part(0, DrawingRule::EndsEarly)));
    }
    match cursor {
        Ok(_) => Ok(Ok(Kind::Polygon)),
        Err(undrawn) => Ok(Err(undrawn)),
    }
}

/// What the ring of a row is, where a polygon was begun before it or none.
fn role_of(row: &PartRow, begun: bool) -> Option<RingRole>
    ensures { result ≡ the_role_of row.now begun }
{
    match (truth(u64::from(row.exterior)), begun) {
        (Some(true), false) => Some(RingRole::First),
        (Some(true), true) => Some(RingRole::Exterior),
        (Some(false), true) => Some(RingRole::Interior),
        _ => None,
    }
}

/// Writes one ring more, of this index. In place of a cursor there is the rule that a ring broke,
/// from where one can't be drawn.
fn write_ring(
    integers: &mut PackedNumbers,
    index: usize,
    cursor: Result<Point, Undrawn>,
    ring: &[PointRow],
    role: RingRole,
) -> Result<Result<Point, Undrawn>, AllocError>
    ensures drawn { (polygons next : List Polygon)
        → IsFollowedBy role polygons (map point_of ring.now) next
        → DrawnPolygons polygons cursor integers.old
        → IfOk result (λ cursor. DrawnPolygons next cursor integers.new) }
    ensures judged { (parts : List Stroke) → length parts ≡ index → AreJudged parts cursor
        → IfOk result (AreJudged (parts ++ a_ring role (map point_of ring.now) ∷ [])) }
{
    let from = match cursor {
        Ok(from) => from,
        Err(undrawn) => return Ok(Err(undrawn)),
    };
    match append_ring(integers, from, ring, role) {
        Ok(last) => Ok(Ok(last)),
        Err(PartError::Invalid) => Ok(Err(refused_ring(index, from, ring, role))),
        Err(PartError::Memory) => Err(AllocError),
    }
}
