//! Which rule a part breaks that was refused. Parts that are drawn are never looked at here.
ghost use Rattle.std.specs.Prelude.{◌≡◌, ◌<◌, ◌-ℤ◌, map, Some};
ghost use Rattle.mvt_geometry.specs.declared.shape.Geometry.TheVariants.{Points};
ghost use Rattle.mvt_geometry.specs.Area.{area2};
ghost use Rattle.mvt_geometry.specs.Parts.{HasAreaOf, IsStrokeFrom};
ghost use Rattle.mvt_geometry.specs.Shape.{wide};
ghost use Rattle.mvt_geometry.specs.Table.{is_outside as the_is_outside};
ghost use Rattle.mvt_geometry.specs.Valid.{IsValid};
ghost use Rattle.mvt_rows.specs.TileRows.{point_of};
ghost use Rattle.mvt_rows.specs.Undrawn.{area_rule as the_area_rule, at_point as the_at_point, is_out as the_is_out, is_zero as the_is_zero, of_part as the_of_part, part_by, path_fault as the_path_fault, points_fault, step_rule as the_step_rule, stroke_fault as the_stroke_fault};

use super::geometries::ORIGIN;
use crate::rows::PointRow;
use crate::undrawn::{DrawingRule, Undrawn};
use mvt_geometry::{Point, Position, RingRole};

/// The most points of a line or a ring: 2^29.
const MOST_POINTS: usize = 536_870_912;

impl Undrawn {
    /// A rule that a part breaks as a whole.
    pub(crate) fn of_part(part: usize, rule: DrawingRule) -> Self
        ensures { result ≡ the_of_part part rule }
    {
        Undrawn {
            rule,
            part,
            point: None,
        }
    }

    fn at_point(part: usize, point: usize, rule: DrawingRule) -> Self
        ensures { result ≡ the_at_point part point rule }
    {
        Undrawn {
            rule,
            part,
            point: Some(point),
        }
    }
}

/// The first rule that refused points break, which are all points of a feature.
pub(crate) fn refused_points(points: &[PointRow]) -> Undrawn
    requires { IsValid (Points (map point_of points.now)) → ⊥ }
    ensures { points_fault (map point_of points.now) ≡ Some result }
{
    if points.is_empty() || points.len() >= MOST_POINTS {
        return Undrawn::of_part(0, DrawingRule::Count);
    }
    match path_fault(0, 0, ORIGIN, points, false) {
        Some(undrawn) => undrawn,
        None => unreachable!(),
    }
}

/// The first rule that a refused line breaks.
pub(crate) fn refused_line(part: usize, from: Point, line: &[PointRow]) -> Undrawn
    requires { IsStrokeFrom 2 from (map point_of line.now) → ⊥ }
    ensures { part_by None part from (map point_of line.now) ≡ Some result }
{
    match stroke_fault(part, 2, from, line) {
        Some(undrawn) => undrawn,
        None => unreachable!(),
    }
}

/// The first rule that a refused ring breaks: where it breaks no other, that of its area.
pub(crate) fn refused_ring(part: usize, from: Point, ring: &[PointRow], role: RingRole) -> Undrawn
    requires { HasAreaOf role (area2 (map point_of ring.now))
        → IsStrokeFrom 3 from (map point_of ring.now) → ⊥ }
    ensures { part_by (Some role) part from (map point_of ring.now) ≡ Some result }
{
    match stroke_fault(part, 3, from, ring) {
        Some(undrawn) => undrawn,
        None => Undrawn::of_part(part, area_rule(role)),
    }
}

fn area_rule(role: RingRole) -> DrawingRule
    ensures { result ≡ the_area_rule role }
{
    match role {
        RingRole::First => DrawingRule::FirstRing,
        RingRole::Exterior => DrawingRule::ExteriorRing,
        RingRole::Interior => DrawingRule::InteriorRing,
    }
}

/// The first rule that a line of at least this many points breaks, or a ring but for its area.
fn stroke_fault(part: usize, least: usize, from: Point, points: &[PointRow]) -> Option<Undrawn>
    ensures { result ≡ the_stroke_fault part least from (map point_of points.now) }
{
    let Some((first, others)) = points.split_first() else {
        return Some(Undrawn::of_part(part, DrawingRule::Count));
    };
    let start = first.point();
    if let Some(rule) = step_rule(from, start, false) {
        return Some(Undrawn::at_point(part, 0, rule));
    }
    if points.len() < least || points.len() > MOST_POINTS {
        return Some(Undrawn::of_part(part, DrawingRule::Count));
    }
    path_fault(part, 1, start, others, true)
}

/// The first rule that the steps to points break, the first of which has this number.
fn path_fault(
    part: usize,
    number: usize,
    from: Point,
    points: &[PointRow],
    is_line: bool,
) -> Option<Undrawn>
    requires { number < 2 }
    ensures { result ≡ the_path_fault is_line part number from (map point_of points.now) }
{
    let mut cursor = from;
    for (index, row) in points.iter().enumerate() {
        let point = row.point();
        if let Some(rule) = step_rule(cursor, point, is_line) {
            return Some(Undrawn::at_point(part, number + index, rule));
        }
        cursor = point;
    }
    None
}

/// The first rule that a step breaks, of a line or of a MoveTo.
fn step_rule(from: Point, to: Point, is_line: bool) -> Option<DrawingRule>
    ensures { result ≡ the_step_rule is_line from to }
{
    if is_far(from, to) {
        return Some(DrawingRule::ParameterRange);
    }
    if is_zero(is_line, from, to) {
        return Some(DrawingRule::ZeroSegment);
    }
    if is_out(to) {
        return Some(DrawingRule::CoordinateRange);
    }
    None
}

/// Whether a difference is out of range.
fn is_far(from: Point, to: Point) -> bool
    ensures { result ≡ the_is_out (to.x -ℤ from.x) (to.y -ℤ from.y) }
{
    is_long(from.x, to.x) || is_long(from.y, to.y)
}

fn is_long(from: i32, to: i32) -> bool
    ensures { result ≡ the_is_outside wide (to -ℤ from) }
{
    let from = i64::from(from);
    let to = i64::from(to);
    is_outside(to - from)
}

/// Whether a position is out of range.
fn is_out(point: Point) -> bool
    ensures { result ≡ the_is_out point.x point.y }
{
    is_outside(i64::from(point.x)) || is_outside(i64::from(point.y))
}

fn is_outside(coordinate: i64) -> bool
    ensures { result ≡ the_is_outside wide coordinate }
{
    coordinate < -2_147_483_647 || 2_147_483_647 < coordinate
}

/// Whether a step of a line goes nowhere.
fn is_zero(is_line: bool, from: Point, to: Point) -> bool
    ensures { result ≡ the_is_zero is_line from to }
{
    is_line && (from.x == to.x && from.y == to.y)
}
