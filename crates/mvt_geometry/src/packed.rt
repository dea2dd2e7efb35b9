//! A geometry passed to a visitor straight from the bytes of a packed field, judged on the way
//! (Mapbox Vector Tile Specification 2.1, 4.3.1 to 4.3.4).
ghost use Rattle.std.specs.Bool.{OnFalse};
ghost use Rattle.std.specs.Prelude.{◌+◌, ◌*◌, ◌<◌, ◌≤◌, ◌^◌, ◌≤ℤ◌, pos, List, [], ◌∷◌, length, IfOk, IfSome, IsTrue, OnOk};
ghost use Rattle.mvt_geometry.specs.declared.shape.Point.{Point};
ghost use Rattle.mvt_geometry.specs.declared.shape.Kind.TheVariants as kinds;
ghost use Rattle.mvt_geometry.specs.Commands.{id_of};
ghost use Rattle.mvt_geometry.specs.Visiting.{Part, HasDrawnPacked};
ghost use Rattle.mvt_geometry.specs.Inner.Telling.{HasDrawnFrom};
ghost use Rattle.mvt_geometry.specs.Inner.Telling.{SpellsFront, WasTold, IsPair, ArePairs, IsHead, IsLine};

use crate::area::cross;
use crate::command::Command;
use crate::integers::{Integers, Packed};
use crate::judging::{ORIGIN, moved_by, step_fault};
use crate::shape::{Kind, Point};
use crate::visiting::{GeometryVisitor, Ring, begins_polygon, is_same};
use std::alloc::AllocError;

/// Passes the geometry of this type that the integers of a packed field draw to a visitor, and
/// judges the integers on the way, without a list of them.
///
/// Answers whether they draw one. If not, the visitor may have received some of the parts, and
/// [`draw_geometry`](crate::draw_geometry) says what is wrong. A geometry of unknown type isn't
/// passed on, and the answer is no.
///
/// # Errors
///
/// When memory runs out.
pub fn draw_packed<V: GeometryVisitor>(
    visitor: &mut V,
    kind: Kind,
    bytes: &[u8],
) -> Result<bool, AllocError>
    ensures drawn { IfOk result (λ drawn. IsTrue drawn
        → HasDrawnPacked V.has_parts V.has_integers visitor.old visitor.new kind bytes.now) }
    ensures told { IfOk result (λ drawn. OnFalse drawn ((parts : List Part) × (begun : List Point)
        × V.has_parts visitor.old parts begun visitor.new)) }
{
    tell_integers(visitor, kind, Packed { bytes })
}

/// The same for integers from anywhere.
pub(crate) fn tell_integers<V: GeometryVisitor, I: Integers>(
    visitor: &mut V,
    kind: Kind,
    integers: I,
) -> Result<bool, AllocError>
    ensures drawn { IfOk result (λ drawn. IsTrue drawn
        → HasDrawnFrom I.are V.has_parts V.has_integers visitor.old visitor.new kind integers) }
    ensures told { IfOk result (λ drawn. OnFalse drawn ((parts : List Part) × (begun : List Point)
        × V.has_parts visitor.old parts begun visitor.new)) }
{
    if integers.is_done() {
        return Ok(false);
    }
    match kind {
        Kind::Unknown => Ok(false),
        Kind::Point => tell_points(visitor, integers),
        Kind::LineString => tell_lines(visitor, integers),
        Kind::Polygon => tell_polygons(visitor, integers),
    }
}

#[inline(never)]
fn tell_points<V: GeometryVisitor, I: Integers>(
    visitor: &mut V,
    integers: I,
) -> Result<bool, AllocError>
    ensures drawn { IfOk result (λ drawn. IsTrue drawn
        → HasDrawnFrom I.are V.has_parts V.has_integers visitor.old visitor.new kinds.Point
        integers) }
    ensures told { IfOk result (λ drawn. OnFalse drawn ((parts : List Part) × (begun : List Point)
        × V.has_parts visitor.old parts begun visitor.new)) }
{
    let Some((count, pairs)) = command_front(Command::MoveTo, integers) else {
        return Ok(false);
    };
    if count == 0 {
        return Ok(false);
    }
    let Some(path) = tell_path(visitor, ORIGIN, count, false, pairs)? else {
        return Ok(false);
    };
    if !path.after.is_done() {
        return Ok(false);
    }
    visitor.end_part(count, None)?;
    Ok(true)
}

#[inline(never)]
fn tell_lines<V: GeometryVisitor, I: Integers>(
    visitor: &mut V,
    integers: I,
) -> Result<bool, AllocError>
    requires { 0 < I.size integers }
    ensures drawn { IfOk result (λ drawn. IsTrue drawn
        → HasDrawnFrom I.are V.has_parts V.has_integers visitor.old visitor.new kinds.LineString
        integers) }
    ensures told { IfOk result (λ drawn. OnFalse drawn ((parts : List Part) × (begun : List Point)
        × V.has_parts visitor.old parts begun visitor.new)) }
{
    let mut cursor = ORIGIN;
    let mut rest = integers;
    while !rest.is_done() {
        let Some(line) = tell_line(visitor, cursor, 2, rest)? else {
            return Ok(false);
        };
        visitor.end_part(line.points, None)?;
        cursor = line.end;
        rest = line.after;
    }
    Ok(true)
}

#[inline(never)]
fn tell_polygons<V: GeometryVisitor, I: Integers>(
    visitor: &mut V,
    integers: I,
) -> Result<bool, AllocError>
    requires { 0 < I.size integers }
    ensures drawn { IfOk result (λ drawn. IsTrue drawn
        → HasDrawnFrom I.are V.has_parts V.has_integers visitor.old visitor.new kinds.Polygon
        integers) }
    ensures told { IfOk result (λ drawn. OnFalse drawn ((parts : List Part) × (begun : List Point)
        × V.has_parts visitor.old parts begun visitor.new)) }
{
    let mut is_first = true;
    let mut cursor = ORIGIN;
    let mut rest = integers;
    while !rest.is_done() {
        let Some(ring) = tell_ring(visitor, cursor, rest)? else {
            return Ok(false);
        };
        if !may_stand(is_first, ring.area) {
            return Ok(false);
        }
        let known = Ring {
            exterior: begins_polygon(is_first, ring.area),
            twice_area: ring.area,
            is_closed: ring.is_closed,
        };
        visitor.end_part(ring.points, Some(known))?;
        is_first = false;
        cursor = ring.end;
        rest = ring.after;
    }
    Ok(true)
}

/// Whether a ring of this area, doubled, may stand there (4.3.4.4).
#[inline(always)]
fn may_stand(is_first: bool, area: i128) -> bool
    ensures { IsTrue result → IsTrue is_first → pos 0 ≤ℤ area }
{
    !is_first || area >= 0
}

/// How many points a line has that was passed on, the last of them, twice the area of the ring that
/// it would be, whether that ring's last point is its first, and the bytes after it.
#[derive(Drop)]
struct Line<I> {
    points: usize,
    end: Point,
    area: i128,
    is_closed: bool,
    after: I,
}

/// Tells the ring in front, whose end is a ClosePath.
#[inline(always)]
fn tell_ring<V: GeometryVisitor, I: Integers>(
    visitor: &mut V,
    from: Point,
    integers: I,
) -> Result<Option<Line<I>>, AllocError>
    ensures further { IfOk result (λ told. IfSome told (λ ring.
        I.size ring.after < I.size integers)) }
    ensures line { IfOk result (λ told. IfSome told (λ r. (points : List Point)
        × IsLine I.are 3 (15 ∷ []) from integers r.after r.points r.end r.area r.is_closed points
        × WasTold V.has_parts visitor.old points visitor.new)) }
    ensures told { OnOk result ((points : List Point)
        × WasTold V.has_parts visitor.old points visitor.new) }
{
    let Some(ring) = tell_line(visitor, from, 3, integers)? else {
        return Ok(None);
    };
    let Line {
        points,
        end,
        area,
        is_closed,
        after,
    } = ring;
    let Some((count, behind)) = command_front(Command::ClosePath, after) else {
        return Ok(None);
    };
    if count != 1 {
        return Ok(None);
    }
    Ok(Some(Line {
        points,
        end,
        area,
        is_closed,
        after: behind,
    }))
}

/// Passes on the line in front that has at least this many points: one pair after a MoveTo, and
/// those after a LineTo.
#[inline(always)]
fn tell_line<V: GeometryVisitor, I: Integers>(
    visitor: &mut V,
    from: Point,
    least: usize,
    integers: I,
) -> Result<Option<Line<I>>, AllocError>
    ensures further { IfOk result (λ told. IfSome told (λ line.
        I.size line.after < I.size integers)) }
    ensures line { IfOk result (λ told. IfSome told (λ r. (points : List Point)
        × IsLine I.are least [] from integers r.after r.points r.end r.area r.is_closed points
        × WasTold V.has_parts visitor.old points visitor.new)) }
    ensures told { OnOk result ((points : List Point)
        × WasTold V.has_parts visitor.old points visitor.new) }
{
    let Some(head) = line_front(from, least, integers) else {
        return Ok(None);
    };
    let first = head.point;
    visitor.visit_point(first)?;
    let Some(path) = tell_path(visitor, first, head.count, true, head.after)? else {
        return Ok(None);
    };
    Ok(Some(Line {
        points: head.count + 1,
        end: path.end,
        area: path.area + cross(path.end, first),
        is_closed: is_same(first, path.end),
        after: path.after,
    }))
}

/// The first point of a line, how many pairs lead to the others, and the bytes of these.
#[derive(Drop)]
struct Head<I> {
    point: Point,
    count: usize,
    after: I,
}

/// The commands in front of a line that has at least this many points.
#[inline(always)]
fn line_front<I: Integers>(from: Point, least: usize, integers: I) -> Option<Head<I>>
    ensures head { IfSome result (λ head.
        IsHead I.are least from head.point head.count integers head.after) }
    ensures further { IfSome result (λ head. I.size head.after < I.size integers) }
{
    let (points, pair) = command_front(Command::MoveTo, integers)?;
    let (point, after) = point_front(from, false, pair)?;
    let (count, after) = command_front(Command::LineTo, after)?;
    if points != 1 || count + 1 < least {
        return None;
    }
    Some(Head {
        point,
        count,
        after,
    })
}

/// The count of this command in front, and the bytes after it.
#[inline(always)]
fn command_front<I: Integers>(command: Command, integers: I) -> Option<(usize, I)>
    ensures spelled { IfSome result (λ found.
        SpellsFront I.are integers ((id_of command + 8 * found.0) ∷ []) found.1) }
    ensures few { IfSome result (λ found. found.0 < 2 ^ 29) }
    ensures further { IfSome result (λ found. I.size found.1 < I.size integers) }
{
    let (integer, after) = integers.front()?;
    if integer % 8 != command.id() {
        return None;
    }
    Some((Command::count_in(integer) as usize, after))
}

/// The end of a path that was passed on, what its edges add to twice an area, and the bytes after
/// it.
#[derive(Drop)]
struct Path<I> {
    end: Point,
    area: i128,
    after: I,
}

/// Passes on the points that this many pairs in front lead to.
#[inline(always)]
fn tell_path<V: GeometryVisitor, I: Integers>(
    visitor: &mut V,
    from: Point,
    count: usize,
    is_line: bool,
    integers: I,
) -> Result<Option<Path<I>>, AllocError>
    requires { count < 2 ^ 29 }
    ensures further { IfOk result (λ told. IfSome told (λ path.
        I.size path.after ≤ I.size integers)) }
    ensures path { IfOk result (λ told. IfSome told (λ r. (points : List Point)
        × ArePairs I.are is_line from integers r.after count r.end r.area points
        × WasTold V.has_parts visitor.old points visitor.new)) }
    ensures told { OnOk result ((points : List Point)
        × WasTold V.has_parts visitor.old points visitor.new) }
{
    let mut cursor = from;
    let mut area = 0;
    let mut rest = integers;
    let mut left = count;
    while left > 0 {
        let Some((point, after)) = point_front(cursor, is_line, rest) else {
            return Ok(None);
        };
        visitor.visit_point(point)?;
        area += cross(cursor, point);
        cursor = point;
        rest = after;
        left -= 1;
    }
    Ok(Some(Path {
        end: cursor,
        area,
        after: rest,
    }))
}

/// The point that the pair in front leads to, and the bytes after it.
#[inline(always)]
fn point_front<I: Integers>(from: Point, is_line: bool, integers: I) -> Option<(Point, I)>
    ensures pair { IfSome result (λ found. IsPair I.are is_line from found.0 integers found.1) }
    ensures further { IfSome result (λ found. I.size found.1 < I.size integers) }
{
    let (dx, behind) = integers.front()?;
    let (dy, after) = behind.front()?;
    if step_fault(is_line, 0, from, dx, dy).is_some() {
        return None;
    }
    Some((moved_by(from, dx, dy), after))
}
