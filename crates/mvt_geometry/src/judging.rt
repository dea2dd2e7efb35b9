//! Whether integers draw a geometry: one pass over them, without memory.
ghost use Rattle.std.specs.Prelude.{◌≡◌, ◌≢◌, ◌+◌, ◌*◌, ◌/◌, ◌%◌, ◌-◌, ◌<◌, ◌≤◌, ◌^◌, ℕ, suc, Bool, true, ℤ, pos, List, [], ◌∷◌, ◌++◌, length, drop, slice_index, ◌==◌, ◌&&◌, IfOk, IfErr, IsErrOf, OnOk, OnErr, IsTrue, ◌↔◌, IfSome, IfNone, ◌+ℤ◌};
ghost use Rattle.std.specs.Int.RustNames.{unsigned_abs};
ghost use Rattle.mvt_base.specs.Rules.{first, rows, each};
ghost use Rattle.mvt_geometry.specs.declared.shape.Geometry.{Geometry};
ghost use Rattle.mvt_geometry.specs.declared.shape.Point.{Point};
ghost use Rattle.mvt_geometry.specs.Shape.{AreSteps, InRange, IsPlace, last_of};
ghost use Rattle.mvt_geometry.specs.Area.{area2};
ghost use Rattle.mvt_geometry.specs.Drawing.{Draws, stroke};
ghost use Rattle.mvt_geometry.specs.Valid.{IsStroke};
ghost use Rattle.mvt_wire.specs.Zigzag.{unzig};
ghost use Rattle.mvt_geometry.specs.Commands.{Pair, pair_count, pairs_of, due, may_not_end, stepped, moved, positions};
ghost use Rattle.mvt_geometry.specs.Table.{step_rules, pair_rules, header_rows, geometry_fault};
ghost use Rattle.mvt_geometry.specs.Reports.{Reports};
ghost use Rattle.mvt_geometry.specs.Inner.Judging.{IsHeader, Reached, edges, part_count};

use crate::area::cross;
use crate::command::Command;
use crate::fault::{Fault, GeometryCause, GeometryError};
use crate::shape::{Kind, Point};
use mvt_wire::unzigzag32;

/// The parameter that would be -2^31.
const REFUSED: u32 = 4_294_967_295;

pub(crate) const ORIGIN: Point = Point { x: 0, y: 0 };

/// How far the integers are read: the index of the next one, and the cursor.
#[derive(Clone, Copy, Debug)]
struct Pen {
    at: usize,
    cursor: Point,
}

/// Whether integers draw a geometry of this type, without memory.
///
/// # Errors
///
/// The first broken rule.
pub fn judge_geometry(kind: Kind, integers: &[u32]) -> Result<(), GeometryError>
    ensures ok { OnOk result (geometry_fault kind integers.now ≡ None) }
    ensures err { IfErr result (λ e. Reports e (geometry_fault kind integers.now)) }
    ensures fault { OnErr result (geometry_fault kind integers.now ≢ None) }
    ensures never { IsErrOf result GeometryError.Memory → ⊥ }
{
    judge(kind, integers)?;
    Ok(())
}

/// How many lines or polygons the integers draw, or the first broken rule.
pub(crate) fn judge(kind: Kind, integers: &[u32]) -> Result<usize, Fault>
    ensures ok { OnOk result (geometry_fault kind integers.now ≡ None) }
    ensures count { IfOk result (λ n. (g : Geometry) → Draws kind integers.now g
        → n ≡ part_count g) }
    ensures err { IfErr result (λ f. geometry_fault kind integers.now ≡ Some (f.index, f.cause)) }
{
    if kind == Kind::Unknown {
        return Ok(0);
    }
    if integers.is_empty() {
        return Err(Fault {
            index: 0,
            cause: GeometryCause::EndsEarly,
        });
    }
    match kind {
        Kind::Unknown => Ok(0),
        Kind::Point => judge_points(integers),
        Kind::LineString => judge_lines(integers),
        Kind::Polygon => judge_polygons(integers),
    }
}

fn judge_points(integers: &[u32]) -> Result<usize, Fault>
    requires { 0 < length integers.now }
    ensures ok { OnOk result (geometry_fault Kind.Point integers.now ≡ None) }
    ensures count { IfOk result (λ n. (g : Geometry) → Draws Kind.Point integers.now g
        → n ≡ part_count g) }
    ensures err { IfErr result (λ f. geometry_fault Kind.Point integers.now ≡ Some
        (f.index, f.cause)) }
{
    let pen = Pen {
        at: 0,
        cursor: ORIGIN,
    };
    let pen = judge_command(Kind::Point, Command::MoveTo, integers, pen)?;
    if pen.at < integers.len() {
        return Err(Fault {
            index: pen.at,
            cause: GeometryCause::Command,
        });
    }
    Ok(0)
}

fn judge_lines(integers: &[u32]) -> Result<usize, Fault>
    requires { 0 < length integers.now }
    ensures ok { OnOk result (geometry_fault Kind.LineString integers.now ≡ None) }
    ensures count { IfOk result (λ n. (g : Geometry) → Draws Kind.LineString integers.now g
        → n ≡ part_count g) }
    ensures err { IfErr result (λ f. geometry_fault Kind.LineString integers.now ≡ Some
        (f.index, f.cause)) }
{
    let mut pen = Pen {
        at: 0,
        cursor: ORIGIN,
    };
    let mut lines = 0;
    while pen.at < integers.len() {
        let first = judge_command(Kind::LineString, Command::MoveTo, integers, pen)?;
        pen = judge_command(Kind::LineString, Command::LineTo, integers, first)?;
        lines += 1;
    }
    Ok(lines)
}

fn judge_polygons(integers: &[u32]) -> Result<usize, Fault>
    requires { 0 < length integers.now }
    ensures ok { OnOk result (geometry_fault Kind.Polygon integers.now ≡ None) }
    ensures count { IfOk result (λ n. (g : Geometry) → Draws Kind.Polygon integers.now g
        → n ≡ part_count g) }
    ensures err { IfErr result (λ f. geometry_fault Kind.Polygon integers.now ≡ Some
        (f.index, f.cause)) }
{
    let mut pen = Pen {
        at: 0,
        cursor: ORIGIN,
    };
    let mut polygons = 0;
    while pen.at < integers.len() {
        let (next, area) = judge_ring(integers, pen)?;
        if polygons == 0 || area > 0 {
            polygons += 1;
        }
        pen = next;
    }
    Ok(polygons)
}

/// The pen after a ring, and twice the ring's area.
fn judge_ring(integers: &[u32], pen: Pen) -> Result<(Pen, i128), Fault>
    requires { pen.at < length integers.now }
    ensures further { IfOk result (λ r. (pen.at < r.0.at) × (r.0.at ≤ length integers.now)) }
    ensures ok { IfOk result (λ r. (k : ℕ) → k % 3 ≡ 0
        → Reached Kind.Polygon integers.now k pen.at pen.cursor
        → Reached Kind.Polygon integers.now (k + 3) r.0.at r.0.cursor) }
    ensures ring { IfOk result (λ r. (k : ℕ) (p : Point) (ps : List Point) (more : List ℕ)
        → k % 3 ≡ 0
        → Reached Kind.Polygon integers.now k pen.at pen.cursor → IsStroke 3 (p ∷ ps)
        → AreSteps pen.cursor (p ∷ ps)
        → drop pen.at integers.now ≡ stroke (15 ∷ []) pen.cursor (p ∷ ps) ++ more
        → (r.1 ≡ area2 (p ∷ ps)) × (drop r.0.at integers.now ≡ more)
        × (r.0.cursor ≡ last_of p ps)) }
    ensures err { IfErr result (λ f. (k : ℕ) → k % 3 ≡ 0
        → Reached Kind.Polygon integers.now k pen.at pen.cursor
        → geometry_fault Kind.Polygon integers.now ≡ Some (f.index, f.cause)) }
{
    let first = judge_command(Kind::Polygon, Command::MoveTo, integers, pen)?;
    let count = judge_header(Kind::Polygon, Command::LineTo, integers, first.at)?;
    let begin = first.at + 1;
    let end = begin + 2 * count;
    let (last, path) = judge_edges(true, begin, first.cursor, &integers[begin..end])?;
    judge_header(Kind::Polygon, Command::ClosePath, integers, end)?;
    let area = path + cross(last, first.cursor);
    if pen.at == 0 && area < 0 {
        return Err(Fault {
            index: end,
            cause: GeometryCause::FirstRing,
        });
    }
    Ok((
        Pen {
            at: end + 1,
            cursor: last,
        },
        area,
    ))
}

/// The pen after a command that has parameters.
#[inline(always)]
fn judge_command(kind: Kind, command: Command, integers: &[u32], pen: Pen) -> Result<Pen, Fault>
    requires within { pen.at ≤ length integers.now }
    requires has_pairs { command ≢ Command.ClosePath }
    ensures further { IfOk result (λ next. (pen.at < next.at) × (next.at ≤ length integers.now)) }
    ensures ok { IfOk result (λ next. (k : ℕ) → due kind k ≡ Some command
        → Reached kind integers.now k pen.at pen.cursor
        → Reached kind integers.now (suc k) next.at next.cursor) }
    ensures err { IfErr result (λ f. (k : ℕ) → due kind k ≡ Some command
        → Reached kind integers.now k pen.at pen.cursor
        → (pen.at ≡ length integers.now → may_not_end kind k ≡ true)
        → geometry_fault kind integers.now ≡ Some (f.index, f.cause)) }
{
    let count = judge_header(kind, command, integers, pen.at)?;
    let begin = pen.at + 1;
    let end = begin + 2 * count;
    let (cursor, _) = judge_edges(command.is_line(), begin, pen.cursor, &integers[begin..end])?;
    Ok(Pen { at: end, cursor })
}

/// How many pairs stand after the command that is due here.
#[inline(always)]
fn judge_header(kind: Kind, command: Command, integers: &[u32], at: usize) -> Result<usize, Fault>
    requires { at ≤ length integers.now }
    ensures ok { OnOk result (IsHeader kind command integers.now at) }
    ensures count { IfOk result (λ n. n ≡ pair_count (Some command)
        (slice_index integers.now at / 8)) }
    ensures err { IfErr result (λ f. (must_not : Bool)
        → (at ≡ length integers.now → must_not ≡ true)
        → first (rows (header_rows must_not kind (Some command) integers.now at)) ≡ Some
        (f.index, f.cause)) }
{
    let Some(integer) = integers.get(at) else {
        return Err(Fault {
            index: at,
            cause: GeometryCause::EndsEarly,
        });
    };
    if *integer % 8 != command.id() {
        return Err(Fault {
            index: at,
            cause: GeometryCause::Command,
        });
    }
    let count = Command::count_in(*integer);
    if !command.allows(kind, count) {
        return Err(Fault {
            index: at,
            cause: GeometryCause::Count,
        });
    }
    if command == Command::ClosePath {
        return Ok(0);
    }
    let count = count as usize;
    if (integers.len() - at - 1) / 2 < count {
        return Err(Fault {
            index: at,
            cause: GeometryCause::Parameters,
        });
    }
    Ok(count)
}

/// The cursor after pairs, the first of which is numbered `begin`, and what the edges to it add to
/// twice an area.
#[inline(always)]
fn judge_edges(
    is_line: bool,
    begin: usize,
    from: Point,
    parameters: &[u32],
) -> Result<(Point, i128), Fault>
    requires { begin + length parameters.now < 2 ^ 64 }
    ensures ok { OnOk result (first
        (each (pair_rules is_line begin from) [] (pairs_of parameters.now)) ≡ None) }
    ensures cursor { IfOk result (λ r. r.0 ≡ moved from (pairs_of parameters.now)) }
    ensures area { IfOk result (λ r. r.1 ≡ edges from (positions from (pairs_of parameters.now))) }
    ensures small { IfOk result (λ r. unsigned_abs r.1 ≤ length parameters.now * 2 ^ 62) }
    ensures err { IfErr result (λ f.
        first (each (pair_rules is_line begin from) [] (pairs_of parameters.now)) ≡ Some
        (f.index, f.cause)) }
{
    let mut cursor = from;
    let mut area = 0;
    let mut rest = parameters;
    while let [dx, dy, others @ ..] = rest {
        let at = begin + (parameters.len() - rest.len());
        if let Some(fault) = step_fault(is_line, at, cursor, *dx, *dy) {
            return Err(fault);
        }
        let next = moved_by(cursor, *dx, *dy);
        area += cross(cursor, next);
        cursor = next;
        rest = others;
    }
    Ok((cursor, area))
}

/// The point that a pair leads to, where that is in range.
#[inline(always)]
pub(crate) fn moved_by(from: Point, dx: u32, dy: u32) -> Point
    requires { let d : Pair = record { dx = dx; dy = dy } in IsPlace (stepped from d) }
    ensures { let d : Pair = record { dx = dx; dy = dy } in result ≡ stepped from d }
{
    let x = from.x + unzigzag32(dx);
    let y = from.y + unzigzag32(dy);
    Point { x, y }
}

/// The first rule that a pair breaks, whose dX is numbered `at`.
#[inline(always)]
pub(crate) fn step_fault(is_line: bool, at: usize, from: Point, dx: u32, dy: u32) -> Option<Fault>
    requires { at + 1 < 2 ^ 64 }
    ensures none { let d : Pair = record { dx = dx; dy = dy } in
        IfNone result ((first (step_rules is_line at d (stepped from d)) ≡ None)
        × IsPlace (stepped from d)) }
    ensures some { let d : Pair = record { dx = dx; dy = dy } in
        IfSome result (λ f. first (step_rules is_line at d (stepped from d)) ≡ Some
        (f.index, f.cause)) }
{
    let cause = GeometryCause::ParameterRange;
    if dx == REFUSED {
        return Some(Fault { index: at, cause });
    }
    if dy == REFUSED {
        return Some(Fault {
            index: at + 1,
            cause,
        });
    }
    if is_line && is_zero(dx, dy) {
        let cause = GeometryCause::ZeroSegment;
        return Some(Fault { index: at, cause });
    }
    let cause = GeometryCause::CoordinateRange;
    if !stays_inside(from.x, dx) {
        return Some(Fault { index: at, cause });
    }
    if !stays_inside(from.y, dy) {
        return Some(Fault {
            index: at + 1,
            cause,
        });
    }
    None
}

/// Whether a pair is (0,0).
#[inline(always)]
fn is_zero(dx: u32, dy: u32) -> bool
    ensures { result ≡ (dx == 0 && dy == 0) }
{
    dx == 0 && dy == 0
}

/// Whether a coordinate moved by a parameter is in range.
#[inline(always)]
fn stays_inside(from: i32, parameter: u32) -> bool
    ensures { IsTrue result ↔ InRange (from +ℤ unzig parameter) }
{
    is_in_range(i64::from(from) + i64::from(unzigzag32(parameter)))
}

/// Whether a position or a difference is in range: at most 2^31 - 1 to both sides.
#[inline(always)]
pub(crate) fn is_in_range(number: i64) -> bool
    ensures { IsTrue result ↔ InRange number }
{
    number.unsigned_abs() <= 2_147_483_647
}
