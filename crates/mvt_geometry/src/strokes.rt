//! A geometry drawn part by part from positions in place, each judged on the way (sections 4.3.1 to
//! 4.3.4).
ghost use Rattle.std.specs.Prelude.{◌≡◌, ◌<◌, ◌-ℤ◌, ◌++◌, [], ◌∷◌, map, IfOk, OnOk, OnErr, IsErrOf, IsTrue, ◌↔◌};
ghost use Rattle.mvt_base.specs.Related.{Extends};
ghost use Rattle.mvt_geometry.specs.declared.shape.Geometry.TheVariants.{Unknown, Points};
ghost use Rattle.mvt_geometry.specs.Area.{area2};
ghost use Rattle.mvt_geometry.specs.Drawing.{drawn, path_from, stroke};
ghost use Rattle.mvt_geometry.specs.Parts.{HasAreaOf, IsStrokeFrom};
ghost use Rattle.mvt_geometry.specs.Shape.{IsStep, last_of};
ghost use Rattle.mvt_geometry.specs.Valid.{IsValid};
ghost use Rattle.mvt_geometry.specs.Inner.Validity.{IsLineFrom, IsPath};
ghost use Rattle.mvt_wire.specs.Zigzag.{zig};

use crate::area::area_of;
use crate::command::Command;
use crate::judging::ORIGIN;
use crate::position::Position;
use crate::shape::Point;
use crate::validity::{MOST_POINTS, is_step};
use crate::writing::put_kept;
use mvt_wire::{NumberList, zigzag32};
use std::alloc::AllocError;

/// Why a part wasn't drawn.
#[derive(Clone, Copy, Debug, PartialEq, Eq)]
pub enum PartError {
    /// A growth was refused memory.
    Memory,
    /// No integers draw the part there.
    Invalid,
}

impl From<AllocError> for PartError {
    ghost use Rattle.std.specs.Prelude.{◌≡◌};
    ghost use Rattle.mvt_geometry.specs.declared.strokes.PartError.TheVariants.{Memory};

    ghost from_gives = { λ _ error. error ≡ Memory };

    fn from(_: AllocError) -> Self {
        PartError::Memory
    }
}

/// What a ring is among those of a geometry (4.3.4.4).
#[derive(Clone, Copy, Debug, PartialEq, Eq)]
pub enum RingRole {
    /// The exterior ring of the first polygon.
    First,
    /// The exterior ring of a further one.
    Exterior,
    Interior,
}

/// Appends the integers of a geometry of unknown type, which stay as they are.
///
/// # Errors
///
/// When memory runs out; the list is then unchanged or longer.
pub fn append_integers<N: NumberList>(list: &mut N, integers: &[u32]) -> Result<(), AllocError>
    ensures valid { IsValid (Unknown integers.now) }
    ensures drawn { OnOk result
        (N.numbers list.new ≡ N.numbers list.old ++ drawn (Unknown integers.now)) }
    ensures left { OnErr result (Extends (N.numbers list.old) (N.numbers list.new)) }
{
    put_kept(list, integers)
}

/// Appends the integers that draw a geometry of these points.
///
/// # Errors
///
/// Points that are no valid geometry; out of memory. The list may then have some of the integers.
pub fn append_points<P: Position, N: NumberList>(
    list: &mut N,
    points: &[P],
) -> Result<(), PartError>
    ensures valid { OnOk result (IsValid (Points (map P.point_of points.now))) }
    ensures drawn { OnOk result
        (N.numbers list.new ≡ N.numbers list.old ++ drawn (Points (map P.point_of points.now))) }
    ensures invalid { IsErrOf result PartError.Invalid
        → IsValid (Points (map P.point_of points.now)) → ⊥ }
{
    if points.is_empty() || points.len() >= MOST_POINTS {
        return Err(PartError::Invalid);
    }
    list.reserve_numbers(1 + 2 * points.len())?;
    list.push_number(Command::MoveTo.integer(points.len() as u32))?;
    append_path(list, ORIGIN, points, false)?;
    Ok(())
}

/// Appends the integers that draw a line from the cursor, and answers its last point.
///
/// # Errors
///
/// A line that can't be drawn from there; out of memory. The list may then have some of the
/// integers.
pub fn append_line<P: Position, N: NumberList>(
    list: &mut N,
    from: Point,
    line: &[P],
) -> Result<Point, PartError>
    ensures valid { OnOk result (IsStrokeFrom 2 from (map P.point_of line.now)) }
    ensures drawn { OnOk result
        (N.numbers list.new ≡ N.numbers list.old ++ stroke [] from (map P.point_of line.now)) }
    ensures last { IfOk result (λ last. last ≡ last_of from (map P.point_of line.now)) }
    ensures invalid { IsErrOf result PartError.Invalid
        → IsStrokeFrom 2 from (map P.point_of line.now) → ⊥ }
{
    append_stroke(list, from, line, 2)
}

/// Appends the integers that draw a ring from the cursor, and answers its last point.
///
/// # Errors
///
/// A ring that can't be drawn from there, or whose area its role doesn't allow; out of memory. The
/// list may then have some of the integers.
pub fn append_ring<P: Position, N: NumberList>(
    list: &mut N,
    from: Point,
    ring: &[P],
    role: RingRole,
) -> Result<Point, PartError>
    ensures area { OnOk result (HasAreaOf role (area2 (map P.point_of ring.now))) }
    ensures valid { OnOk result (IsStrokeFrom 3 from (map P.point_of ring.now)) }
    ensures drawn { OnOk result (N.numbers list.new
        ≡ N.numbers list.old ++ stroke (15 ∷ []) from (map P.point_of ring.now)) }
    ensures last { IfOk result (λ last. last ≡ last_of from (map P.point_of ring.now)) }
    ensures invalid { IsErrOf result PartError.Invalid
        → HasAreaOf role (area2 (map P.point_of ring.now))
        → IsStrokeFrom 3 from (map P.point_of ring.now) → ⊥ }
{
    if !allows(role, area_of(ring)) {
        return Err(PartError::Invalid);
    }
    let last = append_stroke(list, from, ring, 3)?;
    list.push_number(Command::ClosePath.integer(1))?;
    Ok(last)
}

/// Whether a ring of this role may have this area, doubled.
fn allows(role: RingRole, area: i128) -> bool
    ensures { IsTrue result ↔ HasAreaOf role area }
{
    match role {
        RingRole::First => area >= 0,
        RingRole::Exterior => area > 0,
        RingRole::Interior => area <= 0,
    }
}

/// Appends a line of at least this many points, or a ring without its end.
fn append_stroke<P: Position, N: NumberList>(
    list: &mut N,
    from: Point,
    line: &[P],
    least: usize,
) -> Result<Point, PartError>
    requires { 0 < least }
    ensures valid { OnOk result (IsLineFrom least from (map P.point_of line.now)) }
    ensures drawn { OnOk result
        (N.numbers list.new ≡ N.numbers list.old ++ stroke [] from (map P.point_of line.now)) }
    ensures last { IfOk result (λ last. last ≡ last_of from (map P.point_of line.now)) }
    ensures invalid { IsErrOf result PartError.Invalid
        → IsLineFrom least from (map P.point_of line.now) → ⊥ }
{
    if line.len() < least || line.len() > MOST_POINTS {
        return Err(PartError::Invalid);
    }
    let (first, others) = line.split_at(1);
    list.reserve_numbers(3 + 2 * line.len())?;
    list.push_number(Command::MoveTo.integer(1))?;
    let first = append_path(list, from, first, false)?;
    list.push_number(Command::LineTo.integer(others.len() as u32))?;
    append_path(list, first, others, true)
}

/// Appends the pairs of a path, and answers its last point.
fn append_path<P: Position, N: NumberList>(
    list: &mut N,
    from: Point,
    points: &[P],
    is_line: bool,
) -> Result<Point, PartError>
    ensures valid { OnOk result (IsPath is_line from (map P.point_of points.now)) }
    ensures drawn { OnOk result
        (N.numbers list.new ≡ N.numbers list.old ++ path_from from (map P.point_of points.now)) }
    ensures last { IfOk result (λ last. last ≡ last_of from (map P.point_of points.now)) }
    ensures invalid { IsErrOf result PartError.Invalid
        → IsPath is_line from (map P.point_of points.now) → ⊥ }
{
    let mut cursor = from;
    for position in points {
        let point = position.point();
        if !is_step(cursor, point, is_line) {
            return Err(PartError::Invalid);
        }
        append_step(list, cursor, point)?;
        cursor = point;
    }
    Ok(cursor)
}

/// Appends the pair that leads from one point to another.
#[inline(always)]
fn append_step<N: NumberList>(list: &mut N, from: Point, to: Point) -> Result<(), AllocError>
    requires { IsStep from to }
    ensures { OnOk result (N.numbers list.new
        ≡ N.numbers list.old ++ zig (to.x -ℤ from.x) ∷ zig (to.y -ℤ from.y) ∷ []) }
{
    list.push_number(zigzag32(to.x - from.x))?;
    list.push_number(zigzag32(to.y - from.y))
}
