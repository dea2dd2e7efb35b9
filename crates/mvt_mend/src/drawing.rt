//! The integers of lines or rings (sections 4.3.1 to 4.3.4).
ghost use Rattle.std.specs.Prelude.{◌≡◌, ◌-ℤ◌, true, [], ◌∷◌, ◌++◌, if◌then◌else◌, option_map, IfOk, IfSome, OnOk};
ghost use Rattle.mvt_geometry.specs.Shape.{last_of as the_last_of};
ghost use Rattle.mvt_geometry.specs.Drawing.{path_from, stroke};
ghost use Rattle.mvt_wire.specs.Zigzag.{zig};
ghost use Rattle.mvt_mend.specs.Drawing.{is_near, are_near, can_draw, closing, drawn_parts};
ghost use Rattle.mvt_mend.specs.Geometry.{points_of};

use crate::reading::{CLOSE_PATH, LINE_TO, MOVE_TO_ONE, is_outside};
use mvt_geometry::Point;
use mvt_rings::Kept;
use mvt_wire::zigzag32;
use std::alloc::{AllocError, Global};

/// The most points of a line or a ring: 2^29.
const MOST_POINTS: usize = 536_870_912;

/// The integers that draw lines or rings, of which about so many are expected; None where one can't
/// be drawn.
pub(crate) fn write_parts(
    alloc: Global,
    is_ring: bool,
    expected: usize,
    parts: &[Kept],
) -> Result<Option<Vec<u32>>, AllocError>
    ensures { IfOk result (λ r. option_map (λ v. v.items) r
        ≡ drawn_parts is_ring (points_of parts.now)) }
{
    let mut integers = Vec::with_capacity(alloc, expected)?;
    let mut cursor = Point { x: 0, y: 0 };
    for part in parts {
        let points = part.points.as_slice();
        let Some(last) = write_part(&mut integers, is_ring, cursor, points)? else {
            return Ok(None);
        };
        cursor = last;
    }
    Ok(Some(integers))
}

/// Appends the integers of a line or ring, and answers its last point; None if it can't be drawn.
fn write_part(
    integers: &mut Vec<u32>,
    is_ring: bool,
    from: Point,
    part: &[Point],
) -> Result<Option<Point>, AllocError>
    ensures last { IfOk result (λ r. r
        ≡ (if can_draw from part.now then Some (the_last_of from part.now) else None)) }
    ensures drawn { IfOk result (λ r. IfSome r (λ _. integers.new.items
        ≡ integers.old.items ++ stroke (closing is_ring) from part.now)) }
{
    if part.is_empty() || part.len() > MOST_POINTS {
        return Ok(None);
    }
    let (first, others) = part.split_at(1);
    integers.push(MOVE_TO_ONE)?;
    let Some(first) = write_path(integers, from, first)? else {
        return Ok(None);
    };
    integers.push(LINE_TO + 8 * (others.len() as u32))?;
    let Some(last) = write_path(integers, first, others)? else {
        return Ok(None);
    };
    close(integers, is_ring)?;
    Ok(Some(last))
}

/// Appends what ends a line or a ring.
fn close(integers: &mut Vec<u32>, is_ring: bool) -> Result<(), AllocError>
    ensures { OnOk result (integers.new.items ≡ integers.old.items ++ closing is_ring) }
{
    if is_ring {
        integers.push(CLOSE_PATH)?;
    }
    Ok(())
}

/// Appends the pairs of a path, and answers its last point; None where a difference is too large.
fn write_path(
    integers: &mut Vec<u32>,
    from: Point,
    points: &[Point],
) -> Result<Option<Point>, AllocError>
    ensures last { IfOk result (λ r. r
        ≡ (if are_near from points.now then Some (the_last_of from points.now) else None)) }
    ensures drawn { IfOk result (λ r. IfSome r (λ _. integers.new.items
        ≡ integers.old.items ++ path_from from points.now)) }
{
    let mut cursor = from;
    for point in points {
        if !write_pair(integers, cursor, *point)? {
            return Ok(None);
        }
        cursor = *point;
    }
    Ok(Some(cursor))
}

/// Appends the pair that leads from one point to another; false where a difference is too large.
fn write_pair(integers: &mut Vec<u32>, from: Point, to: Point) -> Result<bool, AllocError>
    ensures near { IfOk result (λ r. r ≡ is_near from to) }
    ensures drawn { IfOk result (λ r. r ≡ true → integers.new.items
        ≡ integers.old.items ++ zig (to.x -ℤ from.x) ∷ zig (to.y -ℤ from.y) ∷ []) }
{
    let x = difference(from.x, to.x);
    let y = difference(from.y, to.y);
    if is_outside(x) {
        return Ok(false);
    }
    if is_outside(y) {
        return Ok(false);
    }
    integers.push(zigzag32(x as i32))?;
    integers.push(zigzag32(y as i32))?;
    Ok(true)
}

fn difference(from: i32, to: i32) -> i64
    ensures { result ≡ to -ℤ from }
{
    i64::from(to) - i64::from(from)
}
