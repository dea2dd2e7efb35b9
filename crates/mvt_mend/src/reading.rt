//! The lines or rings of integers that keep the form of commands (sections 4.3.1 to 4.3.4).
ghost use Rattle.std.specs.Prelude.{◌≡◌, ◌+◌, ◌*◌, ◌<◌, ◌≤◌, true, false, suc, [], ◌∷◌, length, option_map, IfOk, IfSome};
ghost use Rattle.mvt_geometry.specs.Shape.{InRange, wide, origin};
ghost use Rattle.mvt_geometry.specs.Table.{is_outside as lies_outside};
ghost use Rattle.mvt_mend.specs.Reading.{moved as the_moved, step as the_step, path_in, least_of, count_in, begins_line as a_line_begins, has_pairs as pairs_are_there, after_part as the_rest, part_in, parts_after, parts_in};

use mvt_base::Items;
use mvt_geometry::Point;
use mvt_wire::unzigzag32;
use std::alloc::{AllocError, Global};

/// The parameter that would be -2^31.
const REFUSED: u32 = 4_294_967_295;

pub(crate) const MOVE_TO_ONE: u32 = 9;

pub(crate) const LINE_TO: u32 = 2;

pub(crate) const CLOSE_PATH: u32 = 15;

/// The lines or rings that the integers spell, one at least; None where they don't keep the form.
pub(crate) fn read_parts(
    alloc: Global,
    is_ring: bool,
    integers: &[u32],
) -> Result<Option<Vec<Items<Point>>>, AllocError>
    ensures { IfOk result (λ r. option_map (λ v. v.items) r ≡ parts_in is_ring integers.now) }
{
    if integers.is_empty() {
        return Ok(None);
    }
    read_all(alloc, is_ring, integers)
}

fn read_all(
    alloc: Global,
    is_ring: bool,
    integers: &[u32],
) -> Result<Option<Vec<Items<Point>>>, AllocError>
    ensures { IfOk result (λ r. option_map (λ v. v.items) r
        ≡ parts_after is_ring (suc (length integers.now)) [] origin integers.now) }
{
    let mut parts = Vec::new(alloc);
    let mut cursor = Point { x: 0, y: 0 };
    let mut rest = integers;
    while !rest.is_empty() {
        let Some(part) = read_part(alloc, is_ring, cursor, rest)? else {
            return Ok(None);
        };
        parts.push(part.points)?;
        cursor = part.last;
        rest = part.rest;
    }
    Ok(Some(parts))
}

/// A line or ring, its last point, and what stands behind it.
#[derive(Debug, Drop)]
struct Part<'a> {
    points: Items<Point>,
    last: Point,
    rest: &'a [u32],
}

/// The line or ring in front of the integers.
fn read_part<'a>(
    alloc: Global,
    is_ring: bool,
    from: Point,
    integers: &'a [u32],
) -> Result<Option<Part<'a>>, AllocError>
    ensures further { IfOk result (λ r. IfSome r (λ part.
        length part.rest.now < length integers.now)) }
    ensures is { IfOk result (λ r. part_in is_ring from integers.now ≡ option_map
        (λ part. record { points = part.points; last = part.last; rest = part.rest.now }) r) }
{
    if !begins_line(integers) || !has_pairs(is_ring, integers) {
        return Ok(None);
    }
    let Some(first) = step(from, integers[1], integers[2]) else {
        return Ok(None);
    };
    let count = (integers[3] / 8) as usize;
    let mut points = Vec::with_capacity(alloc, count + 1)?;
    points.push(first)?;
    let (_, others) = integers.split_at(4);
    let (pairs, behind) = others.split_at(2 * count);
    let Some(last) = read_path(&mut points, first, pairs)? else {
        return Ok(None);
    };
    let Some(rest) = after_part(is_ring, behind) else {
        return Ok(None);
    };
    let points = Items::new(points);
    Ok(Some(Part { points, last, rest }))
}

/// Whether a MoveTo with one pair stands in front, and a LineTo behind them.
fn begins_line(integers: &[u32]) -> bool
    ensures is { result ≡ a_line_begins integers.now }
    ensures four { result ≡ true → 4 ≤ length integers.now }
{
    if integers.len() < 4 {
        return false;
    }
    integers[0] == MOVE_TO_ONE && integers[3] % 8 == LINE_TO
}

/// Whether the LineTo has as many pairs as a line or ring needs, and they are there.
fn has_pairs(is_ring: bool, integers: &[u32]) -> bool
    requires { 4 ≤ length integers.now }
    ensures is { result ≡ pairs_are_there is_ring integers.now }
    ensures room { result ≡ true → 4 + 2 * count_in integers.now ≤ length integers.now }
{
    let count = (integers[3] / 8) as usize;
    count + 1 >= least(is_ring) && integers.len() >= 4 + 2 * count
}

/// The least points of a line or a ring.
pub(crate) fn least(is_ring: bool) -> usize
    ensures { result ≡ least_of is_ring }
{
    if is_ring { 3 } else { 2 }
}

/// What stands behind a line, or behind the ClosePath of a ring.
fn after_part(is_ring: bool, integers: &[u32]) -> Option<&[u32]>
    ensures is { the_rest is_ring integers.now ≡ option_map (λ rest. rest.now) result }
    ensures further { IfSome result (λ rest. length rest.now < length integers.now + 1) }
{
    if !is_ring {
        return Some(integers);
    }
    match integers {
        [integer, rest @ ..] if *integer == CLOSE_PATH => Some(rest),
        _ => None,
    }
}

/// Appends the points that pairs lead to, and answers the last; None where one can't be led to.
fn read_path(
    points: &mut Vec<Point>,
    from: Point,
    parameters: &[u32],
) -> Result<Option<Point>, AllocError>
    ensures { IfOk result (λ r. path_in points.old.items from parameters.now
        ≡ option_map (λ last. record { points = points.new.items; last = last }) r) }
{
    let mut cursor = from;
    let mut rest = parameters;
    while rest.len() >= 2 {
        let Some(next) = step(cursor, rest[0], rest[1]) else {
            return Ok(None);
        };
        points.push(next)?;
        cursor = next;
        let (_, others) = rest.split_at(2);
        rest = others;
    }
    if rest.is_empty() {
        Ok(Some(cursor))
    } else {
        Ok(None)
    }
}

/// The position that a pair leads to.
fn step(from: Point, dx: u32, dy: u32) -> Option<Point>
    ensures { result ≡ the_step from dx dy }
{
    let Some(x) = moved(from.x, dx) else {
        return None;
    };
    let Some(y) = moved(from.y, dy) else {
        return None;
    };
    Some(Point { x, y })
}

/// A coordinate moved by a parameter.
fn moved(from: i32, parameter: u32) -> Option<i32>
    ensures { result ≡ the_moved from parameter }
{
    if parameter == REFUSED {
        return None;
    }
    let to = i64::from(from) + i64::from(unzigzag32(parameter));
    if is_outside(to) {
        return None;
    }
    Some(to as i32)
}

/// Whether a position or a difference is out of range: beyond 2^31 - 1 to one side.
pub(crate) fn is_outside(number: i64) -> bool
    ensures is { result ≡ lies_outside wide number }
    ensures inside { result ≡ false → InRange number }
{
    number < -2_147_483_647 || number > 2_147_483_647
}
