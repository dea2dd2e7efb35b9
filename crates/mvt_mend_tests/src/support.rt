//! Lines of points, and the integers that spell them, whatever rule they break.
use crate::expect::expect_eq;
use mvt_base::Items;
use mvt_geometry::{Kind, Point};
use mvt_mend::mend_geometry;
use mvt_wire::zigzag32;
use std::alloc::{AllocError, Global};
use std::process::Abort;

pub(crate) type Line<'a> = &'a [(i32, i32)];

fn line(alloc: Global, points: Line) -> Result<Items<Point>, AllocError> {
    let mut line = Vec::new(alloc);
    for (x, y) in points {
        line.push(Point { x: *x, y: *y })?;
    }
    Ok(Items::new(line))
}

pub(crate) fn lines(rt: &(impl Abort + AllocGlobal), all: &[Line]) -> Items<Items<Point>> {
    let mut lines = Vec::new(rt.alloc());
    for points in all {
        let line = line(rt.alloc(), *points).expect(rt, "a line");
        lines.push(line).expect(rt, "a line");
    }
    Items::new(lines)
}

// The LineTo of a part of so many points.
fn line_to(points: usize) -> u32 {
    match u32::try_from(points) {
        Ok(points) => points.wrapping_sub(1).wrapping_mul(8).wrapping_add(2),
        Err(_) => 2,
    }
}

// Appends a MoveTo, a LineTo and for a ring a ClosePath; answers the last point.
fn spell_part(
    integers: &mut Vec<u32>,
    is_ring: bool,
    from: (i32, i32),
    part: Line,
) -> Result<(i32, i32), AllocError> {
    let mut cursor = from;
    for (index, point) in part.iter().enumerate() {
        match index {
            0 => integers.push(9)?,
            1 => integers.push(line_to(part.len()))?,
            _ => {}
        }
        integers.push(zigzag32(point.0.wrapping_sub(cursor.0)))?;
        integers.push(zigzag32(point.1.wrapping_sub(cursor.1)))?;
        cursor = *point;
    }
    if is_ring {
        integers.push(15)?;
    }
    Ok(cursor)
}

// The integers of lines or rings of two points at least.
pub(crate) fn spelled(rt: &(impl Abort + AllocGlobal), is_ring: bool, parts: &[Line]) -> Vec<u32> {
    let mut integers = Vec::new(rt.alloc());
    let mut cursor = (0, 0);
    for part in parts {
        cursor = spell_part(&mut integers, is_ring, cursor, *part).expect(rt, "integers");
    }
    integers
}

// The integers that these lines or rings spell become those that the others spell.
pub(crate) fn expect_mended(
    rt: &(impl Abort + AllocGlobal),
    kind: Kind,
    parts: &[Line],
    expected: &[Line],
) {
    let is_ring = kind == Kind::Polygon;
    let integers = spelled(rt, is_ring, parts);
    let wanted = spelled(rt, is_ring, expected);
    let mended = mend_geometry(rt.alloc(), kind, integers.as_slice()).expect(rt, "integers");
    expect_eq!(rt; mended.as_ref().map(|v| v.as_slice()), Some(wanted.as_slice()));
    drop(mended);
    drop(wanted);
    drop(integers);
}

// The integers stay.
pub(crate) fn expect_kept(rt: &(impl Abort + AllocGlobal), kind: Kind, integers: &[u32]) {
    let mended = mend_geometry(rt.alloc(), kind, integers).expect(rt, "no integers");
    expect_eq!(rt; mended.is_none(), true);
    drop(mended);
}

pub(crate) fn expect_parts_kept(rt: &(impl Abort + AllocGlobal), kind: Kind, parts: &[Line]) {
    let integers = spelled(rt, kind == Kind::Polygon, parts);
    expect_kept(rt, kind, integers.as_slice());
    drop(integers);
}
