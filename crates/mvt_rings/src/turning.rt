//! Rings told in the other direction (section 4.3.4.4).
ghost use Rattle.std.specs.Prelude.{◌≡◌, ◌++◌, reverse, IfOk, OnOk};
ghost use Rattle.mvt_rings.specs.Turning.{turned as the_turned, as_exterior as the_exterior, as_interior as the_interior};

use crate::repeats::open_end;
use crate::signs::{is_negative, is_positive};
use mvt_base::Items;
use mvt_geometry::Point;
use std::alloc::{AllocError, Global};

/// A ring in the other direction, from the same first point, without last points that equal it.
pub(crate) fn turned(alloc: Global, ring: &[Point]) -> Result<Items<Point>, AllocError>
    ensures { IfOk result (λ r. r ≡ the_turned ring.now) }
{
    let [first, others @ ..] = ring else {
        return copied(alloc, ring);
    };
    let mut points = Vec::with_capacity(alloc, ring.len())?;
    points.push(*first)?;
    push_reversed(&mut points, open_end(*first, others))?;
    Ok(Items::new(points))
}

/// Appends points from the last to the first.
fn push_reversed(points: &mut Vec<Point>, path: &[Point]) -> Result<(), AllocError>
    ensures { OnOk result (points.new.items ≡ points.old.items ++ reverse path.now) }
{
    let mut rest = path;
    while !rest.is_empty() {
        let end = rest.len() - 1;
        points.push(rest[end])?;
        rest = &rest[..end];
    }
    Ok(())
}

/// A ring as an exterior one: turned if its area is negative.
pub(crate) fn as_exterior(alloc: Global, ring: &[Point]) -> Result<Items<Point>, AllocError>
    ensures { IfOk result (λ r. r ≡ the_exterior ring.now) }
{
    if is_negative(ring) {
        return turned(alloc, ring);
    }
    copied(alloc, ring)
}

/// A ring as an interior one: turned if its area is positive.
pub(crate) fn as_interior(alloc: Global, ring: &[Point]) -> Result<Items<Point>, AllocError>
    ensures { IfOk result (λ r. r ≡ the_interior ring.now) }
{
    if is_positive(ring) {
        return turned(alloc, ring);
    }
    copied(alloc, ring)
}

fn copied(alloc: Global, ring: &[Point]) -> Result<Items<Point>, AllocError>
    ensures { IfOk result (λ r. r ≡ ring.now) }
{
    let points = Vec::from_slice(alloc, ring)?;
    Ok(Items::new(points))
}
