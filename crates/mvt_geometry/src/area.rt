//! Twice the area of a ring (section 4.3.4.4).
ghost use Rattle.std.specs.Prelude.{◌≡◌, ◌≤◌, ◌^◌, ◌*ℤ◌, map};
ghost use Rattle.std.specs.Int.RustNames.{unsigned_abs};
ghost use Rattle.mvt_geometry.specs.Area.{area2, cross as the_cross};

use crate::position::Position;
use crate::shape::Point;

/// Twice the area of a ring, its closing edge included, by the surveyor's formula: positive for an
/// exterior ring, negative for an interior one, and 0 for no points.
pub fn twice_area(ring: &[Point]) -> i128
    ensures { result ≡ area2 ring.now }
{
    area_of(ring)
}

/// The same, of positions as they lie.
pub(crate) fn area_of<P: Position>(ring: &[P]) -> i128
    ensures { result ≡ area2 (map P.point_of ring.now) }
{
    let count = ring.len();
    if count == 0 {
        return 0;
    }
    let mut sum = 0;
    let mut before = ring[count - 1].point();
    for position in ring {
        let point = position.point();
        sum += cross(before, point);
        before = point;
    }
    sum
}

/// What the edge from one point to another adds to twice the area.
#[inline(always)]
pub(crate) fn cross(from: Point, to: Point) -> i128
    ensures value { result ≡ the_cross from to }
    ensures small { unsigned_abs result ≤ 2 ^ 63 }
{
    i128::from(product(from.x, to.y)) - i128::from(product(to.x, from.y))
}

#[inline(always)]
fn product(a: i32, b: i32) -> i64
    ensures value { result ≡ a *ℤ b }
    ensures small { unsigned_abs result ≤ 2 ^ 62 }
{
    i64::from(a) * i64::from(b)
}
