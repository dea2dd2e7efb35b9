//! The box of a ring.
ghost use Rattle.std.specs.Prelude.{◌≡◌};
ghost use Rattle.mvt_rings.specs.Boxes.{bounds_of as the_bounds, less as the_less, greater as the_greater, grown as the_grown, meets as do_meet, overlap as do_overlap};

use mvt_geometry::Point;

/// The least box around points: y down, so that the top is the least y.
#[derive(Clone, Copy, Debug)]
pub(crate) struct Bounds {
    pub(crate) left: i32,
    pub(crate) right: i32,
    pub(crate) top: i32,
    pub(crate) bottom: i32,
}

/// The box of a ring.
pub(crate) fn bounds_of(ring: &[Point]) -> Bounds
    ensures { result ≡ the_bounds ring.now }
{
    let [first, others @ ..] = ring else {
        return Bounds {
            left: 0,
            right: 0,
            top: 0,
            bottom: 0,
        };
    };
    let mut bounds = Bounds {
        left: first.x,
        right: first.x,
        top: first.y,
        bottom: first.y,
    };
    for point in others {
        bounds = grown(bounds, *point);
    }
    bounds
}

/// The least box around another and a point.
fn grown(bounds: Bounds, point: Point) -> Bounds
    ensures { result ≡ the_grown bounds point }
{
    Bounds {
        left: less(point.x, bounds.left),
        right: greater(point.x, bounds.right),
        top: less(point.y, bounds.top),
        bottom: greater(point.y, bounds.bottom),
    }
}

pub(crate) fn less(a: i32, b: i32) -> i32
    ensures { result ≡ the_less a b }
{
    if a < b { a } else { b }
}

pub(crate) fn greater(a: i32, b: i32) -> i32
    ensures { result ≡ the_greater a b }
{
    if b < a { a } else { b }
}

/// Whether two ranges have a number in common, both ends included.
#[inline]
pub(crate) fn overlap(low: i32, high: i32, from: i32, to: i32) -> bool
    ensures { result ≡ do_overlap low high from to }
{
    low <= to && from <= high
}

/// Whether two boxes have a point in common.
#[inline]
#[tactic(auto, unfolding(crate::specs::Boxes::meets))]
pub(crate) fn meets(a: Bounds, b: Bounds) -> bool
    ensures { result ≡ do_meet a b }
{
    overlap(a.left, a.right, b.left, b.right) && overlap(a.top, a.bottom, b.top, b.bottom)
}
