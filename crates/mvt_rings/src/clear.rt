//! Rings that come near a box nowhere: all of it lies on one side of them.
ghost use Rattle.std.specs.Prelude.{◌≡◌, true, IfSome};
ghost use Rattle.std.specs.List.{list_all};
ghost use Rattle.mvt_rings.specs.Nesting.{edges_of as the_edges};
ghost use Rattle.mvt_rings.specs.Clear.{is_clear_of as lies_clear, is_in as lies_in, is_left_of as lies_left, is_right_of as lies_right, spot_of, IsAway, Says};

use crate::boxes::{Bounds, greater, less, overlap};
use crate::nesting::{Edge, last_of};
use crate::placing::{is_just_above, is_level_with};
use crate::rings::differ;
use mvt_geometry::Point;

/// Whether a point lies in a box.
#[inline]
#[tactic(auto, unfolding(crate::specs::Clear::is_in))]
fn is_in(bounds: Bounds, point: Point) -> bool
    ensures { result ≡ lies_in bounds point }
{
    overlap(bounds.left, bounds.right, point.x, point.x)
        && overlap(bounds.top, bounds.bottom, point.y, point.y)
}

/// Whether an edge is more than a unit to the left of a box.
#[inline]
#[tactic(auto, unfolding(crate::specs::Clear::is_left_of))]
fn is_left_of(bounds: Bounds, edge: Edge) -> bool
    ensures { result ≡ lies_left bounds edge }
{
    !is_just_above(bounds.left, greater(edge.from.x, edge.to.x))
}

/// Whether it is so to the right.
#[inline]
#[tactic(auto, unfolding(crate::specs::Clear::is_right_of))]
fn is_right_of(bounds: Bounds, edge: Edge) -> bool
    ensures { result ≡ lies_right bounds edge }
{
    !is_just_above(less(edge.from.x, edge.to.x), bounds.right)
}

/// Whether the ray from a point of a box to greater x crosses an edge that is away from the box; None
/// where the edge may come within a unit.
#[inline]
fn crosses(bounds: Bounds, point: Point, edge: Edge) -> Option<bool>
    ensures clear { IfSome result (λ _. lies_clear bounds edge ≡ true) }
    ensures says { IfSome result (λ crossed. lies_in bounds point ≡ true
        → Says (spot_of point) crossed edge) }
{
    if !is_level_with(bounds, edge) {
        return Some(false);
    }
    if is_left_of(bounds, edge) {
        return Some(false);
    }
    if is_right_of(bounds, edge) {
        return Some(differ(point.y < edge.from.y, point.y < edge.to.y));
    }
    None
}

/// Whether a point of a box lies inside of a ring that is away from the box; None where the ring may
/// come within a unit. All of the box then lies on that side, and a unit around it.
pub(crate) fn side_of(bounds: Bounds, point: Point, ring: &[Point]) -> Option<bool>
    ensures { IfSome result (λ inside. IsAway bounds point inside (the_edges ring.now)) }
{
    let mut odd = false;
    let mut from = last_of(ring);
    for to in ring {
        let Some(crossed) = crosses(bounds, point, Edge { from, to: *to }) else {
            return None;
        };
        odd = differ(odd, crossed);
        from = *to;
    }
    Some(odd)
}

/// Whether all points lie in a box.
pub(crate) fn are_in(bounds: Bounds, points: &[Point]) -> bool
    ensures { result ≡ list_all (lies_in bounds) points.now }
{
    for point in points {
        if !is_in(bounds, *point) {
            return false;
        }
    }
    true
}
