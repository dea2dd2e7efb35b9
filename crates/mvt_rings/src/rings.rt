//! The rings of a polygon, with what is asked of them more than once.
ghost use Rattle.std.specs.Prelude.{◌≡◌, IfOk, IfSome};
ghost use Rattle.mvt_rings.specs.Rings.{is_larger as has_more, may_hold as could_hold, place as the_place, ring_of as the_ring, rings_from as the_rings, differ as the_differ};

use crate::boxes::{Bounds, bounds_of, meets};
use crate::clear::{are_in, side_of};
use crate::nesting::edges_of;
use crate::placing::{Place, band, length_of, place_in};
use crate::repeats::{opened, without_repeats};
use mvt_base::Items;
use mvt_geometry::{Point, twice_area};
use std::alloc::{AllocError, Global};

/// A line or ring that stays: its index among those of the feature as it stood, and its points.
#[derive(Debug, Drop)]
pub struct Kept {
    /// The index, through all polygons of the feature.
    pub index: usize,
    /// Its points, in the direction that it should have.
    pub points: Items<Point>,
}

/// A ring: its index, its points, twice its area without the sign, and its box.
#[derive(Debug, Drop)]
pub(crate) struct Ring {
    pub(crate) index: usize,
    pub(crate) points: Items<Point>,
    pub(crate) size: u128,
    pub(crate) is_negative: bool,
    pub(crate) is_narrow: bool,
    pub(crate) bounds: Bounds,
}

/// The ring of these points.
#[tactic(auto, unfolding(crate::specs::Placing::is_narrow, crate::specs::Signs::is_negative))]
fn ring_of(index: usize, points: Items<Point>) -> Ring
    ensures { result ≡ the_ring index points }
{
    let ring = points.as_slice();
    let area = twice_area(ring);
    let size = area.unsigned_abs();
    let is_narrow = size <= 2 * length_of(ring);
    let bounds = bounds_of(ring);
    Ring {
        index,
        points,
        size,
        is_negative: area < 0,
        is_narrow,
        bounds,
    }
}

/// All rings, without repeated points and without last points that equal the first.
pub(crate) fn rings_of(alloc: Global, parts: &[Items<Point>]) -> Result<Vec<Ring>, AllocError>
    ensures { IfOk result (λ r. r.items ≡ the_rings 0 parts.now) }
{
    let mut rings = Vec::with_capacity(alloc, parts.len())?;
    for (index, part) in parts.iter().enumerate() {
        let apart = without_repeats(alloc, part.as_slice())?;
        rings.push(ring_of(index, opened(apart.into_vec())))?;
    }
    Ok(rings)
}

/// Whether one ring is larger than another: of equal ones the first.
#[inline]
fn is_larger(outer: &Ring, ring: &Ring) -> bool
    ensures { result ≡ has_more outer.now ring.now }
{
    ring.size < outer.size || (outer.size == ring.size && outer.index < ring.index)
}

/// Whether one ring may hold another: it is larger, and their boxes meet.
#[inline]
#[tactic(auto, unfolding(crate::specs::Rings::may_hold))]
pub(crate) fn may_hold(outer: &Ring, ring: &Ring) -> bool
    ensures { result ≡ could_hold outer.now ring.now }
{
    is_larger(outer, ring) && meets(outer.bounds, ring.bounds)
}

#[inline]
pub(crate) fn differ(a: bool, b: bool) -> bool
    ensures { result ≡ the_differ a b }
{
    if a { !b } else { b }
}

/// Where a ring lies as to one that may hold it.
pub(crate) fn place(alloc: Global, outer: &Ring, ring: &Ring) -> Result<Place, AllocError>
    ensures { IfOk result (λ r. r ≡ the_place outer.now ring.now) }
{
    match place_away(outer, ring) {
        Some(place) => Ok(place),
        None => place_near(alloc, outer, ring),
    }
}

/// Where a ring lies as to one that comes near its box nowhere; None where that may do so.
fn place_away(outer: &Ring, ring: &Ring) -> Option<Place>
    ensures { IfSome result (λ r. r ≡ the_place outer.now ring.now) }
{
    let points = ring.points.as_slice();
    let [first, ..] = points else {
        return None;
    };
    if !are_in(ring.bounds, points) {
        return None;
    }
    match side_of(ring.bounds, *first, outer.points.as_slice()) {
        Some(true) => Some(Place::Held),
        Some(false) => Some(Place::Apart),
        None => None,
    }
}

/// Where a ring lies as to any other one that may hold it.
#[tactic(auto, unfolding(crate::specs::Rings::place))]
fn place_near(alloc: Global, outer: &Ring, ring: &Ring) -> Result<Place, AllocError>
    ensures { IfOk result (λ r. r ≡ the_place outer.now ring.now) }
{
    let edges = edges_of(alloc, ring.points.as_slice())?;
    let level = band(alloc, ring.bounds, outer.points.as_slice())?;
    let against = differ(outer.is_negative, ring.is_negative);
    Ok(place_in(&level, &edges, ring.is_narrow, against))
}
