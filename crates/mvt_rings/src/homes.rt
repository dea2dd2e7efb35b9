//! Rings told by what holds them: even-odd (section 4.3.4.4).
ghost use Rattle.std.specs.Prelude.{◌≡◌, ◌++◌, [], IfOk, OnOk, map};
ghost use Rattle.std.specs.List.{flat_map};
ghost use Rattle.mvt_rings.specs.Homes.{begun as the_begun, begun_after, exterior as the_exterior, home_of as the_home, homes_after, interior as the_interior, join as the_join, joined, told as the_told, told_by as the_told_by, has_ring};
ghost use Rattle.std.specs.List.{filter};

use crate::holding::{Crossing, Holders, at, holders_of, odd_one};
use crate::rings::{Kept, Ring};
use crate::turning::{as_exterior, as_interior};
use mvt_base::Items;
use std::alloc::{AllocError, Global};

/// The index of the exterior ring of a ring's polygon; a ring without area stays with the one
/// before it.
#[tactic(auto, unfolding(crate::specs::Homes::home_of))]
fn home_of(holders: &Holders, before: usize, ring: &Ring) -> usize
    ensures { result ≡ the_home holders.now before ring.now }
{
    if ring.size == 0 {
        return before;
    }
    if at(holders.counts.as_slice(), ring.index) % 2 == 0 {
        return ring.index;
    }
    at(holders.leasts.as_slice(), ring.index)
}

/// Those of all rings.
fn homes_of(alloc: Global, holders: &Holders, rings: &[Ring]) -> Result<Vec<usize>, AllocError>
    ensures { IfOk result (λ r. r.items ≡ homes_after holders.now [] 0 rings.now) }
{
    let mut homes = Vec::with_capacity(alloc, rings.len())?;
    let mut before = 0usize;
    for ring in rings {
        let home = home_of(holders, before, ring);
        homes.push(home)?;
        before = home;
    }
    Ok(homes)
}

fn exterior(alloc: Global, ring: &Ring) -> Result<Kept, AllocError>
    ensures { IfOk result (λ r. r ≡ the_exterior ring.now) }
{
    let points = as_exterior(alloc, ring.points.as_slice())?;
    Ok(Kept {
        index: ring.index,
        points,
    })
}

fn interior(alloc: Global, ring: &Ring) -> Result<Kept, AllocError>
    ensures { IfOk result (λ r. r ≡ the_interior ring.now) }
{
    let points = as_interior(alloc, ring.points.as_slice())?;
    Ok(Kept {
        index: ring.index,
        points,
    })
}

/// A ring's polygon, as far as it begins one.
fn begun(alloc: Global, homes: &[usize], ring: &Ring) -> Result<Vec<Kept>, AllocError>
    ensures { IfOk result (λ r. r.items ≡ the_begun homes.now ring.now) }
{
    let mut rings = Vec::new(alloc);
    if at(homes, ring.index) == ring.index {
        rings.push(exterior(alloc, ring)?)?;
    }
    Ok(rings)
}

/// The polygons that rings begin; those that begin none have an empty one.
fn begin_polygons(
    alloc: Global,
    homes: &[usize],
    rings: &[Ring],
) -> Result<Vec<Vec<Kept>>, AllocError>
    ensures { IfOk result (λ r. map (λ v. v.items) r.items ≡ begun_after homes.now [] rings.now) }
{
    let mut polygons = Vec::with_capacity(alloc, rings.len())?;
    for ring in rings {
        polygons.push(begun(alloc, homes, ring)?)?;
    }
    Ok(polygons)
}

/// Puts a ring at the end of the polygon of this index.
fn join(polygons: &mut Vec<Vec<Kept>>, index: usize, ring: Kept) -> Result<(), AllocError>
    ensures { OnOk result (map (λ v. v.items) polygons.new.items
        ≡ the_join index ring (map (λ v. v.items) polygons.old.items)) }
{
    if index < polygons.len() {
        polygons[index].push(ring)?;
    }
    Ok(())
}

/// Puts each ring that begins no polygon at the end of its home's.
fn join_others(
    alloc: Global,
    homes: &[usize],
    polygons: &mut Vec<Vec<Kept>>,
    rings: &[Ring],
) -> Result<(), AllocError>
    ensures { OnOk result (map (λ v. v.items) polygons.new.items
        ≡ joined homes.now (map (λ v. v.items) polygons.old.items) rings.now) }
{
    for ring in rings {
        let home = at(homes, ring.index);
        if home != ring.index {
            let ring = interior(alloc, ring)?;
            join(polygons, home, ring)?;
        }
    }
    Ok(())
}

/// All rings of polygons, without those that have too few points.
fn listed(alloc: Global, polygons: Vec<Vec<Kept>>) -> Result<Vec<Kept>, AllocError>
    ensures { IfOk result (λ r. r.items
        ≡ flat_map (λ p. filter has_ring p) (map (λ v. v.items) polygons.items)) }
{
    let mut kept = Vec::new(alloc);
    for polygon in polygons {
        list_polygon(&mut kept, polygon)?;
    }
    Ok(kept)
}

/// Appends the rings of a polygon, without those that have too few points.
fn list_polygon(kept: &mut Vec<Kept>, polygon: Vec<Kept>) -> Result<(), AllocError>
    ensures { OnOk result (kept.new.items ≡ kept.old.items ++ filter has_ring polygon.items) }
{
    for ring in polygon {
        if ring.points.as_slice().len() >= 3 {
            kept.push(ring)?;
        }
    }
    Ok(())
}

/// Polygon by polygon, without rings that have too few points.
#[tactic(auto, unfolding(crate::specs::Homes::told_by))]
fn told_by(alloc: Global, homes: &[usize], rings: &[Ring]) -> Result<Vec<Kept>, AllocError>
    ensures { IfOk result (λ r. r.items ≡ the_told_by homes.now rings.now) }
{
    let mut polygons = begin_polygons(alloc, homes, rings)?;
    join_others(alloc, homes, &mut polygons, rings)?;
    listed(alloc, polygons)
}

/// Rings each in the direction that it should have, exteriors in their order and each behind its
/// own; or the first two that cross.
#[tactic(auto, unfolding(crate::specs::Homes::told))]
pub(crate) fn told(
    alloc: Global,
    rings: &[Ring],
) -> Result<Result<Items<Kept>, Crossing>, AllocError>
    ensures { IfOk result (λ r. r ≡ the_told rings.now) }
{
    let holders = match holders_of(alloc, rings)? {
        Ok(holders) => holders,
        Err(crossing) => return Ok(Err(crossing)),
    };
    if let Some(crossing) = odd_one(&holders) {
        return Ok(Err(crossing));
    }
    let homes = homes_of(alloc, &holders, rings)?;
    let kept = told_by(alloc, &homes, rings)?;
    Ok(Ok(Items::new(kept)))
}
