//! What became of the lines or rings of a geometry.
ghost use Rattle.std.specs.Prelude.{◌≡◌, IfOk};
ghost use Rattle.mvt_mend.specs.Changes.{all_gone as are_all_gone, fate_at as the_fate_at, fate_of as the_fate, fates_of as the_fates, gone as is_gone};

use mvt_base::Items;
use mvt_geometry::{Point, twice_area};
use mvt_rings::Kept;
use std::alloc::{AllocError, Global};

/// What became of a line or ring: its place among those that stay, counted from 1, or 0 where it is
/// left out; how many points it has there, and the sign of its area.
#[derive(Clone, Copy, Debug)]
pub(crate) struct Fate {
    pub(crate) place: usize,
    pub(crate) points: usize,
    pub(crate) is_positive: bool,
    pub(crate) is_negative: bool,
}

/// What became of each line or ring of which these stay.
pub(crate) fn fates_of(
    alloc: Global,
    parts: &[Items<Point>],
    kept: &[Kept],
) -> Result<Vec<Fate>, AllocError>
    ensures { IfOk result (λ r. r.items ≡ the_fates parts.now kept.now) }
{
    let mut fates = all_gone(alloc, parts)?;
    for (place, part) in kept.iter().enumerate() {
        if part.index < fates.len() {
            fates[part.index] = fate_of(place + 1, part);
        }
    }
    Ok(fates)
}

/// What became of the line or ring of this index.
pub(crate) fn fate_at(fates: &[Fate], index: usize) -> Fate
    ensures { result ≡ the_fate_at fates.now index }
{
    if index < fates.len() {
        fates[index]
    } else {
        gone()
    }
}

/// What became of a line or ring that is left out.
fn gone() -> Fate
    ensures { result ≡ is_gone }
{
    Fate {
        place: 0,
        points: 0,
        is_positive: false,
        is_negative: false,
    }
}

fn all_gone(alloc: Global, parts: &[Items<Point>]) -> Result<Vec<Fate>, AllocError>
    ensures { IfOk result (λ r. r.items ≡ are_all_gone parts.now) }
{
    let mut fates = Vec::with_capacity(alloc, parts.len())?;
    for _part in parts {
        fates.push(gone())?;
    }
    Ok(fates)
}

#[tactic(auto, unfolding(mvt_rings::specs::Signs::is_positive, mvt_rings::specs::Signs::is_negative))]
fn fate_of(place: usize, part: &Kept) -> Fate
    ensures { result ≡ the_fate place part.now }
{
    let points = part.points.as_slice();
    let area = twice_area(points);
    Fate {
        place,
        points: points.len(),
        is_positive: area > 0,
        is_negative: area < 0,
    }
}
