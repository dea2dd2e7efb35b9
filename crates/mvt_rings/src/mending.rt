//! Lines and rings mended (sections 4.3.3.2 and 4.3.4.4).
ghost use Rattle.std.specs.Prelude.{◌≡◌, ◌+◌, IfOk, IfErr};
ghost use Rattle.mvt_rings.specs.Mending.{begins_negative, kept_from as the_kept, mended_lines, mended_rings, mending_steps};
ghost use Rattle.mvt_rings.specs.Steps.{IsEnded};

use crate::holding::Crossing;
use crate::homes::told;
use crate::repeats::{is_long, without_repeats};
use crate::rings::{Kept, rings_of};
use crate::signs::is_negative;
use crate::steps::{Ended, spend_all};
use mvt_base::Items;
use mvt_geometry::Point;
use std::alloc::{AllocError, Global};

/// Lines without repeated points, and without those that have fewer than two points then (4.3.3.2,
/// 4.3.4.3).
///
/// # Errors
///
/// When memory runs out.
#[tactic(auto, unfolding(crate::specs::Mending::mended_lines))]
pub fn mend_lines(alloc: Global, lines: &[Items<Point>]) -> Result<Items<Kept>, AllocError>
    ensures { IfOk result (λ r. r ≡ mended_lines lines.now) }
{
    Ok(Items::new(keep_long(alloc, lines, 2)?))
}

/// Rings that are mended, or two that cross, and the steps that are left.
#[derive(Debug, Drop)]
pub struct MendedRings {
    /// The rings, in the order in which they stand then.
    pub rings: Result<Items<Kept>, Crossing>,
    /// The steps that are left.
    pub left: u64,
}

/// Rings without repeated points, and without those that have fewer than three points then
/// (4.3.3.2, 4.3.4.4).
///
/// Where the first has negative area then, all are told by what holds them, whatever their
/// directions: a ring that an even number of the others hold is exterior, any other one interior,
/// and stands behind the least ring that holds it. One ring holds a smaller one if all points of
/// that and all middles of its edges lie in it, but for a unit, by which rounding moves points. No
/// last point equals the first then. Two rings that cross by more are told as such.
///
/// # Errors
///
/// When memory runs out, or when telling takes more steps than are given: one for each two rings
/// with area, and where their boxes meet one for each edge of the larger, and 18 for each point of
/// the smaller and each of these edges that is level with its box.
#[tactic(auto, unfolding(crate::specs::Mending::mended_rings, crate::specs::Mending::mending_steps))]
pub fn mend_rings(alloc: Global, rings: &[Items<Point>], left: u64) -> Result<MendedRings, Ended>
    ensures rings { IfOk result (λ r. r.rings ≡ mended_rings rings.now) }
    ensures left { IfOk result (λ r. r.left + mending_steps rings.now ≡ left) }
    ensures ended { IfErr result (λ e. IsEnded e left (mending_steps rings.now)) }
{
    if !begin_negative(rings) {
        let kept = keep_long(alloc, rings, 3)?;
        return Ok(MendedRings {
            rings: Ok(Items::new(kept)),
            left,
        });
    }
    let rings = rings_of(alloc, rings)?;
    let left = spend_all(left, &rings)?;
    let rings = told(alloc, &rings)?;
    Ok(MendedRings { rings, left })
}

/// The parts that have so many points at least without the repeated ones.
fn keep_long(alloc: Global, parts: &[Items<Point>], least: usize) -> Result<Vec<Kept>, AllocError>
    ensures { IfOk result (λ r. r.items ≡ the_kept least 0 parts.now) }
{
    let mut kept = Vec::with_capacity(alloc, parts.len())?;
    for (index, part) in parts.iter().enumerate() {
        let points = without_repeats(alloc, part.as_slice())?;
        if points.as_slice().len() >= least {
            kept.push(Kept { index, points })?;
        }
    }
    Ok(kept)
}

/// Whether the first ring that stays has negative area.
fn begin_negative(rings: &[Items<Point>]) -> bool
    ensures { result ≡ begins_negative (the_kept 3 0 rings.now) }
{
    for ring in rings {
        let points = ring.as_slice();
        if is_long(3, points) {
            return is_negative(points);
        }
    }
    false
}
