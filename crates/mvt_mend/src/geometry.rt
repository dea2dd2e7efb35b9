//! A geometry mended.
ghost use Rattle.std.specs.Prelude.{◌≡◌, ◌+◌, true, false, option_map, IfOk, IfErr, OnOk};
ghost use Rattle.mvt_mend.specs.Geometry.{is_faultless as has_no_fault, if_kept, outcome as the_outcome, outcome_as as the_outcome_as, mended_geometry, geometry_steps};
ghost use Rattle.std.specs.List.{AllByRecursion};
ghost use Rattle.mvt_rings.specs.Mending.{begins_negative};
ghost use Rattle.mvt_rings.specs.Steps.{IsEnded};
ghost use Rattle.mvt_mend.specs.Sound.{DrawsOnly, IsLong};

use crate::drawing::write_parts;
use crate::reading::read_parts;
use mvt_base::Items;
use mvt_geometry::{Kind, Point, judge_geometry};
use mvt_rings::{Crossing, Ended, Kept, MendedRings, is_negative, mend_lines, mend_rings};
use std::alloc::{AllocError, Global};

/// The most steps in which the rings of a tile are told: 2^30, some seconds.
pub const MOST_STEPS: u64 = 1_073_741_824;

/// What comes of the integers of a geometry.
#[derive(Debug, Drop)]
pub(crate) enum Outcome {
    /// They stay: they draw a geometry, or break another rule, or nothing can be drawn anew.
    Stays,
    /// They stay: two of their rings cross.
    Crosses(Crossing),
    /// Others stand in their place, or none at all.
    Becomes(Remade),
}

/// A geometry's lines or rings, those that stay, and the integers that draw these.
#[derive(Debug, Drop)]
pub(crate) struct Remade {
    pub(crate) parts: Items<Items<Point>>,
    pub(crate) kept: Items<Kept>,
    pub(crate) integers: Items<u32>,
}

/// The integers that stand in place of others which break one of two rules (sections 4.3.3.2 and
/// 4.3.4.4): a point of a line or ring equals the one before, or the first ring has negative area.
///
/// None where they stay: they draw a geometry; they break another rule too; rings cross by more
/// than rounding explains; or what they become can't be drawn. No integers where nothing is left of
/// the geometry.
///
/// # Errors
///
/// When memory runs out, or when telling rings takes more than [`MOST_STEPS`].
pub fn mend_geometry(alloc: Global, kind: Kind, integers: &[u32]) -> Result<Option<Vec<u32>>, Ended>
    ensures is { IfOk result (λ r. option_map (λ v. v.items) r
        ≡ mended_geometry kind integers.now) }
    ensures ended { IfErr result (λ e. IsEnded e MOST_STEPS (geometry_steps kind integers.now)) }
{
    let mut left = MOST_STEPS;
    match outcome_of(alloc, kind, integers, &mut left)? {
        Outcome::Stays => Ok(None),
        Outcome::Crosses(_) => Ok(None),
        Outcome::Becomes(remade) => Ok(Some(remade.integers.into_vec())),
    }
}

/// What comes of the integers of a geometry, and what is left of so many steps.
#[tactic(auto, unfolding(crate::specs::Geometry::outcome, crate::specs::Geometry::geometry_steps))]
pub(crate) fn outcome_of(
    alloc: Global,
    kind: Kind,
    integers: &[u32],
    left: &mut u64,
) -> Result<Outcome, Ended>
    ensures is { IfOk result (λ r. r ≡ the_outcome kind integers.now) }
    ensures left { OnOk result (left.new + geometry_steps kind integers.now ≡ left.old) }
    ensures ended { IfErr result (λ e. IsEnded e left.old (geometry_steps kind integers.now)) }
{
    match kind {
        Kind::Unknown | Kind::Point => Ok(Outcome::Stays),
        Kind::LineString => Ok(lines_outcome(alloc, integers)?),
        Kind::Polygon => rings_outcome(alloc, integers, left),
    }
}

/// The same of lines.
#[tactic(auto, unfolding(crate::specs::Geometry::outcome_as))]
fn lines_outcome(alloc: Global, integers: &[u32]) -> Result<Outcome, AllocError>
    ensures { IfOk result (λ r. r ≡ the_outcome_as Kind.LineString false integers.now) }
{
    if is_faultless(Kind::LineString, integers) {
        return Ok(Outcome::Stays);
    }
    let Some(parts) = read_parts(alloc, false, integers)? else {
        return Ok(Outcome::Stays);
    };
    let kept = mend_lines(alloc, parts.as_slice())?;
    drawn(
        alloc,
        Kind::LineString,
        false,
        integers.len(),
        false,
        parts,
        kept,
    )
}

/// The same of rings.
#[tactic(auto, unfolding(crate::specs::Geometry::outcome_as, crate::specs::Geometry::geometry_steps))]
fn rings_outcome(alloc: Global, integers: &[u32], left: &mut u64) -> Result<Outcome, Ended>
    ensures is { IfOk result (λ r. r ≡ the_outcome_as Kind.Polygon true integers.now) }
    ensures left { OnOk result (left.new + geometry_steps Kind.Polygon integers.now ≡ left.old) }
    ensures ended { IfErr result
        (λ e. IsEnded e left.old (geometry_steps Kind.Polygon integers.now)) }
{
    if is_faultless(Kind::Polygon, integers) {
        return Ok(Outcome::Stays);
    }
    let Some(parts) = read_parts(alloc, true, integers)? else {
        return Ok(Outcome::Stays);
    };
    let made = mend_rings(alloc, parts.as_slice(), *left)?;
    let MendedRings { rings, left: rest } = made;
    *left = rest;
    match rings {
        Ok(kept) => {
            let is_known = are_sound(kept.as_slice());
            Ok(drawn(
                alloc,
                Kind::Polygon,
                true,
                integers.len(),
                is_known,
                parts,
                kept,
            )?)
        }
        Err(crossing) => Ok(Outcome::Crosses(crossing)),
    }
}

/// What comes of lines or rings that were so many integers, and of which these stay. Are these known
/// to draw a geometry where they can be drawn, it isn't asked.
fn drawn(
    alloc: Global,
    kind: Kind,
    is_ring: bool,
    count: usize,
    is_known: bool,
    parts: Vec<Items<Point>>,
    kept: Items<Kept>,
) -> Result<Outcome, AllocError>
    requires { is_known ≡ true → DrawsOnly kind is_ring kept }
    ensures { IfOk result (λ r. r ≡ if_kept kind is_ring parts.items (Ok kept)) }
{
    let Some(integers) = write_parts(alloc, is_ring, count, kept.as_slice())? else {
        return Ok(Outcome::Stays);
    };
    if !is_known && !integers.is_empty() && !is_faultless(kind, &integers) {
        return Ok(Outcome::Stays);
    }
    Ok(Outcome::Becomes(Remade {
        parts: Items::new(parts),
        kept,
        integers: Items::new(integers),
    }))
}

/// Whether rings that stay have three points each, and the first no negative area.
fn are_sound(kept: &[Kept]) -> bool
    ensures long { result ≡ true → AllByRecursion IsLong kept.now }
    ensures first { result ≡ true → begins_negative kept.now ≡ false }
{
    if let [first, ..] = kept {
        if is_negative(first.points.as_slice()) {
            return false;
        }
    }
    are_long(kept)
}

/// Whether rings have three points each.
fn are_long(kept: &[Kept]) -> bool
    ensures { result ≡ true → AllByRecursion IsLong kept.now }
{
    for part in kept {
        if part.points.as_slice().len() < 3 {
            return false;
        }
    }
    true
}

/// Whether the integers draw a geometry.
fn is_faultless(kind: Kind, integers: &[u32]) -> bool
    ensures { result ≡ has_no_fault kind integers.now }
{
    match judge_geometry(kind, integers) {
        Ok(()) => true,
        Err(_) => false,
    }
}
