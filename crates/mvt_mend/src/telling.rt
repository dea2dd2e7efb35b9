//! What is changed of a geometry that is mended, or why it isn't.
ghost use Rattle.std.specs.Prelude.{◌≡◌, ◌+◌, ◌++◌, ◌<◌, ◌≤◌, [], option_map, IfOk, IfErr, OnOk};
ghost use Rattle.mvt_mend.specs.Changes.{cause_of as the_cause, changes_of, count_points as the_count, first_cause as the_first_cause, is_turned as became_turned, move_told, repeats_told, told_from, told_of, told_remade, turn_told, with_staying as the_with_staying};
ghost use Rattle.mvt_mend.specs.Geometry.{geometry_steps, mended_geometry, outcome as the_outcome};
ghost use Rattle.mvt_rings.specs.Steps.{IsEnded};

use crate::change::{Change, Unmended};
use crate::fates::{Fate, fate_at, fates_of};
use crate::geometry::{Outcome, Remade, outcome_of};
use mvt_base::Items;
use mvt_geometry::{Kind, Point};
use mvt_rings::{Ended, is_negative, is_positive};
use std::alloc::{AllocError, Global};

/// What is told of a tile so far: what is changed, why something isn't mended, and how many steps
/// are left.
#[derive(Debug, Drop)]
pub(crate) struct Told {
    pub(crate) changes: Vec<Change>,
    pub(crate) cause: Unmended,
    pub(crate) left: u64,
}

/// The integers that stand in place of others, if they don't stay; what is changed of this feature,
/// or why it isn't mended, is told.
pub(crate) fn mend_told(
    alloc: Global,
    layer: usize,
    feature: usize,
    kind: Kind,
    integers: &[u32],
    told: &mut Told,
) -> Result<Option<Vec<u32>>, Ended>
    ensures integers { IfOk result (λ r. option_map (λ v. v.items) r
        ≡ mended_geometry kind integers.now) }
    ensures changes { OnOk result (told.new.changes.items ≡ told.old.changes.items
        ++ changes_of layer feature (the_outcome kind integers.now)) }
    ensures cause { OnOk result (told.new.cause ≡ the_first_cause told.old.cause
        (the_cause layer feature (the_outcome kind integers.now))) }
    ensures left { OnOk result (told.new.left + geometry_steps kind integers.now ≡ told.old.left) }
    ensures ended { IfErr result
        (λ e. IsEnded e told.old.left (geometry_steps kind integers.now)) }
{
    match outcome_of(alloc, kind, integers, &mut told.left)? {
        Outcome::Stays => Ok(None),
        Outcome::Crosses(crossing) => {
            let cause = Unmended::RingsCross(layer, feature, crossing);
            told.cause = first_cause(told.cause, cause);
            Ok(None)
        }
        Outcome::Becomes(remade) => {
            tell_remade(alloc, layer, feature, &remade, &mut told.changes)?;
            Ok(Some(remade.integers.into_vec()))
        }
    }
}

/// Of two causes the first that says more than that another rule is broken.
fn first_cause(cause: Unmended, other: Unmended) -> Unmended
    ensures { result ≡ the_first_cause cause other }
{
    match cause {
        Unmended::AnotherRule => other,
        Unmended::RingsCross(_, _, _) => cause,
        Unmended::TooManySteps => cause,
    }
}

/// Tells what is changed of a geometry.
fn tell_remade(
    alloc: Global,
    layer: usize,
    feature: usize,
    remade: &Remade,
    changes: &mut Vec<Change>,
) -> Result<(), AllocError>
    ensures { OnOk result (changes.new.items
        ≡ changes.old.items ++ told_remade layer feature remade.now) }
{
    let parts = remade.parts.as_slice();
    if remade.integers.as_slice().len() == 0 {
        changes.push(Change::FeatureLeftOut(layer, feature, count_points(parts)))?;
        return Ok(());
    }
    let fates = fates_of(alloc, parts, remade.kept.as_slice())?;
    tell_parts(layer, feature, parts, &fates, changes)
}

/// The points of lines or rings.
fn count_points(parts: &[Items<Point>]) -> usize
    ensures { result ≡ the_count parts.now }
{
    let mut count = 0usize;
    for part in parts {
        count = count.saturating_add(part.as_slice().len());
    }
    count
}

/// Tells what became of lines or rings.
fn tell_parts(
    layer: usize,
    feature: usize,
    parts: &[Items<Point>],
    fates: &[Fate],
    changes: &mut Vec<Change>,
) -> Result<(), AllocError>
    ensures { OnOk result (changes.new.items ≡ changes.old.items
        ++ told_from layer feature fates.now 0 0 parts.now) }
{
    let mut before = 0usize;
    for (index, part) in parts.iter().enumerate() {
        let fate = fate_at(fates, index);
        tell_part(
            layer,
            feature,
            index,
            before,
            part.as_slice(),
            fate,
            changes,
        )?;
        before = with_staying(before, fate);
    }
    Ok(())
}

/// The lines or rings before the next that stay.
fn with_staying(before: usize, fate: Fate) -> usize
    requires { before < usize.MAX }
    ensures is { result ≡ the_with_staying before fate }
    ensures few { result ≤ before + 1 }
{
    if fate.place == 0 { before } else { before + 1 }
}

/// Tells what became of a line or ring, of which so many before it stay.
fn tell_part(
    layer: usize,
    feature: usize,
    index: usize,
    before: usize,
    part: &[Point],
    fate: Fate,
    changes: &mut Vec<Change>,
) -> Result<(), AllocError>
    requires { before < usize.MAX }
    ensures { OnOk result (changes.new.items ≡ changes.old.items
        ++ told_of layer feature index before part.now fate) }
{
    if fate.place == 0 {
        changes.push(Change::PartLeftOut(layer, feature, index, part.len()))?;
        return Ok(());
    }
    tell_repeats(layer, feature, index, part, fate, changes)?;
    tell_turn(layer, feature, index, part, fate, changes)?;
    tell_move(layer, feature, index, before, fate, changes)
}

/// Tells how many points are left out of a line or ring, if there are some.
fn tell_repeats(
    layer: usize,
    feature: usize,
    index: usize,
    part: &[Point],
    fate: Fate,
    changes: &mut Vec<Change>,
) -> Result<(), AllocError>
    ensures { OnOk result (changes.new.items ≡ changes.old.items
        ++ repeats_told layer feature index part.now fate) }
{
    if fate.points < part.len() {
        let count = part.len() - fate.points;
        changes.push(Change::RepeatedPoint(layer, feature, index, count))?;
    }
    Ok(())
}

/// Tells that a ring has the other direction, if it has.
fn tell_turn(
    layer: usize,
    feature: usize,
    index: usize,
    ring: &[Point],
    fate: Fate,
    changes: &mut Vec<Change>,
) -> Result<(), AllocError>
    ensures { OnOk result (changes.new.items ≡ changes.old.items
        ++ turn_told layer feature index ring.now fate) }
{
    if is_turned(ring, fate) {
        changes.push(Change::TurnedRing(layer, feature, index))?;
    }
    Ok(())
}

/// Whether a ring's area has the other sign.
#[tactic(auto, unfolding(crate::specs::Changes::is_turned))]
fn is_turned(ring: &[Point], fate: Fate) -> bool
    ensures { result ≡ became_turned ring.now fate }
{
    (fate.is_negative && is_positive(ring)) || (fate.is_positive && is_negative(ring))
}

/// Tells where a ring stands, if others stand before it than did.
fn tell_move(
    layer: usize,
    feature: usize,
    index: usize,
    before: usize,
    fate: Fate,
    changes: &mut Vec<Change>,
) -> Result<(), AllocError>
    requires before { before < usize.MAX }
    ensures { OnOk result (changes.new.items ≡ changes.old.items
        ++ move_told layer feature index before fate) }
{
    if fate.place != before + 1 {
        let place = fate.place.saturating_sub(1);
        changes.push(Change::MovedRing(layer, feature, index, place))?;
    }
    Ok(())
}
