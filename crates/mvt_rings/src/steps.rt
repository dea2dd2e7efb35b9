//! The steps that telling rings takes, counted before any is done.
ghost use Rattle.std.specs.Prelude.{◌≡◌, ◌+◌, ◌*◌, MatchResult};
ghost use Rattle.mvt_rings.specs.Steps.{IsEnded, count_solid as the_count, pair_steps as the_pair_steps, ring_steps as the_steps, steps_for, steps_over};

use crate::placing::band_len;
use crate::rings::{Ring, may_hold};
use std::alloc::AllocError;
use std::convert::From;

/// Why mending ended: memory ran out, or telling rings takes more steps than were left.
#[derive(Clone, Copy, Debug, PartialEq, Eq)]
pub enum Ended {
    /// Out of memory.
    Memory,
    /// Too many steps.
    Steps,
}

impl From<AllocError> for Ended {
    ghost use Rattle.std.specs.Prelude.{◌≡◌};
    ghost use Rattle.mvt_rings.specs.declared.steps.Ended.TheVariants.{Memory};

    ghost from_gives = { λ _ ended. ended ≡ Memory };

    fn from(_: AllocError) -> Self {
        Ended::Memory
    }
}

/// What is left after so many steps.
#[inline]
fn spend(left: u64, steps: u128) -> Result<u64, Ended>
    ensures { MatchResult result (λ rest. rest + steps ≡ left) (λ e. IsEnded e left steps) }
{
    if u128::from(left) < steps {
        return Err(Ended::Steps);
    }
    Ok(left - steps as u64)
}

#[inline]
fn product(a: usize, b: usize) -> u128
    ensures { result ≡ a * b }
{
    a as u128 * b as u128
}

/// The same after asking whether a ring holds another.
#[tactic(auto, unfolding(crate::specs::Steps::pair_steps))]
fn spend_pair(left: u64, outer: &Ring, ring: &Ring) -> Result<u64, Ended>
    ensures { MatchResult result (λ rest. rest + the_pair_steps outer.now ring.now ≡ left)
        (λ e. IsEnded e left (the_pair_steps outer.now ring.now)) }
{
    if !may_hold(outer, ring) {
        return Ok(left);
    }
    let edges = outer.points.as_slice();
    let left = spend(left, edges.len() as u128)?;
    let each = product(ring.points.as_slice().len(), band_len(ring.bounds, edges));
    if u128::from(left) < each {
        return Err(Ended::Steps);
    }
    spend(left, 18 * each)
}

/// The same after asking which rings hold another.
fn spend_for(left: u64, ring: &Ring, rings: &[Ring]) -> Result<u64, Ended>
    ensures { MatchResult result (λ rest. rest + steps_for ring.now rings.now ≡ left)
        (λ e. IsEnded e left (steps_for ring.now rings.now)) }
{
    let mut rest = left;
    for outer in rings {
        rest = spend_pair(rest, outer, ring)?;
    }
    Ok(rest)
}

/// The same after asking this of each of some rings that has area.
fn spend_over(left: u64, all: &[Ring], rings: &[Ring]) -> Result<u64, Ended>
    ensures { MatchResult result (λ rest. rest + steps_over all.now rings.now ≡ left)
        (λ e. IsEnded e left (steps_over all.now rings.now)) }
{
    let mut rest = left;
    for ring in rings {
        if ring.size != 0 {
            rest = spend_for(rest, ring, all)?;
        }
    }
    Ok(rest)
}

/// How many rings have area.
fn count_solid(rings: &[Ring]) -> usize
    ensures { result ≡ the_count rings.now }
{
    let mut count = 0usize;
    for ring in rings {
        if ring.size != 0 {
            count += 1;
        }
    }
    count
}

/// What is left after telling all rings.
#[tactic(auto, unfolding(crate::specs::Steps::ring_steps))]
pub(crate) fn spend_all(left: u64, rings: &[Ring]) -> Result<u64, Ended>
    ensures { MatchResult result (λ rest. rest + the_steps rings.now ≡ left)
        (λ e. IsEnded e left (the_steps rings.now)) }
{
    let solid = count_solid(rings);
    let left = spend(left, product(solid, solid))?;
    spend_over(left, rings, rings)
}
