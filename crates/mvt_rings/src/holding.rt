//! Which rings hold a ring.
ghost use Rattle.std.specs.Prelude.{◌≡◌, ◌<◌, IfOk, slice_index};
ghost use Rattle.mvt_rings.specs.Holding.{holder_of as the_holder, holders_of as the_holders, held_after, is_odd_one as is_an_odd_one, no_holder, odd_one_from, with_holder as the_with_holder};

use crate::placing::Place;
use crate::rings::{Ring, may_hold, place};
use mvt_base::Items;
use std::alloc::{AllocError, Global};

/// Two rings that cross by more than rounding explains, by their indices in the feature: the inner
/// one lies partly in the outer.
#[derive(Clone, Copy, Debug, PartialEq, Eq)]
pub struct Crossing {
    /// The larger of the two.
    pub outer: usize,
    /// The smaller.
    pub inner: usize,
}

/// What holds a ring: how many others, the index of the least of these, and twice its area.
#[derive(Clone, Copy, Debug)]
pub(crate) struct Holder {
    pub(crate) count: usize,
    pub(crate) least: usize,
    pub(crate) size: u128,
}

/// What holds each ring, by their indices.
#[derive(Debug, Drop)]
pub(crate) struct Holders {
    pub(crate) counts: Items<usize>,
    pub(crate) leasts: Items<usize>,
}

/// The number at an index; 0 past the end.
#[inline]
pub(crate) fn at(numbers: &[usize], index: usize) -> usize
    ensures { result ≡ slice_index numbers.now index }
{
    if index < numbers.len() {
        numbers[index]
    } else {
        0
    }
}

/// With one more ring that holds it.
fn with_holder(holder: Holder, outer: &Ring) -> Holder
    requires { holder.count < usize.MAX }
    ensures { result ≡ the_with_holder holder outer.now }
{
    let count = holder.count + 1;
    if holder.count == 0 || outer.size <= holder.size {
        return Holder {
            count,
            least: outer.index,
            size: outer.size,
        };
    }
    Holder {
        count,
        least: holder.least,
        size: holder.size,
    }
}

/// What holds a ring; or the first ring that crosses it.
#[tactic(auto, unfolding(crate::specs::Holding::holder_of))]
fn holder_of(
    alloc: Global,
    rings: &[Ring],
    ring: &Ring,
) -> Result<Result<Holder, Crossing>, AllocError>
    ensures { IfOk result (λ r. r ≡ the_holder rings.now ring.now) }
{
    let none = Holder {
        count: 0,
        least: 0,
        size: 0,
    };
    if ring.size == 0 {
        return Ok(Ok(none));
    }
    hold(alloc, none, rings, ring)
}

/// The same of a ring that has area.
fn hold(
    alloc: Global,
    none: Holder,
    rings: &[Ring],
    ring: &Ring,
) -> Result<Result<Holder, Crossing>, AllocError>
    requires { none ≡ no_holder }
    ensures { IfOk result (λ r. r ≡ held_after ring.now none rings.now) }
{
    let mut holder = none;
    for outer in rings {
        if !may_hold(outer, ring) {
            continue;
        }
        match place(alloc, outer, ring)? {
            Place::Held => holder = with_holder(holder, outer),
            Place::Apart => {}
            Place::Unclear => {
                return Ok(Err(Crossing {
                    outer: outer.index,
                    inner: ring.index,
                }));
            }
        }
    }
    Ok(Ok(holder))
}

/// What holds each ring; or the first two that cross.
pub(crate) fn holders_of(
    alloc: Global,
    rings: &[Ring],
) -> Result<Result<Holders, Crossing>, AllocError>
    ensures { IfOk result (λ r. r ≡ the_holders rings.now) }
{
    let mut counts = Vec::with_capacity(alloc, rings.len())?;
    let mut leasts = Vec::with_capacity(alloc, rings.len())?;
    for ring in rings {
        match holder_of(alloc, rings, ring)? {
            Ok(holder) => {
                counts.push(holder.count)?;
                leasts.push(holder.least)?;
            }
            Err(crossing) => return Ok(Err(crossing)),
        }
    }
    Ok(Ok(Holders {
        counts: Items::new(counts),
        leasts: Items::new(leasts),
    }))
}

/// Whether a ring's least holder hasn't just one holder less.
#[tactic(auto, unfolding(crate::specs::Holding::is_odd_one))]
fn is_odd_one(holders: &Holders, ring: usize, count: usize) -> bool
    ensures { result ≡ is_an_odd_one holders.now ring count }
{
    if count == 0 {
        return false;
    }
    let least = at(holders.leasts.as_slice(), ring);
    at(holders.counts.as_slice(), least) != count - 1
}

/// The first ring of which that is so, and its least holder: the rings are no tree.
pub(crate) fn odd_one(holders: &Holders) -> Option<Crossing>
    ensures { result ≡ odd_one_from holders.now 0 holders.now.counts }
{
    for (ring, count) in holders.counts.as_slice().iter().enumerate() {
        if is_odd_one(holders, ring, *count) {
            let outer = at(holders.leasts.as_slice(), ring);
            return Some(Crossing { outer, inner: ring });
        }
    }
    None
}
