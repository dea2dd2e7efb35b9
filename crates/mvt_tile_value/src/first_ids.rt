//! The first feature of each id of a layer.
ghost use Rattle.std.specs.Prelude.{◌≡◌, ◌<◌, ◌↔◌, ℕ, ◌==◌, Option, Some, None, length, slice_index_or, IfOk, IfSome, IsTrue, OnOk, if◌then◌else◌};
ghost use Rattle.std.specs.Option.{option_or};
ghost use Rattle.mvt_tile_value.specs.FirstIds.{found_in, AreRising, IsAboveAll, AreFirst};

use std::alloc::{AllocError, Global};
use std::collections::BTreeMap;

/// The first feature of each id. Ids that rise, as those of most layers do, stand in a list: it
/// takes half the memory of a map, and less time.
#[derive(Drop)]
pub(crate) struct FirstIds {
    /// Each id above all before it, with its feature.
    rising: Vec<(u64, usize)>,
    /// The ids that were not.
    others: BTreeMap<u64, usize>,
}

impl FirstIds {
    /// For no features yet. Takes no memory.
    pub(crate) fn new(alloc: Global) -> Self
        ensures { AreFirst result (λ _. None) }
    {
        FirstIds {
            rising: Vec::new(alloc),
            others: BTreeMap::new(alloc),
        }
    }

    /// The first feature so far with an id. If there is none, this one becomes it.
    pub(crate) fn take(&mut self, id: u64, feature: usize) -> Result<Option<usize>, AllocError>
        ensures earlier { (first : ℕ → Option ℕ) → AreFirst self.old first
            → IfOk result (λ earlier. earlier ≡ first id) }
        ensures first { (first : ℕ → Option ℕ) → AreFirst self.old first
            → OnOk result (AreFirst self.new
            (λ q. option_or (first q) (if q == id then Some feature else None))) }
    {
        if is_above_all(id, &self.rising) {
            self.rising.push((id, feature))?;
            return Ok(None);
        }
        let earlier = self.feature_of(id);
        if earlier.is_none() {
            self.others.insert(id, feature)?;
        }
        Ok(earlier)
    }

    fn feature_of(&self, id: u64) -> Option<usize>
        ensures { (first : ℕ → Option ℕ) → AreFirst self.now first → result ≡ first id }
    {
        match place_of(id, &self.rising) {
            Some(place) => Some(self.rising[place].1),
            None => self.others.get(&id).copied(),
        }
    }
}

/// Whether an id is above all of a list that rises.
fn is_above_all(id: u64, rising: &[(u64, usize)]) -> bool
    ensures { AreRising rising.now → (IsTrue result ↔ IsAboveAll id rising.now) }
{
    match rising.last() {
        Some(&(last, _)) => last < id,
        None => true,
    }
}

/// Where an id stands in a list that rises.
fn place_of(id: u64, rising: &[(u64, usize)]) -> Option<usize>
    ensures within { IfSome result (λ place. place < length rising.now) }
    ensures at { AreRising rising.now → IfSome result (λ place. found_in rising.now id
        ≡ Some (slice_index_or rising.now place (0, 0)).1) }
    ensures none { AreRising rising.now → result ≡ None → found_in rising.now id ≡ None }
{
    rising.binary_search_by_key(&id, |&(k, _)| k).ok()
}
