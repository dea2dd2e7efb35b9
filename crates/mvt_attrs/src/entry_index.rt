//! How the place of an entry is found in a pool.
ghost use Rattle.std.specs.Prelude.{◌≡◌, ◌<◌, ◌+◌, ◌^◌, ◌++◌, ◌∷◌, [], ℕ, length, take, Contains, IfOk, OnOk, OnErr};
ghost use Rattle.mvt_attrs.specs.FirstUse.{AreDistinct};
ghost use Rattle.mvt_attrs.specs.Inner.Found.{IsPlaceOf, IsLookupOf};
ghost use Rattle.mvt_attrs.specs.Inner.Finding.{Knows, IsRoomFor};

use crate::entry::Entry;
use crate::lookup::Lookup;
use crate::two_choices::{
    TwoChoices, add_two_choices, find_two_choices, record_two_choices, two_choices_all,
};
use indexmap::IndexSet;
use std::alloc::{AllocError, Global};

/// The most entries that are searched one by one.
pub(crate) const MOST_PLAIN: usize = 32;

/// With fewer slots for an entry than these, slots are made anew.
pub(crate) const LEAST_SLOTS_PER_ENTRY: usize = 4;

/// Where the entries of a pool stand.
#[derive(Drop)]
pub enum EntryIndex<T: Entry> {
    /// Few entries are searched one by one.
    Plain,
    Hashed(IndexSet<T>),
    TwoChoices(TwoChoices<T>),
}

/// Where an entry stands, or can be noted.
pub(crate) fn find<T: Entry>(entry_index: &EntryIndex<T>, entries: &[T], entry: &T) -> Lookup
    requires { Knows T.cmp T.hash_input entry_index.now entries.now }
    ensures { IsLookupOf entries.now entry.now
        (IsRoomFor T.hash_input entry_index.now entry.now) result }
{
    let place = match entry_index {
        EntryIndex::Plain => search(entries, entry),
        EntryIndex::Hashed(places) => look_up(places, entry),
        EntryIndex::TwoChoices(two_choices) => return find_two_choices(two_choices, entries, entry),
    };
    match place {
        Some(place) => Lookup::Found(place),
        None => Lookup::New { slot: None },
    }
}

pub(crate) fn search<T: Entry>(entries: &[T], entry: &T) -> Option<usize>
    ensures { IsPlaceOf entries.now entry.now result }
{
    for index in 0..entries.len() {
        if entries[index].is(entry) {
            return Some(index);
        }
    }
    None
}

#[inline(never)]
fn look_up<T: Entry>(places: &IndexSet<T>, entry: &T) -> Option<usize>
    ensures { IsPlaceOf places.now.keys entry.now result }
{
    places.get_index_of(entry)
}

/// Notes that an entry will stand after these.
pub(crate) fn record<T: Entry>(
    alloc: Global,
    entry_index: &mut EntryIndex<T>,
    entries: &[T],
    entry: &T,
    slot: Option<usize>,
) -> Result<(), AllocError>
    requires known { Knows T.cmp T.hash_input entry_index.old entries.now }
    requires distinct { AreDistinct entries.now }
    requires new { ¬ (Contains entries.now entry.now) }
    requires room { IsRoomFor T.hash_input entry_index.old entry.now slot }
    requires few { length entries.now + 1 < 2 ^ 32 }
    ensures added { OnOk result (Knows T.cmp T.hash_input entry_index.new
        (entries.now ++ entry.now ∷ [])) }
    ensures unchanged { OnErr result (Knows T.cmp T.hash_input entry_index.new entries.now) }
{
    if is_outgrown(entry_index, entries.len()) {
        return outgrow(alloc, entry_index, entries, entry);
    }
    match entry_index {
        EntryIndex::Plain => Ok(()),
        EntryIndex::Hashed(places) => add_hashed(places, entry.copied(alloc)?),
        EntryIndex::TwoChoices(two_choices) => record_two_choices(
            alloc,
            two_choices,
            entries,
            entry,
            slot,
        ),
    }
}

/// Whether `count` entries are too many for this form.
fn is_outgrown<T: Entry>(entry_index: &EntryIndex<T>, count: usize) -> bool {
    match entry_index {
        EntryIndex::Plain => count >= MOST_PLAIN,
        EntryIndex::Hashed(_) => count >= T::most_hashed(),
        EntryIndex::TwoChoices(two_choices) => count
            >= two_choices.slots.len() / LEAST_SLOTS_PER_ENTRY,
    }
}

/// Takes the form for these entries and a new one after them.
#[inline(never)]
fn outgrow<T: Entry>(
    alloc: Global,
    entry_index: &mut EntryIndex<T>,
    entries: &[T],
    entry: &T,
) -> Result<(), AllocError>
    requires distinct { AreDistinct entries.now }
    requires new { ¬ (Contains entries.now entry.now) }
    requires few { length entries.now + 1 < 2 ^ 32 }
    ensures added { OnOk result (Knows T.cmp T.hash_input entry_index.new
        (entries.now ++ entry.now ∷ [])) }
    ensures unchanged { OnErr result (entry_index.new ≡ entry_index.old) }
{
    *entry_index = grown(alloc, entries, entry)?;
    Ok(())
}

/// The form for these entries and a new one after them.
fn grown<T: Entry>(alloc: Global, entries: &[T], entry: &T) -> Result<EntryIndex<T>, AllocError>
    requires distinct { AreDistinct entries.now }
    requires new { ¬ (Contains entries.now entry.now) }
    requires few { length entries.now + 1 < 2 ^ 32 }
    ensures { IfOk result (λ entry_index. Knows T.cmp T.hash_input entry_index
        (entries.now ++ entry.now ∷ [])) }
{
    if entries.len() < T::most_hashed() {
        let mut places = hashed(alloc, entries)?;
        add_hashed(&mut places, entry.copied(alloc)?)?;
        return Ok(EntryIndex::Hashed(places));
    }
    let mut two_choices = two_choices_all(alloc, entries)?;
    add_two_choices(alloc, &mut two_choices, entries, entry)?;
    Ok(EntryIndex::TwoChoices(two_choices))
}

/// These entries, and room for as many as are hashed.
fn hashed<T: Entry>(alloc: Global, entries: &[T]) -> Result<IndexSet<T>, AllocError>
    requires { AreDistinct entries.now }
    ensures { IfOk result (λ places. places.keys ≡ entries.now) }
{
    let mut places = IndexSet::with_capacity(alloc, T::most_hashed())?;
    add_all(alloc, &mut places, entries)?;
    Ok(places)
}

fn add_all<T: Entry>(
    alloc: Global,
    places: &mut IndexSet<T>,
    entries: &[T],
) -> Result<(), AllocError>
    requires empty { places.old.keys ≡ [] }
    requires distinct { AreDistinct entries.now }
    ensures { OnOk result (places.new.keys ≡ entries.now) }
{
    for entry in entries {
        add_hashed(places, entry.copied(alloc)?)?;
    }
    Ok(())
}

fn add_hashed<T: Entry>(places: &mut IndexSet<T>, entry: T) -> Result<(), AllocError>
    requires { ¬ (Contains places.old.keys entry) }
    ensures added { OnOk result (places.new.keys ≡ places.old.keys ++ entry ∷ []) }
    ensures unchanged { OnErr result (places.new.keys ≡ places.old.keys) }
{
    places.insert(entry)?;
    Ok(())
}
