//! Places of many entries, found by their hashes. Texts can be chosen that have one hash, so an
//! entry has a second slot by another hash, and an entry that finds both taken is kept in order.
ghost use Rattle.std.specs.Prelude.{◌≡◌, ◌≢◌, ◌<◌, ◌↔◌, ◌+◌, ◌-◌, ◌^◌, ◌++◌, ◌∷◌, [], Some, None, length, slice_get, slice_index, Contains, IsTrue, IfOk, OnOk, OnErr};
ghost use Rattle.mvt_attrs.specs.FirstUse.{AreDistinct};
ghost use Rattle.mvt_attrs.specs.Inner.Found.{IsLookupOf, IsReportedBy};
ghost use Rattle.mvt_attrs.specs.Inner.Choosing.{first_slot, slot_by, IsTwoChoices, IsFreeFor};

use crate::entry::Entry;
use crate::lookup::Lookup;
use std::alloc::{AllocError, Global};
use std::collections::BTreeMap;
use std::hash::{DefaultHasher, FoldHasher, Hash, Hasher};

/// How many slots are made for an entry.
const SLOTS_PER_ENTRY: usize = 16;

/// A slot holds the place of an entry, counted from 1, or 0 if it is free. An entry is in the first
/// of its two slots that was free when it came, or in `overflow`.
#[derive(Drop)]
pub struct TwoChoices<T: Entry> {
    pub(crate) slots: Vec<u32>,
    pub(crate) overflow: BTreeMap<T, u32>,
}

/// Where an entry stands, or the slot that it can take. Its first slot is by a cheap hash.
#[inline(always)]
pub(crate) fn find_two_choices<T: Entry>(
    two_choices: &TwoChoices<T>,
    entries: &[T],
    entry: &T,
) -> Lookup
    requires { IsTwoChoices T.cmp T.hash_input two_choices.now entries.now }
    ensures { IsLookupOf entries.now entry.now
        (IsFreeFor T.hash_input two_choices.now entry.now) result }
{
    let slots = two_choices.slots.as_slice();
    let mut state = FoldHasher::default();
    let first = slot_of(entry, &mut state, slots.len());
    match reported_by(slots, first, entries, entry) {
        Some(lookup) => lookup,
        None => find_second(two_choices, entries, entry),
    }
}

/// The same for an entry whose first slot is another's: its second is by a hash that costs more.
#[inline(never)]
fn find_second<T: Entry>(two_choices: &TwoChoices<T>, entries: &[T], entry: &T) -> Lookup
    requires known { IsTwoChoices T.cmp T.hash_input two_choices.now entries.now }
    requires first { IsReportedBy two_choices.now.slots.items
        (first_slot T.hash_input (length two_choices.now.slots.items) entry.now)
        entries.now entry.now None }
    ensures { IsLookupOf entries.now entry.now
        (IsFreeFor T.hash_input two_choices.now entry.now) result }
{
    let slots = two_choices.slots.as_slice();
    let mut state = DefaultHasher::new();
    let second = slot_of(entry, &mut state, slots.len());
    if let Some(lookup) = reported_by(slots, second, entries, entry) {
        return lookup;
    }
    match two_choices.overflow.get(entry) {
        Some(place) => Lookup::Found(*place as usize),
        None => Lookup::New { slot: None },
    }
}

/// What a slot tells of an entry; nothing if it is another's.
#[inline(always)]
fn reported_by<T: Entry>(slots: &[u32], slot: usize, entries: &[T], entry: &T) -> Option<Lookup>
    requires { slot < length slots.now }
    ensures { IsReportedBy slots.now slot entries.now entry.now result }
{
    let mark = slots[slot] as usize;
    if mark == 0 {
        return Some(Lookup::New { slot: Some(slot) });
    }
    if is_at(entries, mark - 1, entry) {
        return Some(Lookup::Found(mark - 1));
    }
    None
}

/// Whether an entry stands at an index.
pub(crate) fn is_at<T: Entry>(entries: &[T], index: usize, entry: &T) -> bool
    ensures { IsTrue result ↔ (slice_get entries.now index ≡ Some entry.now) }
{
    match entries.get(index) {
        Some(there) => there.is(entry),
        None => false,
    }
}

/// So many free slots or a few more.
pub(crate) fn free_slots<T: Entry>(alloc: Global, least: usize) -> Result<TwoChoices<T>, AllocError>
    requires { least < 2 ^ 40 }
    ensures { IfOk result (λ two_choices. IsTwoChoices T.cmp T.hash_input two_choices []) }
{
    let room = least.next_power_of_two();
    Ok(TwoChoices {
        slots: vec![in alloc; 0; room]?,
        overflow: BTreeMap::new(alloc),
    })
}

/// Slots for these entries.
pub(crate) fn two_choices_all<T: Entry>(
    alloc: Global,
    entries: &[T],
) -> Result<TwoChoices<T>, AllocError>
    requires distinct { AreDistinct entries.now }
    requires few { length entries.now + 1 < 2 ^ 32 }
    ensures { IfOk result (λ two_choices. IsTwoChoices T.cmp T.hash_input two_choices entries.now) }
{
    let mut two_choices = free_slots(alloc, entries.len() * SLOTS_PER_ENTRY)?;
    for index in 0..entries.len() {
        add_two_choices(alloc, &mut two_choices, &entries[..index], &entries[index])?;
    }
    Ok(two_choices)
}

/// Finds a slot for a new entry that will stand after these, and notes it.
pub(crate) fn add_two_choices<T: Entry>(
    alloc: Global,
    two_choices: &mut TwoChoices<T>,
    entries: &[T],
    entry: &T,
) -> Result<(), AllocError>
    requires known { IsTwoChoices T.cmp T.hash_input two_choices.old entries.now }
    requires new { ¬ (Contains entries.now entry.now) }
    requires few { length entries.now + 1 < 2 ^ 32 }
    ensures added { OnOk result (IsTwoChoices T.cmp T.hash_input two_choices.new
        (entries.now ++ entry.now ∷ [])) }
    ensures unchanged { OnErr result (IsTwoChoices T.cmp T.hash_input two_choices.new entries.now) }
{
    match find_two_choices(two_choices, entries, entry) {
        Lookup::Found(_) => Ok(()),
        Lookup::New { slot } => record_two_choices(alloc, two_choices, entries, entry, slot),
    }
}

/// Notes a new entry that will stand after these in its free slot, or in order.
#[inline(always)]
pub(crate) fn record_two_choices<T: Entry>(
    alloc: Global,
    two_choices: &mut TwoChoices<T>,
    entries: &[T],
    entry: &T,
    slot: Option<usize>,
) -> Result<(), AllocError>
    requires known { IsTwoChoices T.cmp T.hash_input two_choices.old entries.now }
    requires new { ¬ (Contains entries.now entry.now) }
    requires free { IsFreeFor T.hash_input two_choices.old entry.now slot }
    requires few { length entries.now + 1 < 2 ^ 32 }
    ensures added { OnOk result (IsTwoChoices T.cmp T.hash_input two_choices.new
        (entries.now ++ entry.now ∷ [])) }
    ensures unchanged { OnErr result (IsTwoChoices T.cmp T.hash_input two_choices.new entries.now) }
{
    let Some(slot) = slot else {
        return record_in_order(alloc, two_choices, entries, entry);
    };
    two_choices.slots[slot] = entries.len() as u32 + 1;
    Ok(())
}

/// The same for an entry whose slots are both taken.
#[inline(never)]
fn record_in_order<T: Entry>(
    alloc: Global,
    two_choices: &mut TwoChoices<T>,
    entries: &[T],
    entry: &T,
) -> Result<(), AllocError>
    requires known { IsTwoChoices T.cmp T.hash_input two_choices.old entries.now }
    requires new { ¬ (Contains entries.now entry.now) }
    requires taken { IsFreeFor T.hash_input two_choices.old entry.now None }
    requires few { length entries.now + 1 < 2 ^ 32 }
    ensures added { OnOk result (IsTwoChoices T.cmp T.hash_input two_choices.new
        (entries.now ++ entry.now ∷ [])) }
    ensures unchanged { OnErr result (IsTwoChoices T.cmp T.hash_input two_choices.new entries.now) }
{
    two_choices
        .overflow
        .insert(entry.copied(alloc)?, entries.len() as u32)?;
    Ok(())
}

/// The slot that the hash of an entry names. The room is a power of two, so that all its slots are
/// named.
fn slot_of<T: Entry, H: Hasher>(entry: &T, state: &mut H, room: usize) -> usize
    requires { 0 < room }
    ensures value { result ≡ slot_by H.write H.finish state.old T.hash_input room entry.now }
    ensures within { result < room }
{
    entry.hash(state);
    state.finish() as usize & (room - 1)
}
