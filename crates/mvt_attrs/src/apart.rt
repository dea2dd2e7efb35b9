//! Entries that are all different, and where each of them is found.
ghost use Rattle.std.specs.Prelude.{◌≡◌, ◌<◌, ◌+◌, ◌^◌, ◌++◌, ◌∷◌, [], length, Contains, IfOk, IfSome, IsTrue};
ghost use Rattle.mvt_base.specs.declared.TheConstants.{LIMIT};
ghost use Rattle.mvt_attrs.specs.FirstUse.{AreDistinct};
ghost use Rattle.mvt_attrs.specs.Inner.Choosing.{IsTwoChoices};
ghost use Rattle.mvt_attrs.specs.Inner.Finding.{Knows};

use crate::entry::Entry;
use crate::entry_index::{EntryIndex, LEAST_SLOTS_PER_ENTRY, search};
use crate::lookup::Lookup;
use crate::two_choices::{TwoChoices, find_two_choices, free_slots, record_two_choices};
use std::alloc::{AllocError, Global};

/// The most entries that are each compared with all before them.
const MOST_COMPARED: usize = 8;

/// The most entries for which slots are made before it is known how many of them are different.
pub(crate) const MOST_APART: usize = 1 << 16;

/// Where entries that are all different are found; `None` if one comes twice, or if they are too
/// many to make slots for all.
///
/// # Errors
///
/// When memory runs out.
pub(crate) fn index_apart<T: Entry>(
    alloc: Global,
    entries: &[T],
) -> Result<Option<EntryIndex<T>>, AllocError>
    ensures few { IfOk result (λ made. IfSome made (λ _. length entries.now < LIMIT)) }
    ensures apart { IfOk result (λ made. IfSome made (λ _. AreDistinct entries.now)) }
    ensures known { IfOk result (λ made. IfSome made (λ entry_index.
        Knows T.cmp T.hash_input entry_index entries.now)) }
{
    if entries.len() > MOST_APART {
        return Ok(None);
    }
    if entries.len() > MOST_COMPARED {
        return index_many(alloc, entries);
    }
    if are_few_apart(entries) {
        Ok(Some(EntryIndex::Plain))
    } else {
        Ok(None)
    }
}

fn are_few_apart<T: Entry>(entries: &[T]) -> bool
    ensures { IsTrue result → AreDistinct entries.now }
{
    for index in 0..entries.len() {
        if search(&entries[..index], &entries[index]).is_some() {
            return false;
        }
    }
    true
}

/// The same for many, by slots.
#[inline(never)]
fn index_many<T: Entry>(alloc: Global, entries: &[T]) -> Result<Option<EntryIndex<T>>, AllocError>
    requires { length entries.now + 1 < 2 ^ 32 }
    ensures apart { IfOk result (λ made. IfSome made (λ _. AreDistinct entries.now)) }
    ensures known { IfOk result (λ made. IfSome made (λ entry_index.
        Knows T.cmp T.hash_input entry_index entries.now)) }
{
    let mut two_choices = free_slots(alloc, entries.len() * LEAST_SLOTS_PER_ENTRY)?;
    for index in 0..entries.len() {
        if !add_apart(alloc, &mut two_choices, &entries[..index], &entries[index])? {
            return Ok(None);
        }
    }
    Ok(Some(EntryIndex::TwoChoices(two_choices)))
}

/// Notes an entry that will stand after these. Answers whether it is new; else nothing is noted.
#[inline(always)]
fn add_apart<T: Entry>(
    alloc: Global,
    two_choices: &mut TwoChoices<T>,
    entries: &[T],
    entry: &T,
) -> Result<bool, AllocError>
    requires known { IsTwoChoices T.cmp T.hash_input two_choices.old entries.now }
    requires few { length entries.now + 1 < 2 ^ 32 }
    ensures new { IfOk result (λ is_new. IsTrue is_new → ¬ (Contains entries.now entry.now)) }
    ensures added { IfOk result (λ is_new. IsTrue is_new → IsTwoChoices T.cmp T.hash_input
        two_choices.new (entries.now ++ entry.now ∷ [])) }
{
    match find_two_choices(two_choices, entries, entry) {
        Lookup::Found(_) => Ok(false),
        Lookup::New { slot } => {
            record_two_choices(alloc, two_choices, entries, entry, slot)?;
            Ok(true)
        }
    }
}
