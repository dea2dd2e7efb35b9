//! Whether no text comes twice in a list.
ghost use Rattle.std.specs.Prelude.{◌≡◌, ◌≢◌, ◌+◌, ◌^◌, ◌<◌, ℕ, List, length, map, slice_get, Some, IfOk, IfSome, IsTrue, false};
ghost use Rattle.mvt_attrs.specs.FirstUse.{AreDistinct};
ghost use Rattle.mvt_attrs.specs.Inner.Apart.{IsApart, AreApart, AreMarks, IsFreeFor, text_slot};

use mvt_base::LIMIT;
use std::alloc::{AllocError, Global};
use std::convert::AsSlice;
use std::hash::{FoldHasher, Hasher};

/// The most entries that are each compared with all before them.
const MOST_COMPARED: usize = 8;

/// How many slots are looked at for an entry, at most.
const MOST_STEPS: usize = 32;

/// At least so many slots are made for an entry. Then so few stand in a row that different hashes
/// hardly ever take all steps, however many entries there are.
const SLOTS_PER_ENTRY: usize = 4;

/// Whether all entries are different. May also say no if many of them have one hash, so that the
/// time is linear in their bytes, whatever they are.
///
/// # Errors
///
/// When memory runs out.
pub fn are_distinct<T: AsSlice<u8>>(alloc: Global, entries: &[T]) -> Result<bool, AllocError>
    ensures { IfOk result (λ holds. IsTrue holds → AreDistinct (map T.items entries.now)) }
{
    if entries.len() <= MOST_COMPARED {
        return Ok(are_few_distinct(entries));
    }
    if entries.len() as u64 >= LIMIT {
        return Ok(false);
    }
    are_many_distinct(alloc, entries)
}

fn are_few_distinct<T: AsSlice<u8>>(entries: &[T]) -> bool
    ensures { IsTrue result → AreDistinct (map T.items entries.now) }
{
    for index in 0..entries.len() {
        if stands_before(entries, index) {
            return false;
        }
    }
    true
}

/// Whether the entry of an index stands before it too.
fn stands_before<T: AsSlice<u8>>(entries: &[T], index: usize) -> bool
    requires { index < length entries.now }
    ensures { result ≡ false → (i : ℕ) → i < index → IsApart (map T.items entries.now) i index }
{
    for before in 0..index {
        if is_text(&entries[before], &entries[index]) {
            return true;
        }
    }
    false
}

#[inline(always)]
fn is_text<T: AsSlice<u8>>(one: &T, other: &T) -> bool
    ensures { result ≡ false → T.items one.now ≢ T.items other.now }
{
    one.as_slice() == other.as_slice()
}

/// The same for many, by their hashes.
#[inline(never)]
fn are_many_distinct<T: AsSlice<u8>>(alloc: Global, entries: &[T]) -> Result<bool, AllocError>
    requires { length entries.now < 2 ^ 31 }
    ensures { IfOk result (λ holds. IsTrue holds → AreDistinct (map T.items entries.now)) }
{
    let room = (entries.len() * SLOTS_PER_ENTRY).next_power_of_two();
    let mut slots = vec![in alloc; 0u32; room + MOST_STEPS]?;
    for index in 0..entries.len() {
        match free_slot(&slots, entries, index, room) {
            Some(slot) => slots[slot] = index as u32 + 1,
            None => return Ok(false),
        }
    }
    Ok(true)
}

/// The slot for the entry of an index: the first free one from that of its hash on. `None` if an
/// equal entry stands before, or no slot nearby is free.
fn free_slot<T: AsSlice<u8>>(
    slots: &[u32],
    entries: &[T],
    index: usize,
    room: usize,
) -> Option<usize>
    requires there { index < length entries.now }
    requires some { 0 < room }
    requires room { length slots.now ≡ room + 32 }
    requires marks { AreMarks slots.now (length entries.now) }
    ensures { (entry : List ℕ) → slice_get (map T.items entries.now) index ≡ Some entry
        → IfSome result (IsFreeFor (map T.items entries.now) slots.now index
        (text_slot room entry)) }
{
    let entry = &entries[index];
    let first = first_slot(entry, room);
    for slot in first..first + MOST_STEPS {
        let mark = slots[slot] as usize;
        if mark == 0 {
            return Some(slot);
        }
        if is_text(&entries[mark - 1], entry) {
            return None;
        }
    }
    None
}

/// The slot that the hash of a text names. The room is a power of two, so that all its slots are
/// named.
#[inline(always)]
fn first_slot<T: AsSlice<u8>>(text: &T, room: usize) -> usize
    requires { 0 < room }
    ensures value { result ≡ text_slot room (T.items text.now) }
    ensures within { result < room }
{
    let mut state = FoldHasher::default();
    state.write(text.as_slice());
    state.finish() as usize & (room - 1)
}
