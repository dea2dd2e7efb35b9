//! The entries of a pool, each once, in order of first use.
ghost use Rattle.std.specs.Prelude.{◌≡◌, ◌<◌, ◌≤◌, ◌↔◌, List, [], ◌∷◌, ◌++◌, length, Contains, slice_get, option_copied, IsOk, IsErrOf, IfOk, OnOk, OnErr, IsTrue};
ghost use Rattle.mvt_attrs.specs.FirstUse.{AreDistinct};
ghost use Rattle.mvt_attrs.specs.Inner.Finding.{Knows, IsRoomFor};
ghost use Rattle.mvt_attrs.specs.Placed.{IsPlaced};

use crate::apart::MOST_APART;
use crate::entry::Entry;
use crate::entry_index::{EntryIndex, LEAST_SLOTS_PER_ENTRY, MOST_PLAIN, find, record};
use crate::lookup::Lookup;
use crate::pool_error::PoolError;
use crate::two_choices::{free_slots, is_at};
use mvt_base::LIMIT;
use std::alloc::{AllocError, Global};
use std::marker::Model;

/// How many entries a pool has room for once it holds one: that of a small layer never grows.
const FIRST_ROOM: usize = 16;

/// Entries, each once, in order of first use.
///
/// Few entries are searched one by one, more are hashed, and of many those that find both slots
/// taken are kept in order: so n entries are placed in at most n log n steps, whatever their texts
/// are. After an error a pool is unchanged.
#[derive(Drop)]
pub struct Pool<T: Entry> {
    entries: Vec<T>,
    entry_index: EntryIndex<T>,
}

impl<T: Entry> Model for Pool<T> {
    ghost use Rattle.std.specs.Prelude.{List, ◌≤◌, length};
    ghost use Rattle.mvt_base.specs.declared.TheConstants.{LIMIT};
    ghost use Rattle.mvt_attrs.specs.FirstUse.{AreDistinct};
    ghost use Rattle.mvt_attrs.specs.Inner.Finding.{Knows};

    ghost Value = { List T };

    ghost view = { λ p. p.entries.items };

    ghost invariant = { λ p. (length p.entries.items ≤ LIMIT) × AreDistinct p.entries.items
        × Knows T.cmp T.hash_input p.entry_index p.entries.items };
}

impl<T: Entry> Pool<T> {
    /// An empty pool, which takes no memory.
    pub fn new(alloc: Global) -> Self
        ensures { result ≡ [] }
    {
        Pool {
            entries: Vec::new(alloc),
            entry_index: EntryIndex::Plain,
        }
    }

    /// An empty pool with slots for this many entries, if they are too many to be searched one by
    /// one, and not too many to make slots for all.
    pub(crate) fn with_slots(alloc: Global, entries: usize) -> Result<Self, AllocError>
        ensures { IfOk result (λ pool. pool ≡ []) }
    {
        if entries <= MOST_PLAIN || entries > MOST_APART {
            return Ok(Pool::new(alloc));
        }
        let slots = free_slots(alloc, entries * LEAST_SLOTS_PER_ENTRY)?;
        Ok(Pool::of_apart(alloc, Vec::new(alloc), EntryIndex::TwoChoices(slots)))
    }

    /// The pool of entries that are all different, with their index.
    pub(crate) fn of_apart(alloc: Global, entries: Vec<T>, entry_index: EntryIndex<T>) -> Self
        requires few { length entries.items ≤ LIMIT }
        requires apart { AreDistinct entries.items }
        requires known { Knows T.cmp T.hash_input entry_index entries.items }
        ensures { result ≡ entries.items }
    {
        let mut pool = Pool::new(alloc);
        pool.entries = entries;
        pool.entry_index = entry_index;
        pool
    }

    /// How many entries it holds.
    pub fn len(&self) -> usize
        ensures len { result ≡ length self.now }
        ensures limit { result ≤ LIMIT }
        ensures distinct { AreDistinct self.now }
    {
        self.entries.len()
    }

    /// Whether it holds no entry.
    pub fn is_empty(&self) -> bool
        ensures { IsTrue result ↔ (self.now ≡ []) }
    {
        self.entries.is_empty()
    }

    /// The entries, in their order.
    pub fn entries(&self) -> &[T]
        ensures { result.now ≡ self.now }
    {
        &self.entries
    }

    pub(crate) fn entry(&self, index: u32) -> Option<&T>
        ensures { option_copied result ≡ slice_get self.now index }
    {
        self.entries.get(index as usize)
    }

    /// The place of an entry, which is copied and added last if it is new. An entry that is there
    /// needs no memory.
    ///
    /// # Errors
    ///
    /// When memory runs out, or the pool is full and the entry is new; the pool is then unchanged.
    #[inline(never)]
    pub fn place(&mut self, entry: &T) -> Result<u32, PoolError>
        ensures { IsPlaced self.old self.new entry.now result }
    {
        let slot = match find(&self.entry_index, &self.entries, entry) {
            Lookup::Found(place) => return Ok(place as u32),
            Lookup::New { slot } => slot,
        };
        let index = self.entries.len();
        if index as u64 == LIMIT {
            return Err(PoolError::Full);
        }
        append(&mut self.entries, &mut self.entry_index, entry, slot)?;
        Ok(index as u32)
    }

    /// As `place`, but the place that is guessed is tried first.
    #[inline(always)]
    pub(crate) fn place_near(&mut self, entry: &T, guess: Option<&u32>) -> Result<u32, PoolError>
        ensures { IsPlaced self.old self.new entry.now result }
    {
        if let Some(index) = guess {
            if is_at(&self.entries, *index as usize, entry) {
                return Ok(*index);
            }
        }
        self.place(entry)
    }
}

fn append<T: Entry>(
    entries: &mut Vec<T>,
    entry_index: &mut EntryIndex<T>,
    entry: &T,
    slot: Option<usize>,
) -> Result<(), AllocError>
    requires known { Knows T.cmp T.hash_input entry_index.old entries.old.items }
    requires distinct { AreDistinct entries.old.items }
    requires new { ¬ (Contains entries.old.items entry.now) }
    requires room { IsRoomFor T.hash_input entry_index.old entry.now slot }
    requires few { length entries.old.items < LIMIT }
    ensures added { OnOk result (entries.new.items ≡ entries.old.items ++ entry.now ∷ []) }
    ensures distinct { AreDistinct entries.new.items }
    ensures unchanged { OnErr result (entries.new.items ≡ entries.old.items) }
    ensures known { Knows T.cmp T.hash_input entry_index.new entries.new.items }
{
    let alloc = *entries.allocator();
    let copy = entry.copied(alloc)?;
    entries.reserve(if entries.is_empty() { FIRST_ROOM } else { 1 })?;
    record(alloc, entry_index, entries, entry, slot)?;
    entries.push_reserved(copy);
    Ok(())
}
