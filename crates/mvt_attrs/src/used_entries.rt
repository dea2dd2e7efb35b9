//! The entries of a layer that its features use, each once, in order of first use.
ghost use Rattle.std.specs.Prelude.{◌≡◌, ◌<◌, ◌≤◌, ◌⊎◌, ◌++◌, ◌∷◌, [], List, ℕ, Some, None, length, take, IfOk, IfNone, IfSome, IsErrOf, IsTrue, OnErr, OnOk, vec_len, vec_capacity};
ghost use Rattle.mvt_attrs.specs.declared.value.Attribute.{Attribute as AnAttribute};
ghost use Rattle.mvt_attrs.specs.Values.{Value as AValue};
ghost use Rattle.mvt_attrs.specs.Tags.{Names};
ghost use Rattle.mvt_attrs.specs.TagPlaces.{tags_in};
ghost use Rattle.mvt_attrs.specs.FirstUse.{AreDistinct};
ghost use Rattle.mvt_attrs.specs.Inner.Finding.{Knows};
ghost use Rattle.mvt_attrs.specs.Inner.Places.{AreFirstMarks, AreIndices};
ghost use Rattle.mvt_base.specs.Related.{Extends};
ghost use Rattle.mvt_attrs.specs.Pools.{key_pool, value_pool};
ghost use Rattle.mvt_attrs.specs.Inner.UsedTags.{AreMarksUpTo, IsOneUse, IsUndone};
ghost use Rattle.mvt_attrs.specs.Packed.{AreUsedTags};
ghost use Rattle.mvt_attrs.specs.Using.{AreSameUses, AreUses, AreUsesOf, AreToldUpTo, AreUsedUpTo, HasNoneAdded, HasUses, IsUsedBy, IsUsedUpAt, used_of};

use crate::apart::index_apart;
use crate::entry::Entry;
use crate::entry_index::EntryIndex;
use crate::layer_keys::LayerKeys;
use crate::packed_tags::{PackedTags, TagVisitor, judge_packed};
use crate::placing::{append_tags, push_pair};
use crate::pool::Pool;
use crate::pool_error::PoolError;
use crate::text_ref::TextRef;
use crate::value::{Attribute, ValueRef};
use mvt_base::LIMIT;
use std::alloc::{AllocError, Global};

/// How many entries there is room for once there is one: the lists of a small layer never grow.
const FIRST_ROOM: usize = 16;

/// The entries of a layer, and which of them its features use.
///
/// Each entry is compared once, when it is added. From then on it is known by its place: a use
/// costs two look-ups, however long the texts are. As long as entries that stand once each are used
/// in their order, they are only counted. If none is added, the entries are those that attributes
/// bring.
#[derive(Drop)]
pub struct UsedEntries<T: Entry> {
    /// The entries, each once.
    distinct: Pool<T>,
    /// How many of them are used, if those are the first: the lists below are empty then.
    front: Option<usize>,
    /// For each entry its place among these.
    places: Vec<u32>,
    /// For each place one more than its index among the entries that are used, or 0.
    marks: Vec<u32>,
    used: Vec<T>,
}

impl<T: Entry> UsedEntries<T> {
    /// No entries yet. Takes no memory.
    pub fn new(alloc: Global) -> Self
        ensures uses { AreUsesOf result [] }
        ensures used { used_of result ≡ [] }
    {
        UsedEntries {
            distinct: Pool::new(alloc),
            front: None,
            places: Vec::new(alloc),
            marks: Vec::new(alloc),
            used: Vec::new(alloc),
        }
    }

    /// How many entries there are.
    pub fn len(&self) -> usize
        ensures { (entries : List T) → AreUsesOf self.now entries → result ≡ length entries }
    {
        match self.front {
            Some(_) => self.distinct.len(),
            None => self.places.len(),
        }
    }

    /// The entries that are used.
    pub fn used(&self) -> &[T]
        ensures { result.now ≡ used_of self.now }
    {
        match self.front {
            Some(count) => first_of(self.distinct.entries(), count),
            None if self.places.is_empty() => self.distinct.entries(),
            None => &self.used,
        }
    }

    /// Whether no entry was added and none is used. Yes means this; no costs speed alone.
    fn is_new(&self) -> bool
        ensures { IsTrue result → (self.now.front ≡ None) × (self.now.places.items ≡ [])
            × (self.now.distinct ≡ []) }
    {
        self.front.is_none() && self.places.is_empty() && self.distinct.is_empty()
    }

    /// Marks the entries that are used, where they were only counted.
    #[inline(never)]
    fn spread(&mut self) -> Result<(), AllocError>
        ensures uses { (entries : List T) → AreUsesOf self.old entries
            → AreUsesOf self.new entries }
        ensures used { used_of self.new ≡ used_of self.old }
        ensures marked { OnOk result (self.new.front ≡ None) }
    {
        let count = match self.front {
            Some(count) => count,
            None => return Ok(()),
        };
        let alloc = *self.used.allocator();
        let used = copied_all(alloc, first_of(self.distinct.entries(), count))?;
        let places = indices(alloc, self.distinct.len())?;
        self.marks = first_marks(alloc, self.distinct.len(), count)?;
        self.places = places;
        self.used = used;
        self.front = None;
        Ok(())
    }

    /// Marks those entries as used that attributes brought, before the first one is added.
    #[inline(always)]
    fn mark_brought(&mut self) -> Result<(), AllocError>
        requires { self.old.front ≡ None }
        ensures placed { self.new.front ≡ None }
        ensures uses { (entries : List T) → AreUsesOf self.old entries → OnOk result
            (AreUses self.new.distinct self.new.places.items self.new.marks.items
            self.new.used.items entries) }
        ensures kept { OnOk result
            (self.new.places.items ≡ [] → self.new.used.items ≡ self.new.distinct) }
        ensures used { used_of self.new ≡ used_of self.old }
    {
        if !self.places.is_empty() {
            return Ok(());
        }
        let alloc = *self.used.allocator();
        let brought = copied_all(alloc, self.distinct.entries())?;
        self.marks = first_marks(alloc, self.distinct.len(), self.distinct.len())?;
        self.used = brought;
        Ok(())
    }

    /// Adds an entry after the others; what attributes brought before stays used.
    ///
    /// # Errors
    ///
    /// When memory runs out. More entries than the limit don't fit any tile.
    pub fn add(&mut self, entry: &T) -> Result<(), AllocError>
        ensures uses { (entries : List T) → AreUsesOf self.old entries
            → OnOk result (AreUsesOf self.new (entries ++ entry.now ∷ [])) }
        ensures used { used_of self.new ≡ used_of self.old }
    {
        self.spread()?;
        self.mark_brought()?;
        make_room(&mut self.marks)?;
        make_room(&mut self.places)?;
        let place = match self.distinct.place(entry) {
            Ok(place) => place,
            Err(_) => return Err(AllocError),
        };
        add_mark(&mut self.marks, self.distinct.len());
        self.places.push_reserved(place);
        Ok(())
    }

    /// Adds entries after the others.
    ///
    /// # Errors
    ///
    /// As `add`.
    pub fn add_all(&mut self, more: &[T]) -> Result<(), AllocError>
        ensures uses { (entries : List T) → AreUsesOf self.old entries
            → OnOk result (AreUsesOf self.new (entries ++ more.now)) }
        ensures used { used_of self.new ≡ used_of self.old }
    {
        if !self.is_new() {
            return self.add_each(more);
        }
        let alloc = *self.used.allocator();
        match index_apart(alloc, more)? {
            Some(entry_index) => {
                self.begin_apart(alloc, copied_all(alloc, more)?, entry_index);
                Ok(())
            }
            None => self.begin_each(alloc, more),
        }
    }

    /// The same for entries that need no copies.
    ///
    /// # Errors
    ///
    /// As `add`.
    pub fn take_all(&mut self, more: Vec<T>) -> Result<(), AllocError>
        ensures uses { (entries : List T) → AreUsesOf self.old entries
            → OnOk result (AreUsesOf self.new (entries ++ more.items)) }
        ensures used { used_of self.new ≡ used_of self.old }
    {
        if !self.is_new() {
            return self.add_each(&more);
        }
        let alloc = *self.used.allocator();
        match index_apart(alloc, &more)? {
            Some(entry_index) => {
                self.begin_apart(alloc, more, entry_index);
                Ok(())
            }
            None => self.begin_each(alloc, &more),
        }
    }

    fn add_each(&mut self, more: &[T]) -> Result<(), AllocError>
        ensures uses { (entries : List T) → AreUsesOf self.old entries
            → OnOk result (AreUsesOf self.new (entries ++ more.now)) }
        ensures used { used_of self.new ≡ used_of self.old }
    {
        for entry in more {
            self.add(entry)?;
        }
        Ok(())
    }

    /// Adds the first entries, which stand once each: as long as they are used in their order, they
    /// are only counted.
    fn begin_apart(&mut self, alloc: Global, entries: Vec<T>, entry_index: EntryIndex<T>)
        requires counted { self.old.front ≡ None }
        requires none { self.old.distinct ≡ [] }
        requires unplaced { self.old.places.items ≡ [] }
        requires few { length entries.items < LIMIT }
        requires apart { AreDistinct entries.items }
        requires known { Knows T.cmp T.hash_input entry_index entries.items }
        ensures uses { (before : List T) → AreUsesOf self.old before
            → AreUsesOf self.new (before ++ entries.items) }
        ensures used { used_of self.new ≡ used_of self.old }
    {
        if entries.is_empty() {
            return;
        }
        self.front = Some(0);
        self.distinct = Pool::of_apart(alloc, entries, entry_index);
    }

    /// Adds the first entries, of which some may stand twice.
    fn begin_each(&mut self, alloc: Global, entries: &[T]) -> Result<(), AllocError>
        requires counted { self.old.front ≡ None }
        requires none { self.old.distinct ≡ [] }
        requires unplaced { self.old.places.items ≡ [] }
        ensures uses { (before : List T) → AreUsesOf self.old before
            → OnOk result (AreUsesOf self.new (before ++ entries.now)) }
        ensures used { used_of self.new ≡ used_of self.old }
    {
        self.distinct = Pool::with_slots(alloc, entries.len())?;
        self.add_each(entries)
    }

    /// The index of an entry among those that are used, where it goes last if it is new.
    ///
    /// # Errors
    ///
    /// As `add`, and if there is no such entry.
    #[inline(always)]
    pub(crate) fn mark_used(&mut self, entry: u32) -> Result<u32, AllocError>
        ensures { IfOk result (IsOneUse entry self.old self.new) }
    {
        match self.front {
            Some(count) if (entry as usize) < count => Ok(entry),
            Some(count) if entry as usize == count && count < self.distinct.len() => {
                self.front = Some(count + 1);
                Ok(entry)
            }
            Some(_) => {
                self.spread()?;
                self.mark_placed(entry)
            }
            None => self.mark_placed(entry),
        }
    }

    /// The same where entries are known by their places.
    fn mark_placed(&mut self, entry: u32) -> Result<u32, AllocError>
        requires { self.old.front ≡ None }
        ensures { IfOk result (IsOneUse entry self.old self.new) }
    {
        let place = match self.places.get(entry as usize) {
            Some(place) => *place,
            None => return Err(AllocError),
        };
        let mark = match self.marks.get(place as usize) {
            Some(mark) => *mark,
            None => return Err(AllocError),
        };
        if mark != 0 {
            return Ok(mark - 1);
        }
        let index = self.used.len();
        if index as u64 >= LIMIT {
            return Err(AllocError);
        }
        let alloc = *self.used.allocator();
        match self.distinct.entry(place) {
            Some(entry) => push_in_room(&mut self.used, entry.copied(alloc)?)?,
            None => return Err(AllocError),
        }
        self.marks[place as usize] = index as u32 + 1;
        Ok(index as u32)
    }

    /// Leaves so many entries used, the first.
    pub(crate) fn undo(&mut self, count: usize)
        ensures uses { (entries : List T) → AreUsesOf self.old entries
            → AreUsesOf self.new entries }
        ensures used { (entries : List T) → AreUsesOf self.old entries
            → IsUndone entries count (used_of self.old) (used_of self.new) }
    {
        match self.front {
            Some(used) if count < used => self.front = Some(count),
            Some(_) => {}
            None => {
                clear_above(&mut self.marks, count);
                self.used.truncate(count);
            }
        }
    }
}

fn copied_all<T: Entry>(alloc: Global, entries: &[T]) -> Result<Vec<T>, AllocError>
    ensures { IfOk result (λ copies. copies.items ≡ entries.now) }
{
    let mut copies = Vec::with_capacity(alloc, entries.len())?;
    for entry in entries {
        copies.push(entry.copied(alloc)?)?;
    }
    Ok(copies)
}

/// The first of these entries, so many or all.
fn first_of<T: Entry>(entries: &[T], count: usize) -> &[T]
    ensures { result.now ≡ take count entries.now }
{
    match entries.get(..count) {
        Some(first) => first,
        None => entries,
    }
}

/// Takes the marks of more than `count`.
fn clear_above(marks: &mut Vec<u32>, count: usize)
    ensures { AreMarksUpTo count marks.old.items marks.new.items }
{
    for mark in marks.iter_mut() {
        *mark = mark_up_to(*mark, count);
    }
}

fn mark_up_to(mark: u32, count: usize) -> u32
    ensures kept { mark ≤ count → result ≡ mark }
    ensures gone { count < mark → result ≡ 0 }
{
    if mark as usize > count { 0 } else { mark }
}

/// The indices of so many entries, in order.
fn indices(alloc: Global, count: usize) -> Result<Vec<u32>, AllocError>
    requires { count ≤ LIMIT }
    ensures { IfOk result (λ indices. AreIndices indices.items count) }
{
    let mut indices = Vec::with_capacity(alloc, count)?;
    for index in 0..count as u32 {
        indices.push(index)?;
    }
    Ok(indices)
}

/// The marks of so many places, where the entries of the first are used, in their order.
fn first_marks(alloc: Global, count: usize, used: usize) -> Result<Vec<u32>, AllocError>
    requires { count ≤ LIMIT }
    ensures { IfOk result (λ marks. AreFirstMarks marks.items count used) }
{
    let mut marks = Vec::with_capacity(alloc, count)?;
    for index in 0..count as u32 {
        marks.push(if (index as usize) < used {
            index + 1
        } else {
            0
        })?;
    }
    Ok(marks)
}

/// Room for an item after the others; the first takes room for those of a small layer.
#[inline(always)]
fn make_room<T: Drop>(items: &mut Vec<T>) -> Result<(), AllocError>
    ensures items { items.new.items ≡ items.old.items }
    ensures room { OnOk result (vec_len items.new < vec_capacity items.new) }
{
    items.reserve(if items.is_empty() { FIRST_ROOM } else { 1 })
}

/// Adds an item after the others.
#[inline(always)]
fn push_in_room<T: Drop>(items: &mut Vec<T>, item: T) -> Result<(), AllocError>
    ensures { OnOk result (items.new.items ≡ items.old.items ++ item ∷ []) }
{
    make_room(items)?;
    items.push_reserved(item);
    Ok(())
}

/// Adds a mark of no use, where fewer than `count` places have one. There is room for it.
fn add_mark(marks: &mut Vec<u32>, count: usize)
    requires { vec_len marks.old < vec_capacity marks.old }
    ensures new { length marks.old.items < count → marks.new.items ≡ marks.old.items ++ 0 ∷ [] }
    ensures same { count ≤ length marks.old.items → marks.new.items ≡ marks.old.items }
{
    if marks.len() < count {
        marks.push_reserved(0);
    }
}

/// The keys and the values of a layer, lent, and which of them its features use.
#[derive(Drop)]
pub struct LayerEntries<'a> {
    pub keys: UsedEntries<TextRef<'a>>,
    pub values: UsedEntries<ValueRef<'a>>,
    /// The tags that [`LayerEntries::use_packed`] made last.
    pub tags: Vec<u32>,
    /// Whether these are those of the layer, so far.
    are_same: bool,
}

impl<'a> LayerEntries<'a> {
    /// No keys and no values, without memory.
    pub fn new(alloc: Global) -> Self
        ensures uses { HasNoneAdded result }
        ensures keys { used_of result.keys ≡ [] }
        ensures values { used_of result.values ≡ [] }
    {
        LayerEntries {
            keys: UsedEntries::new(alloc),
            values: UsedEntries::new(alloc),
            tags: Vec::new(alloc),
            are_same: true,
        }
    }

    /// Judges the tags that are packed in these bytes, in a layer with these keys and the values of
    /// these uses, and makes of them those that the attributes have among the keys and the values
    /// that are used (4.4). Answers whether the bytes are as these are to be packed.
    ///
    /// `None` if they break a rule, of which [`judge_tags`](crate::judge_tags) tells the first; the
    /// same entries are used then as before.
    ///
    /// # Errors
    ///
    /// When memory runs out.
    pub fn use_packed(
        &mut self,
        alloc: Global,
        keys: &mut LayerKeys<'_>,
        bytes: &[u8],
    ) -> Result<Option<bool>, AllocError>
        ensures found { (values : List AValue) → HasUses self.old keys.old values
            → IfOk result (λ found. IfSome found
            (AreUsedTags bytes.now keys.old values self.old self.new)) }
        ensures uses { (values : List AValue) → HasUses self.old keys.old values
            → OnOk result (HasUses self.new keys.old values) }
        ensures undone { (values : List AValue) → HasUses self.old keys.old values
            → IfOk result (λ found. IfNone found (AreSameUses self.old self.new)) }
        ensures same { keys.new ≡ keys.old }
    {
        let before = (self.keys.used().len(), self.values.used().len());
        let values = self.values.len();
        self.tags.clear();
        self.are_same = true;
        match judge_packed(alloc, self, keys, values, bytes)? {
            PackedTags::Good { is_short } => Ok(Some(is_short & self.are_same)),
            PackedTags::Stopped => Ok(None),
            PackedTags::Broken => {
                self.keys.undo(before.0);
                self.values.undo(before.1);
                Ok(None)
            }
        }
    }

    /// Appends the tags that a feature's attributes have among the keys and the values that are
    /// used; those of the layer are `tags` (4.4).
    ///
    /// # Errors
    ///
    /// When memory runs out, or a tag names nothing; the list is then unchanged or longer.
    pub fn append_used(&mut self, tags: &[u32], out: &mut Vec<u32>) -> Result<(), AllocError>
        ensures uses { (keys : List (List ℕ)) (values : List AValue)
            (attributes : List AnAttribute) → HasUses self.old keys values
            → Names keys values tags.now attributes
            → OnOk result (HasUses self.new keys values) }
        ensures used { (keys : List (List ℕ)) (values : List AValue)
            (attributes : List AnAttribute) → HasUses self.old keys values
            → Names keys values tags.now attributes
            → OnOk result (IsUsedBy attributes self.old self.new) }
        ensures tags { (keys : List (List ℕ)) (values : List AValue)
            (attributes : List AnAttribute) → HasUses self.old keys values
            → Names keys values tags.now attributes
            → OnOk result (out.new.items ≡ out.old.items
            ++ tags_in (used_of self.new.keys) (used_of self.new.values) attributes) }
        ensures left { OnErr result (Extends out.old.items out.new.items) }
    {
        let mut rest = tags;
        while let [key, value, others @ ..] = rest {
            let key = self.keys.mark_used(*key)?;
            let value = self.values.mark_used(*value)?;
            push_pair(out, key, value)?;
            rest = others;
        }
        Ok(())
    }

    /// Appends the tags that these attributes have among the keys and the values that are used,
    /// where new ones go last (4.4). Neither keys nor values were added before.
    ///
    /// An entry is searched first at its place in `last`, for example the tags of the feature
    /// before. Any numbers will do: the entry there is compared.
    ///
    /// # Errors
    ///
    /// As [`tags_of`](crate::tags_of): the entries of the attributes up to some place are then
    /// used, and the list is unchanged or longer.
    pub fn append_attributes(
        &mut self,
        attributes: &'a [Attribute],
        last: &[u32],
        out: &mut Vec<u32>,
    ) -> Result<(), PoolError>
        ensures uses { HasNoneAdded self.old → HasNoneAdded self.new }
        ensures used { HasNoneAdded self.old
            → OnOk result (IsUsedBy attributes.now self.old self.new) }
        ensures tags { HasNoneAdded self.old → OnOk result (out.new.items ≡ out.old.items
            ++ tags_in (used_of self.new.keys) (used_of self.new.values) attributes.now) }
        ensures kept { HasNoneAdded self.old
            → OnErr result ((n : ℕ) × AreUsedUpTo n attributes.now self.old self.new) }
        ensures left { OnErr result (Extends out.old.items out.new.items) }

        // `Full`: an entry was new where as many are used as may be. `Memory`: none was.
        ensures full { HasNoneAdded self.old → IsErrOf result PoolError.Full
            → (length (used_of self.new.keys) ≡ LIMIT)
            ⊎ (length (used_of self.new.values) ≡ LIMIT) }
        ensures too_many { HasNoneAdded self.old → IsErrOf result PoolError.Full
            → (LIMIT < length (key_pool (used_of self.old.keys) attributes.now))
            ⊎ (LIMIT < length (value_pool (used_of self.old.values) attributes.now)) }
        ensures memory { HasNoneAdded self.old → IsErrOf result PoolError.Memory → (n : ℕ)
            × AreToldUpTo n attributes.now self.old self.new
            × (out.new.items ≡ out.old.items
            ++ tags_in (used_of self.new.keys) (used_of self.new.values) (take n attributes.now))
            × ¬ (IsUsedUpAt n attributes.now self.new) }
    {
        let LayerEntries { keys, values, .. } = self;
        append_tags(
            attributes,
            &mut keys.distinct,
            &mut values.distinct,
            last,
            out,
        )
    }
}

/// It uses the entries that tags name, and keeps the tags that they become.
impl TagVisitor for LayerEntries<'_> {
    ghost use Rattle.std.proofs.Common.{inl, refl};
    ghost use Rattle.mvt_attrs.specs.Inner.UsedTags.{HasRead};

    ghost has_tags = { HasRead };

    ghost may_stop = { ⊥ };

    ghost begins = { λ _. inl (refl, refl) };

    #[inline(always)]
    fn visit_pair(&mut self, key: u32, value: u32) -> Result<bool, AllocError> {
        let used_key = self.keys.mark_used(key)?;
        let used_value = self.values.mark_used(value)?;
        push_pair(&mut self.tags, used_key, used_value)?;
        self.are_same &= (used_key == key) & (used_value == value);
        Ok(true)
    }
}
