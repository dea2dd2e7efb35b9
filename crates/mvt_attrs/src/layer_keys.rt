//! The keys of a layer, in which a feature's repeated key is found without a search.
ghost use Rattle.std.specs.Prelude.{◌≡◌, ◌+◌, ◌<◌, ◌==◌, ℕ, List, length, not, slice_index, slice_set, bytes_eq, false, IfOk, OnOk, OnErr, Some};
ghost use Rattle.std.specs.Bool.{OnTrue};
ghost use Rattle.std.specs.Map.{update};
ghost use Rattle.std.specs.Option.{unwrap_or};
ghost use Rattle.mvt_attrs.specs.FirstUse.{AreDistinct};
ghost use Rattle.mvt_attrs.specs.FirstUses.{lent};
ghost use Rattle.mvt_attrs.specs.Inner.Marking.{IsGrouped, IsReady, AreBelow, place_in_map};

use crate::distinct::are_distinct;
use mvt_base::Text;
use std::alloc::{AllocError, Global};
use std::collections::BTreeMap;
use std::marker::Model;

/// The keys of a layer, which features name by their indices.
///
/// ```ignore
/// let mut keys = LayerKeys::new(alloc, &texts);
/// for tags in features {
///     resolve_in(alloc, &mut keys, &values, tags)?;
/// }
/// ```
///
/// The first feature with two pairs or more groups the keys, in the time of sorting them. From then
/// on it takes constant time to find whether a feature has named a key's text before. The texts
/// are lent; the first feature that keeps some has each copied once. Contracts see the texts.
#[derive(Drop)]
pub struct LayerKeys<'k> {
    pub(crate) texts: &'k [&'k str],
    pub(crate) is_grouped: bool,
    /// For each key the first index of its text, if they are grouped.
    pub(crate) first_indices: Vec<usize>,
    /// For each first index the last feature that named its text.
    pub(crate) named_by: Vec<u32>,
    /// The number of the last feature, from 1; after the last number they begin again.
    pub(crate) feature: u32,
    pub(crate) is_kept: bool,
    /// The texts with memory of their own, if they are kept.
    pub(crate) kept: Vec<Text>,
}

impl<'k> Model for LayerKeys<'k> {
    ghost use Rattle.std.specs.Prelude.{◌≡◌, List, ℕ};
    ghost use Rattle.std.specs.Bool.{OnTrue};
    ghost use Rattle.mvt_attrs.specs.FirstUses.{lent};
    ghost use Rattle.mvt_attrs.specs.Inner.Marking.{IsReady};

    ghost Value = { List (List ℕ) };

    ghost view = { λ k. lent k.texts.now };

    ghost invariant = { λ k. OnTrue k.is_grouped
        (IsReady (lent k.texts.now) k.first_indices.items k.named_by.items k.feature)
        × OnTrue k.is_kept (k.kept.items ≡ lent k.texts.now) };
}

impl<'k> LayerKeys<'k> {
    /// The keys as they stand, without memory.
    pub fn new(alloc: Global, texts: &'k [&'k str]) -> Self
        ensures { result ≡ lent texts.now }
    {
        LayerKeys {
            texts,
            is_grouped: false,
            first_indices: Vec::new(alloc),
            named_by: Vec::new(alloc),
            feature: 0,
            is_kept: false,
            kept: Vec::new(alloc),
        }
    }
}

/// Puts the keys in groups, if they aren't yet.
pub(crate) fn make_ready(
    alloc: Global,
    texts: &[&str],
    is_grouped: bool,
    first_indices: &mut Vec<usize>,
    named_by: &mut Vec<u32>,
    feature: u32,
) -> Result<(), AllocError>
    requires { OnTrue is_grouped
        (IsReady (lent texts.now) first_indices.old.items named_by.old.items feature) }
    ensures ready { OnOk result
        (IsReady (lent texts.now) first_indices.new.items named_by.new.items feature) }
    ensures err { OnErr result (is_grouped ≡ false) }
{
    if is_grouped {
        return Ok(());
    }
    *first_indices = group(alloc, texts)?;
    *named_by = vec![in alloc; 0; texts.len()]?;
    Ok(())
}

/// For each text the first index at which it stands.
fn group(alloc: Global, texts: &[&str]) -> Result<Vec<usize>, AllocError>
    ensures { IfOk result (λ first_indices. IsGrouped (lent texts.now) first_indices.items) }
{
    if are_distinct(alloc, texts)? {
        group_apart(alloc, texts)
    } else {
        group_many(alloc, texts)
    }
}

/// The same for texts that stand once each.
fn group_apart(alloc: Global, texts: &[&str]) -> Result<Vec<usize>, AllocError>
    requires { AreDistinct (lent texts.now) }
    ensures { IfOk result (λ first_indices. IsGrouped (lent texts.now) first_indices.items) }
{
    let mut first_indices = Vec::with_capacity(alloc, texts.len())?;
    for index in 0..texts.len() {
        first_indices.push(index)?;
    }
    Ok(first_indices)
}

/// The same by a map of the texts so far.
fn group_many(alloc: Global, texts: &[&str]) -> Result<Vec<usize>, AllocError>
    ensures { IfOk result (λ first_indices. IsGrouped (lent texts.now) first_indices.items) }
{
    let mut known = BTreeMap::new(alloc);
    let mut first_indices = Vec::with_capacity(alloc, texts.len())?;
    for (index, text) in texts.iter().enumerate() {
        let place = place_of(&mut known, text, index)?;
        first_indices.push(place)?;
    }
    Ok(first_indices)
}

/// The place of a text, which is this index if it is new.
fn place_of<'k>(
    known: &mut BTreeMap<&'k str, usize>,
    text: &'k str,
    index: usize,
) -> Result<usize, AllocError>
    ensures place { IfOk result (λ place. place ≡ unwrap_or
        (place_in_map known.old text.now) index) }
    ensures known { IfOk result (λ place. (q : List ℕ) → place_in_map known.new q
        ≡ update bytes_eq (place_in_map known.old) text.now (Some place) q) }
{
    if let Some(place) = known.get(text) {
        return Ok(*place);
    }
    known.insert(text, index)?;
    Ok(index)
}

/// The number of the next feature: nothing has been named by it.
pub(crate) fn next_feature(named_by: &mut [u32], feature: u32) -> u32
    requires { AreBelow named_by.old (feature + 1) }
    ensures { AreBelow named_by.new result }
{
    if feature < u32::MAX {
        return feature + 1;
    }
    for mark in named_by.iter_mut() {
        *mark = 0;
    }
    1
}

/// Notes that this feature names the key at an index. Answers whether it had not named its text.
pub(crate) fn mark(
    first_indices: &[usize],
    named_by: &mut [u32],
    feature: u32,
    index: usize,
) -> bool
    requires there { index < length first_indices.now }
    requires within { slice_index first_indices.now index < length named_by.old }
    ensures new { result
        ≡ not (slice_index named_by.old (slice_index first_indices.now index) == feature) }
    ensures marked { named_by.new
        ≡ slice_set named_by.old (slice_index first_indices.now index) feature }
{
    let place = first_indices[index];
    let is_new = named_by[place] != feature;
    named_by[place] = feature;
    is_new
}
