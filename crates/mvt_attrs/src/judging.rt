//! Whether tags name attributes: one pass over them, which builds nothing.
ghost use Rattle.std.specs.Prelude.{◌≡◌, ◌+◌, ◌^◌, ◌<◌, ◌≤◌, List, length, None, IfErr, IsErrOf, OnOk};
ghost use Rattle.mvt_base.specs.Reports.{Reports};
ghost use Rattle.mvt_attrs.specs.Values.{Value};
ghost use Rattle.mvt_attrs.specs.FirstUses.{lent};
ghost use Rattle.mvt_attrs.specs.TagRules.{tag_fault, fault_of};
ghost use Rattle.mvt_attrs.specs.Inner.Marking.{IsGrouped, AreBelow, IsIndexError};

use crate::layer_keys::{LayerKeys, make_ready, mark, next_feature};
use crate::resolving::{TagCause, TagError};
use crate::texts::count_of;
use std::alloc::Global;

/// Whether a feature's tags name attributes, in a layer with these keys and this number of values
/// (4.4).
///
/// The cost grows only with the number of tags, except that the first feature with two pairs or
/// more groups the keys. Up to one pair needs no memory.
///
/// # Errors
///
/// The first broken rule, with its index into the tags; or memory runs out for the groups.
pub fn judge_tags(
    alloc: Global,
    keys: &mut LayerKeys<'_>,
    values: usize,
    tags: &[u32],
) -> Result<(), TagError>
    ensures ok { OnOk result ((held : List Value) → length held ≡ values
        → tag_fault keys.old held tags.now ≡ None) }
    ensures err { IfErr result (λ error. (held : List Value) → length held ≡ values
        → Reports (fault_of error) (tag_fault keys.old held tags.now)) }
    ensures memory { IsErrOf result TagError.Memory → 2 < length tags.now }
    ensures same { keys.new ≡ keys.old }
{
    let texts = keys.texts;
    if tags.len() <= 2 {
        return judge_pair(texts, values, tags);
    }
    make_ready(
        alloc,
        texts,
        keys.is_grouped,
        &mut keys.first_indices,
        &mut keys.named_by,
        keys.feature,
    )?;
    keys.is_grouped = true;
    let feature = next_feature(&mut keys.named_by, keys.feature);
    keys.feature = feature;
    judge_marked(
        texts,
        &keys.first_indices,
        &mut keys.named_by,
        feature,
        values,
        tags,
    )
}

/// The same if there is one pair at most, which repeats no key.
pub(crate) fn judge_pair(texts: &[&str], values: usize, tags: &[u32]) -> Result<(), TagError>
    requires { length tags.now ≤ 2 }
    ensures ok { OnOk result ((held : List Value) → length held ≡ values
        → tag_fault (lent texts.now) held tags.now ≡ None) }
    ensures err { IfErr result (λ error. (held : List Value) → length held ≡ values
        → Reports (fault_of error) (tag_fault (lent texts.now) held tags.now)) }
    ensures never { IsErrOf result TagError.Memory → ⊥ }
{
    match tags {
        [] => Ok(()),
        [_] => Err(fault(tags.len(), TagCause::OddTags)),
        [key, value, ..] => judge_indices(texts, values, 0, *key, *value),
    }
}

/// The same, over keys in their groups that this feature has not named yet.
fn judge_marked(
    texts: &[&str],
    first_indices: &[usize],
    named_by: &mut [u32],
    feature: u32,
    values: usize,
    tags: &[u32],
) -> Result<(), TagError>
    requires grouped { IsGrouped (lent texts.now) first_indices.now }
    requires room { length named_by.old ≡ length (lent texts.now) }
    requires fresh { AreBelow named_by.old feature }
    ensures ok { OnOk result ((held : List Value) → length held ≡ values
        → tag_fault (lent texts.now) held tags.now ≡ None) }
    ensures err { IfErr result (λ error. (held : List Value) → length held ≡ values
        → Reports (fault_of error) (tag_fault (lent texts.now) held tags.now)) }
    ensures below { AreBelow named_by.new (feature + 1) }
{
    if tags.len() % 2 == 1 {
        return Err(fault(tags.len(), TagCause::OddTags));
    }
    let mut rest = tags;
    while let [key, value, others @ ..] = rest {
        let index = tags.len() - rest.len();
        judge_indices(texts, values, index, *key, *value)?;
        if !mark(first_indices, named_by, feature, *key as usize) {
            return Err(fault(index, TagCause::RepeatedKey));
        }
        rest = others;
    }
    Ok(())
}

/// Whether a pair names a key and a value, where the index of its key among the tags is `index`.
#[inline(always)]
fn judge_indices(
    texts: &[&str],
    values: usize,
    index: usize,
    key: u32,
    value: u32,
) -> Result<(), TagError>
    requires { index + 1 < 2 ^ 64 }
    ensures ok { OnOk result ((key < length (lent texts.now)) × (value < values)) }
    ensures err { IfErr result (IsIndexError (lent texts.now) values index key value) }
{
    if key as usize >= count_of(texts) {
        return Err(fault(index, TagCause::KeyIndex));
    }
    if value as usize >= values {
        return Err(fault(index + 1, TagCause::ValueIndex));
    }
    Ok(())
}

fn fault(index: usize, cause: TagCause) -> TagError
    ensures { result ≡ TagError.Fault index cause }
{
    TagError::Fault { index, cause }
}
