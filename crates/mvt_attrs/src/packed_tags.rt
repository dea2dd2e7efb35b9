//! Tags judged where they stand packed in bytes, without a list of them (4.4).
ghost use Rattle.std.specs.Prelude.{◌≡◌, ◌<◌, ◌+◌, ◌++◌, ◌∷◌, [], ℕ, List, length, IfOk, IfSome, IsTrue, false};
ghost use Rattle.mvt_attrs.specs.Inner.Fronts.{IsPairFront};
ghost use Rattle.mvt_attrs.specs.Inner.Marking.{IsGrouped, AreBelow};
ghost use Rattle.mvt_attrs.specs.FirstUses.{lent};
ghost use Rattle.mvt_attrs.specs.Packed.{AreFound};

use crate::judging::judge_pair;
use crate::layer_keys::{LayerKeys, make_ready, mark, next_feature};
use crate::placing::push_pair;
use crate::texts::count_of;
use mvt_wire::spelled_front;
use std::alloc::{AllocError, Global};

/// An object that receives the tags of a feature, pair by pair, as they are judged.
pub trait TagVisitor: Drop {
    // Since it was in the first state it was told these tags.
    ghost has_tags: { Self → List ℕ → Self → Type 0 };

    // It may not go on.
    ghost may_stop: { Type 0 };

    /// Takes the next pair, and answers whether it goes on.
    ///
    /// # Errors
    ///
    /// When memory runs out.
    fn visit_pair(&mut self, key: u32, value: u32) -> Result<bool, AllocError>
        ensures told { (start : Self) (tags : List ℕ) → has_tags start tags self.old
            → IfOk result (λ goes_on. IsTrue goes_on
            → has_tags start (tags ++ key ∷ value ∷ []) self.new) }
        ensures stops { IfOk result (λ goes_on. goes_on ≡ false → may_stop) };

    ghost begins: { (start : Self) → has_tags start [] start };
}

/// A visitor that keeps no tags.
#[derive(Drop)]
pub struct NoTags;

impl TagVisitor for NoTags {
    ghost has_tags = { λ _ _ _. Unit {0} };

    ghost may_stop = { ⊥ };

    ghost begins = { λ _. tt };

    #[inline(always)]
    fn visit_pair(&mut self, _: u32, _: u32) -> Result<bool, AllocError> {
        Ok(true)
    }
}

/// A list takes the tags behind its numbers.
impl TagVisitor for Vec<u32> {
    ghost use Rattle.std.specs.Prelude.{◌≡◌, ◌++◌};
    ghost use Rattle.std.proofs.Common.{append-nil, sym};

    ghost has_tags = { λ start tags now. now.items ≡ start.items ++ tags };

    ghost may_stop = { ⊥ };

    ghost begins = { λ start. sym (append-nil start.items) };

    #[inline(always)]
    fn visit_pair(&mut self, key: u32, value: u32) -> Result<bool, AllocError> {
        push_pair(self, key, value)?;
        Ok(true)
    }
}

/// What is found of tags that are packed in bytes.
#[derive(Clone, Copy, Debug, PartialEq, Eq)]
pub enum PackedTags {
    /// They break no rule. Where `is_short` is set, no spelling of theirs is shorter.
    Good { is_short: bool },
    /// Their visitor doesn't go on.
    Stopped,
    /// They break a rule.
    Broken,
}

/// Passes the tags that are packed in these bytes to a visitor, and judges them on the way, in a
/// layer with these keys and this number of values. The first wrong pair ends it.
///
/// [`judge_tags`](crate::judge_tags) says which rule is broken. Up to one pair needs no memory.
///
/// # Errors
///
/// When memory runs out.
pub fn judge_packed<V: TagVisitor>(
    alloc: Global,
    visitor: &mut V,
    keys: &mut LayerKeys<'_>,
    values: usize,
    bytes: &[u8],
) -> Result<PackedTags, AllocError>
    ensures found { IfOk result
        (AreFound V.may_stop V.has_tags visitor.old visitor.new bytes.now keys.old values) }
    ensures same { keys.new ≡ keys.old }
{
    if bytes.is_empty() {
        return Ok(PackedTags::Good { is_short: true });
    }
    let Some(pair) = pair_front(bytes) else {
        return Ok(PackedTags::Broken);
    };
    let texts = keys.texts;
    if pair.after.is_empty() {
        return judge_one(visitor, texts, values, &pair);
    }
    make_ready(
        alloc,
        texts,
        keys.is_grouped,
        &mut keys.first_indices,
        &mut keys.named_by,
        keys.feature,
    )?;
    keys.is_grouped = true;
    let feature = next_feature(&mut keys.named_by, keys.feature);
    keys.feature = feature;
    judge_each(
        visitor,
        texts,
        &keys.first_indices,
        &mut keys.named_by,
        feature,
        values,
        bytes,
    )
}

/// The same for a pair with nothing behind it, which repeats no key.
fn judge_one<V: TagVisitor>(
    visitor: &mut V,
    texts: &[&str],
    values: usize,
    pair: &Pair<'_>,
) -> Result<PackedTags, AllocError>
    requires { pair.now.after.now ≡ [] }
    ensures { (bytes : List ℕ) → IsPairFront bytes pair.now → IfOk result
        (AreFound V.may_stop V.has_tags visitor.old visitor.new bytes (lent texts.now) values) }
{
    match judge_pair(texts, values, &[pair.key, pair.value]) {
        Ok(()) => {}
        Err(_) => return Ok(PackedTags::Broken),
    }
    if !visitor.visit_pair(pair.key, pair.value)? {
        return Ok(PackedTags::Stopped);
    }
    Ok(PackedTags::Good {
        is_short: pair.is_short,
    })
}

/// The same for any, over keys in their groups that this feature has not named yet.
#[inline(never)]
fn judge_each<V: TagVisitor>(
    visitor: &mut V,
    texts: &[&str],
    first_indices: &[usize],
    named_by: &mut [u32],
    feature: u32,
    values: usize,
    bytes: &[u8],
) -> Result<PackedTags, AllocError>
    requires grouped { IsGrouped (lent texts.now) first_indices.now }
    requires room { length named_by.old ≡ length (lent texts.now) }
    requires fresh { AreBelow named_by.old feature }
    ensures found { IfOk result
        (AreFound V.may_stop V.has_tags visitor.old visitor.new bytes.now (lent texts.now) values) }
    ensures below { AreBelow named_by.new (feature + 1) }
{
    let count = count_of(texts);
    let mut is_short = true;
    let mut rest = bytes;
    while !rest.is_empty() {
        let Some(pair) = pair_front(rest) else {
            return Ok(PackedTags::Broken);
        };
        if pair.key as usize >= count || pair.value as usize >= values {
            return Ok(PackedTags::Broken);
        }
        if !mark(first_indices, named_by, feature, pair.key as usize) {
            return Ok(PackedTags::Broken);
        }
        if !visitor.visit_pair(pair.key, pair.value)? {
            return Ok(PackedTags::Stopped);
        }
        is_short &= pair.is_short;
        rest = pair.after;
    }
    Ok(PackedTags::Good { is_short })
}

/// A pair of tags, whether no spelling of theirs is shorter, and the bytes after it.
#[derive(Clone, Copy, Debug)]
struct Pair<'a> {
    key: u32,
    value: u32,
    is_short: bool,
    after: &'a [u8],
}

/// The pair in front; `None` if there is none.
#[inline(always)]
fn pair_front(bytes: &[u8]) -> Option<Pair<'_>>
    ensures { IfSome result (IsPairFront bytes.now) }
{
    let key = spelled_front(bytes)?;
    let value = spelled_front(key.after)?;
    Some(Pair {
        key: key.number,
        value: value.number,
        is_short: key.is_short & value.is_short,
        after: value.after,
    })
}
