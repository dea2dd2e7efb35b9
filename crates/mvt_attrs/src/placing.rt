//! The tags of attributes, whose keys and values are placed in pools.
ghost use Rattle.std.specs.Prelude.{◌≡◌, ◌<◌, ◌⊎◌, [], ◌∷◌, ◌++◌, ℕ, List, length, take, IfOk, OnOk, OnErr, IsErrOf};
ghost use Rattle.mvt_attrs.specs.Pools.{key_pool, value_pool};
ghost use Rattle.mvt_attrs.specs.Placed.{ArePlaced, AreReported, IsFullAt, IsPlaced};
ghost use Rattle.mvt_attrs.specs.Tags.{Names};
ghost use Rattle.mvt_attrs.specs.TagPlaces.{tags_in};

use crate::key_pool::KeyPool;
use crate::pool_error::PoolError;
use crate::text_ref::TextRef;
use crate::value::Attribute;
use crate::value_pool::ValuePool;
use mvt_base::LIMIT;
use std::alloc::{AllocError, Global};

/// The tags of a feature with these attributes (4.4): for each the place of its key and that of its
/// value, which are added to the pools if they are new.
///
/// # Errors
///
/// When memory runs out, or a full pool meets an entry that is new. Each pool then holds what it
/// held and the entries of the attributes up to some place.
pub fn tags_of<'a>(
    alloc: Global,
    attributes: &'a [Attribute],
    keys: &mut KeyPool<'a>,
    values: &mut ValuePool<'a>,
) -> Result<Vec<u32>, PoolError>
    ensures tags { IfOk result (λ tags. Names keys.new values.new tags.items attributes.now) }
    ensures positions { IfOk result
        (λ tags. tags.items ≡ tags_in keys.new values.new attributes.now) }

    // Each pool gains the entries that it lacked, in order of first use.
    ensures keys { OnOk result (keys.new ≡ key_pool keys.old attributes.now) }
    ensures values { OnOk result (values.new ≡ value_pool values.old attributes.now) }
    ensures left { OnErr result ((n : ℕ)
        × ArePlaced n attributes.now keys.old keys.new values.old values.new) }

    // `Full` says that a full pool has met an entry that is new, `Memory` that none has.
    ensures full { IsErrOf result PoolError.Full → (length keys.new ≡ LIMIT)
        ⊎ (length values.new ≡ LIMIT) }
    ensures too_many { IsErrOf result PoolError.Full
        → (LIMIT < length (key_pool keys.old attributes.now))
        ⊎ (LIMIT < length (value_pool values.old attributes.now)) }
    ensures memory { IsErrOf result PoolError.Memory → (n : ℕ)
        × AreReported n attributes.now keys.old keys.new values.old values.new
        × ¬ (IsFullAt n attributes.now keys.new values.new) }
{
    let mut tags = Vec::new(alloc);
    append_tags(attributes, keys, values, &[], &mut tags)?;
    Ok(tags)
}

/// Appends the tags that `tags_of` gives to a list, which can be kept from feature to feature.
///
/// An entry is searched first at its place in `last`, for example the tags of the feature before.
/// Any numbers will do: the entry there is compared.
///
/// # Errors
///
/// As `tags_of`, and the list is then unchanged or longer.
pub(crate) fn append_tags<'a>(
    attributes: &'a [Attribute],
    keys: &mut KeyPool<'a>,
    values: &mut ValuePool<'a>,
    last: &[u32],
    tags: &mut Vec<u32>,
) -> Result<(), PoolError>
    ensures tags { OnOk result (tags.new.items
        ≡ tags.old.items ++ tags_in keys.new values.new attributes.now) }
    ensures names { OnOk result (Names keys.new values.new
        (tags_in keys.new values.new attributes.now) attributes.now) }
    ensures tags_left { OnErr result ((more : List ℕ) × (tags.new.items ≡ tags.old.items ++ more)) }

    // Each pool gains the entries that it lacked, in order of first use.
    ensures keys { OnOk result (keys.new ≡ key_pool keys.old attributes.now) }
    ensures values { OnOk result (values.new ≡ value_pool values.old attributes.now) }
    ensures left { OnErr result ((n : ℕ)
        × ArePlaced n attributes.now keys.old keys.new values.old values.new) }

    // `Full` says that a full pool has met an entry that is new, `Memory` that none has.
    ensures full { IsErrOf result PoolError.Full → (length keys.new ≡ LIMIT)
        ⊎ (length values.new ≡ LIMIT) }
    ensures too_many { IsErrOf result PoolError.Full
        → (LIMIT < length (key_pool keys.old attributes.now))
        ⊎ (LIMIT < length (value_pool values.old attributes.now)) }
    ensures memory { IsErrOf result PoolError.Memory → (n : ℕ)
        × AreReported n attributes.now keys.old keys.new values.old values.new
        × (tags.new.items ≡ tags.old.items ++ tags_in keys.new values.new (take n attributes.now))
        × ¬ (IsFullAt n attributes.now keys.new values.new) }
{
    // Read for the proof, which so knows what `len` says of the pools.
    let _ = (keys.len(), values.len());
    let mut last = last;
    for attribute in attributes {
        let key = place_key(keys, attribute, last.first())?;
        let value = place_value(values, attribute, last.get(1))?;
        push_pair(tags, key, value)?;
        last = last.get(2..).unwrap_or(&[]);
    }
    Ok(())
}

/// The place of an attribute's key, as `Pool::place_near` gives it.
#[inline(always)]
fn place_key<'a>(
    keys: &mut KeyPool<'a>,
    attribute: &'a Attribute,
    guess: Option<&u32>,
) -> Result<u32, PoolError>
    ensures { IsPlaced keys.old keys.new attribute.now.key result }
{
    keys.place_near(&TextRef::of(attribute.key.as_str()), guess)
}

/// The place of an attribute's value, as `Pool::place_near` gives it.
#[inline(always)]
fn place_value<'a>(
    values: &mut ValuePool<'a>,
    attribute: &'a Attribute,
    guess: Option<&u32>,
) -> Result<u32, PoolError>
    ensures { IsPlaced values.old values.new attribute.now.value result }
{
    values.place_near(&attribute.value.lent(), guess)
}

/// Adds the two indices of a tag, or neither.
#[inline(always)]
pub(crate) fn push_pair(tags: &mut Vec<u32>, key: u32, value: u32) -> Result<(), AllocError>
    ensures items { OnOk result (tags.new.items ≡ tags.old.items ++ key ∷ value ∷ []) }
    ensures err { OnErr result (tags.new.items ≡ tags.old.items) }
{
    tags.reserve(2)?;
    tags.push_reserved(key);
    tags.push_reserved(value);
    Ok(())
}
