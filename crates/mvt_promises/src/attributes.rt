//! Attributes and tags (Mapbox Vector Tile Specification 2.1, 4.4).
ghost use Rattle.std.specs.Prelude.{◌≡◌, IfOk, OnOk};
ghost use Rattle.mvt_attrs.specs.Placed.{IsPlaced};
ghost use Rattle.mvt_attrs.specs.Pools.{key_pool, value_pool};
ghost use Rattle.mvt_attrs.specs.Tags.{Names, Resolved};

use mvt_attrs::{Attribute, KeyPool, PoolError, TagError, Value, ValuePool};
use mvt_base::Text;
use std::alloc::Global;

/// A value's place is that of its own kind: the number 5 of one kind isn't that of another.
///
/// # Errors
///
/// When memory runs out, or a full pool meets a value that is new.
pub fn place_value<'a>(
    values: &mut ValuePool<'a>,
    attribute: &'a Attribute,
) -> Result<u32, PoolError>
    ensures { IsPlaced values.old values.new attribute.now.value result }
{
    values.place(&attribute.value.lent())
}

/// Keys and values stand in order of first use.
///
/// # Errors
///
/// When memory runs out, or a full pool meets an entry that is new.
pub fn tags_of<'a>(
    alloc: Global,
    attributes: &'a [Attribute],
    keys: &mut KeyPool<'a>,
    values: &mut ValuePool<'a>,
) -> Result<Vec<u32>, PoolError>
    ensures tags { IfOk result (λ tags. Names keys.new values.new tags.items attributes.now) }
    ensures keys { OnOk result (keys.new ≡ key_pool keys.old attributes.now) }
    ensures values { OnOk result (values.new ≡ value_pool values.old attributes.now) }
{
    mvt_attrs::tags_of(alloc, attributes, keys, values)
}

/// Tags name all their attributes.
///
/// # Errors
///
/// The first rule that the tags break, with its index into them. When memory runs out.
pub fn resolve(
    alloc: Global,
    keys: &[Text],
    values: &[Value],
    tags: &[u32],
) -> Result<Vec<Attribute>, TagError>
    ensures { IfOk result (λ found. Resolved keys.now values.now tags.now found.items) }
{
    mvt_attrs::resolve(alloc, keys, values, tags)
}
