//! A layer written feature by feature, of a value or with tags by index, and its parts in their
//! canonical spelling (Mapbox Vector Tile Specification 2.1, 4.1).
ghost use Rattle.std.specs.Prelude.{◌≡◌, ◌⊎◌, ℕ, ◌<◌, [], ◌∷◌, ◌++◌, List, length, map, IfOk, IsErrOf, OnErr, OnOk};
ghost use Rattle.mvt_base.specs.Related.{Extends};
ghost use Rattle.mvt_attrs.specs.Values.{Value as AValue};
ghost use Rattle.mvt_attrs.specs.FirstUses.{lent};
ghost use Rattle.mvt_attrs.specs.Pools.{key_pool, value_pool};
ghost use Rattle.mvt_attrs.specs.Tags.{Names};
ghost use Rattle.mvt_geometry.specs.Drawing.{Draws};
ghost use Rattle.mvt_geometry.specs.Valid.{IsValid};
ghost use Rattle.mvt_wire.specs.Spelling.{spelled};
ghost use Rattle.mvt_feature.specs.declared.feature.Feature.{Feature as AFeature};
ghost use Rattle.mvt_message.specs.declared.item.Layer.{Layer};
ghost use Rattle.mvt_message.specs.CanonicalItems.{keys_of, values_of, head_fields, key_field, value_field, extent_fields};
ghost use Rattle.mvt_message.specs.Rewriting.{HasGathered, HasWritten, HasWrittenUpTo, IsPayloadOf, tail_of};

use crate::numbers::{VERSION_2, layer};
use mvt_attrs::{LayerEntries, PoolError, TextRef, ValueRef, refs_of};
use mvt_base::LIMIT;
use mvt_feature::{
    Feature, Scratch, append_drawn_feature, append_feature, append_value, value_len,
};
use mvt_geometry::Kind;
use mvt_wire::{PackedNumbers, Payload, put_field, put_field_head};
use std::alloc::{AllocError, Global};

/// How many bytes a feature's payload has room for at first: a small one never grows.
pub(crate) const FEATURE_ROOM: usize = 256;

/// How many bytes the features of a layer have room for at first, where it isn't known how long
/// they are.
pub(crate) const LAYER_ROOM: usize = 1024;

/// Writes a layer feature by feature: first come its values and its keys, which tags name by their
/// indices. Their texts are lent to it.
///
/// ```ignore
/// let mut writer = LayerWriter::new(alloc);
/// writer.take_values(values)?;
/// writer.add_keys(&keys)?;
/// for feature in features {
///     writer.add_drawn_feature(feature.id, feature.tags, kind, &integers, &mut scratch)?;
/// }
/// let payload = writer.payload(alloc, name, extent)?;
/// ```
///
/// A key or a value is found by its hashes when it is added, and if others have these too, in
/// order. It holds the layer's keys and values and the fields of its features. After an error its
/// content means nothing.
#[derive(Drop)]
pub struct LayerWriter<'a> {
    pub(crate) uses: LayerEntries<'a>,
    /// The payload of a feature.
    pub(crate) payload: Vec<u8>,
    /// The fields of the features.
    pub(crate) features: Vec<u8>,
}

impl<'a> LayerWriter<'a> {
    /// A layer without values. Takes no memory.
    pub fn new(alloc: Global) -> Self
        ensures { HasGathered result [] }
    {
        LayerWriter {
            uses: LayerEntries::new(alloc),
            payload: Vec::new(alloc),
            features: Vec::new(alloc),
        }
    }

    /// The same with room for the features of a payload of so many bytes, which rarely become more.
    ///
    /// # Errors
    ///
    /// When memory runs out.
    pub(crate) fn with_room(alloc: Global, bytes: usize) -> Result<Self, AllocError>
        ensures { IfOk result (λ writer. HasGathered writer []) }
    {
        let mut writer = LayerWriter::new(alloc);
        writer.payload.reserve(bytes.min(FEATURE_ROOM))?;
        writer.features.reserve(bytes)?;
        Ok(writer)
    }

    /// Adds values of the layer, before its keys.
    ///
    /// # Errors
    ///
    /// When memory runs out.
    pub fn take_values(&mut self, values: Vec<ValueRef<'a>>) -> Result<(), AllocError>
        ensures { (held : List AValue) → HasGathered self.old held
            → OnOk result (HasGathered self.new (held ++ values.entry.items)) }
    {
        self.uses.values.take_all(values)
    }

    /// Adds the keys of the layer, before its features.
    ///
    /// # Errors
    ///
    /// When memory runs out.
    pub fn add_keys(&mut self, keys: &[&'a str]) -> Result<(), AllocError>
        ensures { (held : List AValue) → HasGathered self.old held
            → OnOk result (HasWritten (lent keys.now) held self.new []) }
    {
        self.payload.reserve(FEATURE_ROOM)?;
        self.features.reserve(LAYER_ROOM)?;
        self.place_keys(keys)
    }

    /// The same without room for features, where it was asked for before.
    pub(crate) fn place_keys(&mut self, keys: &[&'a str]) -> Result<(), AllocError>
        ensures { (held : List AValue) → HasGathered self.old held
            → OnOk result (HasWritten (lent keys.now) held self.new []) }
    {
        let alloc = *self.payload.allocator();
        let texts = refs_of(alloc, keys)?;
        self.uses.keys.take_all(texts)
    }

    /// How many values the layer has.
    pub fn value_count(&self) -> usize
        ensures { (keys : List (List ℕ)) (held : List AValue) (features : List AFeature)
            → HasWrittenUpTo LIMIT keys held self.now features → result ≡ length held }
    {
        self.uses.values.len()
    }

    /// Adds a feature to a layer of which neither values nor keys were added: it brings its own.
    /// From where the features alone are more bytes than the limit, it is left out.
    ///
    /// # Errors
    ///
    /// When memory runs out, or the layer has more keys or values than a pool holds.
    pub(crate) fn add(
        &mut self,
        feature: &'a Feature,
        scratch: &mut Scratch,
    ) -> Result<(), PoolError>
        requires { IsValid feature.now.geometry }
        ensures added { (features : List AFeature) → HasWrittenUpTo LIMIT [] [] self.old features
            → OnOk result (HasWrittenUpTo LIMIT [] [] self.new (features ++ feature.now ∷ [])) }
        ensures too_many { (features : List AFeature) → HasWrittenUpTo LIMIT [] [] self.old features
            → IsErrOf result PoolError.Full
            → (LIMIT < length (key_pool (keys_of features) feature.now.attributes))
            ⊎ (LIMIT < length (value_pool (values_of features) feature.now.attributes)) }
    {
        if self.features.len() as u64 > LIMIT {
            return Ok(());
        }
        self.payload.clear();
        append_feature(feature, &mut self.uses, scratch, &mut self.payload)?;
        put_field(
            &mut self.features,
            layer::FEATURES,
            &Payload::Len(&self.payload),
        )?;
        Ok(())
    }

    /// Adds the feature that has this id, these tags and the geometry that these integers draw.
    /// Once the features alone exceed the limit, it is left out.
    ///
    /// # Errors
    ///
    /// When memory runs out.
    pub fn add_drawn_feature(
        &mut self,
        id: Option<u64>,
        tags: &[u32],
        kind: Kind,
        integers: &PackedNumbers,
        scratch: &mut Scratch,
    ) -> Result<(), AllocError>
        ensures { (keys : List (List ℕ)) (held : List AValue) (features : List AFeature)
            (f : AFeature)
            → HasWrittenUpTo LIMIT keys held self.old features → f.id ≡ id
            → Draws kind integers.now f.geometry → Names keys held tags.now f.attributes
            → OnOk result (HasWrittenUpTo LIMIT keys held self.new (features ++ f ∷ [])) }
    {
        if self.features.len() as u64 > LIMIT {
            return Ok(());
        }
        self.payload.clear();
        append_drawn_feature(
            id,
            tags,
            kind,
            integers,
            &mut self.uses,
            scratch,
            &mut self.payload,
        )?;
        put_field(
            &mut self.features,
            layer::FEATURES,
            &Payload::Len(&self.payload),
        )
    }

    /// The canonical payload of the layer; `None` if its features alone exceed the limit.
    ///
    /// # Errors
    ///
    /// When memory runs out.
    pub fn payload(
        &self,
        alloc: Global,
        name: &str,
        extent: u32,
    ) -> Result<Option<Vec<u8>>, AllocError>
        ensures { (keys : List (List ℕ)) (held : List AValue) (layer : Layer)
            → HasWrittenUpTo LIMIT keys held self.now layer.features → layer.name ≡ name.now
            → layer.extent ≡ extent → IfOk result (IsPayloadOf LIMIT layer) }
    {
        if self.features.len() as u64 > LIMIT {
            return Ok(None);
        }
        let mut payload = Vec::with_capacity(alloc, self.features.len() + FEATURE_ROOM)?;
        self.append_layer(&mut payload, name, extent)?;
        Ok(Some(payload))
    }

    /// Appends the canonical payload of the layer whose features it has.
    pub(crate) fn append_layer(
        &self,
        out: &mut Vec<u8>,
        name: &str,
        extent: u32,
    ) -> Result<(), AllocError>
        ensures ok { OnOk result (out.new.items ≡ out.old.items ++ (spelled (head_fields name.now)
            ++ (self.now.features.items ++ tail_of self.now.uses extent))) }
        ensures left { OnErr result (Extends out.old.items out.new.items) }
    {
        put_head(out, name)?;
        out.extend_from_slice(&self.features)?;
        self.append_tail(out, extent)
    }

    /// Appends the fields after those of the features.
    pub(crate) fn append_tail(&self, out: &mut Vec<u8>, extent: u32) -> Result<(), AllocError>
        ensures ok { OnOk result (out.new.items ≡ out.old.items ++ tail_of self.now.uses extent) }
        ensures left { OnErr result (Extends out.old.items out.new.items) }
    {
        put_keys(out, self.uses.keys.used())?;
        put_values(out, self.uses.values.used())?;
        put_extent(out, extent)
    }
}

/// Appends the version and the name.
pub(crate) fn put_head(out: &mut Vec<u8>, name: &str) -> Result<(), AllocError>
    ensures ok { OnOk result (out.new.items ≡ out.old.items ++ spelled (head_fields name.now)) }
    ensures left { OnErr result (Extends out.old.items out.new.items) }
{
    put_field(out, layer::VERSION, &Payload::Varint(u64::from(VERSION_2)))?;
    put_field(out, layer::NAME, &Payload::Len(name.as_bytes()))
}

/// Appends the keys.
fn put_keys(out: &mut Vec<u8>, keys: &[TextRef<'_>]) -> Result<(), AllocError>
    ensures ok { OnOk result (out.new.items ≡ out.old.items ++ spelled (map key_field keys.now)) }
    ensures left { OnErr result (Extends out.old.items out.new.items) }
{
    for key in keys {
        put_field(out, layer::KEYS, &Payload::Len(key.as_str().as_bytes()))?;
    }
    Ok(())
}

/// Appends the values.
fn put_values(out: &mut Vec<u8>, values: &[ValueRef<'_>]) -> Result<(), AllocError>
    ensures ok { OnOk result (out.new.items
        ≡ out.old.items ++ spelled (map value_field values.now)) }
    ensures left { OnErr result (Extends out.old.items out.new.items) }
{
    for value in values {
        put_field_head(out, layer::VALUES, value_len(value))?;
        append_value(out, value)?;
    }
    Ok(())
}

/// Appends the extent.
pub(crate) fn put_extent(out: &mut Vec<u8>, extent: u32) -> Result<(), AllocError>
    ensures ok { OnOk result (out.new.items ≡ out.old.items ++ spelled (extent_fields extent)) }
    ensures left { OnErr result (Extends out.old.items out.new.items) }
{
    put_field(out, layer::EXTENT, &Payload::Varint(u64::from(extent)))
}
