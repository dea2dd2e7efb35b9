//! Writing an item (Mapbox Vector Tile Specification 2.1, 4.1).
ghost use Rattle.std.specs.Prelude.{◌≡◌, ◌⊎◌, ◌<◌, ◌≤◌, [], length, OnOk, IfOk, IsErrOf};
ghost use Rattle.std.specs.List.{AllByRecursion};
ghost use Rattle.mvt_geometry.specs.Valid.{IsValid};
ghost use Rattle.mvt_wire.specs.Spelling.{spelled};
ghost use Rattle.mvt_feature.specs.declared.feature.Feature.{Feature as OneFeature};
ghost use Rattle.mvt_message.specs.CanonicalItems.{keys_of, values_of, layer_fields, canonical_item};
ghost use Rattle.mvt_message.specs.Rewriting.{HasGathered, HasWrittenUpTo};
ghost use Rattle.mvt_message.specs.ValidItems.{ValidItem, ValidLayer};

use crate::item::{Item, Layer};
use crate::layer_writer::{LAYER_ROOM, LayerWriter};
use mvt_attrs::PoolError;
use mvt_base::LIMIT;
use mvt_feature::{Feature, Scratch};
use std::alloc::{AllocError, Global};
use std::error::Error;
use std::fmt;

/// Why an item can't be written.
#[derive(Clone, Copy, Debug, PartialEq, Eq)]
pub enum PutError {
    /// A growth was refused memory.
    Memory,
    /// The canonical bytes are more than the limit.
    TooLarge,
}

impl From<AllocError> for PutError {
    ghost use Rattle.std.specs.Prelude.{◌≡◌};
    ghost use Rattle.mvt_message.specs.declared.item_writing.PutError.TheVariants.{Memory};

    ghost from_gives = { λ _ error. error ≡ Memory };

    fn from(_: AllocError) -> Self {
        PutError::Memory
    }
}

impl From<PoolError> for PutError {
    ghost use Rattle.std.specs.Prelude.{◌≡◌};
    ghost use Rattle.mvt_message.specs.PutErrors.{of_pool};

    ghost from_gives = { λ pool_error error. error ≡ of_pool pool_error };

    fn from(error: PoolError) -> Self {
        match error {
            PoolError::Memory => PutError::Memory,
            PoolError::Full => PutError::TooLarge,
        }
    }
}

impl fmt::Display for PutError {
    ghost use Rattle.std.specs.Prelude.{Some};
    ghost use Rattle.mvt_message.specs.PutErrors.{put_error_text};

    ghost output = { λ error. Some (put_error_text error) };

    fn fmt<W: fmt::Write>(&self, f: &mut fmt::Formatter<W>) -> fmt::Result {
        f.write_str(match self {
            PutError::Memory => "out of memory",
            PutError::TooLarge => "the result is larger than 67108864 bytes",
        })
    }
}

impl Error for PutError {}

/// The canonical payload of an item, without its tag and length.
///
/// # Errors
///
/// `TooLarge` if the payload has more bytes than the limit, `Memory` when memory runs out.
#[tactic(auto, unfolding(crate::specs::CanonicalItems::canonical_item, crate::specs::ValidItems::ValidItem))]
pub fn put_item(alloc: Global, item: &Item) -> Result<Vec<u8>, PutError>
    requires { ValidItem item.now }
    ensures put { IfOk result (λ v. (v.items ≡ canonical_item item.now)
        × (length v.items ≤ LIMIT)) }
    ensures too_large { IsErrOf result PutError.TooLarge
        → LIMIT < length (canonical_item item.now) }
{
    match item {
        Item::Layer(layer) => put_layer(alloc, layer),
        Item::Foreign { bytes, .. } => put_foreign(alloc, bytes.as_slice()),
    }
}

/// The length of an item's canonical payload. To know that of a layer, the payload is made.
///
/// # Errors
///
/// As `put_item`.
#[tactic(auto, unfolding(crate::specs::CanonicalItems::canonical_item, crate::specs::ValidItems::ValidItem))]
pub fn item_len(alloc: Global, item: &Item) -> Result<u64, PutError>
    requires { ValidItem item.now }
    ensures len { IfOk result (λ n. (n ≡ length (canonical_item item.now)) × (n ≤ LIMIT)) }
    ensures too_large { IsErrOf result PutError.TooLarge
        → LIMIT < length (canonical_item item.now) }
{
    match item {
        Item::Layer(layer) => Ok(put_layer(alloc, layer)?.len() as u64),
        Item::Foreign { bytes, .. } => foreign_len(bytes.as_slice()),
    }
}

fn foreign_len(bytes: &[u8]) -> Result<u64, PutError>
    ensures len { IfOk result (λ n. (n ≡ length bytes.now) × (n ≤ LIMIT)) }
    ensures too_large { IsErrOf result PutError.TooLarge → LIMIT < length bytes.now }
    ensures memory { ¬ (IsErrOf result PutError.Memory) }
{
    let len = bytes.len() as u64;
    if len > LIMIT {
        return Err(PutError::TooLarge);
    }
    Ok(len)
}

fn put_foreign(alloc: Global, bytes: &[u8]) -> Result<Vec<u8>, PutError>
    ensures put { IfOk result (λ v. (v.items ≡ bytes.now) × (length v.items ≤ LIMIT)) }
    ensures too_large { IsErrOf result PutError.TooLarge → LIMIT < length bytes.now }
{
    if bytes.len() as u64 > LIMIT {
        return Err(PutError::TooLarge);
    }
    Ok(Vec::from_slice(alloc, bytes)?)
}

fn put_layer(alloc: Global, layer: &Layer) -> Result<Vec<u8>, PutError>
    requires { ValidLayer layer.now }
    ensures put { IfOk result (λ v. (v.items ≡ spelled (layer_fields layer.now))
        × (length v.items ≤ LIMIT)) }
    ensures too_large { IsErrOf result PutError.TooLarge
        → LIMIT < length (spelled (layer_fields layer.now)) }
{
    let mut writer = LayerWriter::with_room(alloc, LAYER_ROOM)?;
    add_features(alloc, &mut writer, layer.features.as_slice())?;
    let Some(payload) = writer.payload(alloc, layer.name.as_str(), layer.extent)? else {
        return Err(PutError::TooLarge);
    };
    if payload.len() as u64 > LIMIT {
        return Err(PutError::TooLarge);
    }
    Ok(payload)
}

/// Adds features to a layer that has nothing yet.
fn add_features<'a>(
    alloc: Global,
    writer: &mut LayerWriter<'a>,
    features: &'a [Feature],
) -> Result<(), PutError>
    requires valid { AllByRecursion (λ (f : OneFeature). IsValid f.geometry) features.now }
    requires nothing { HasGathered writer.old [] }
    ensures added { OnOk result (HasWrittenUpTo LIMIT [] [] writer.new features.now) }
    ensures too_large { IsErrOf result PutError.TooLarge → (LIMIT ≤ length (keys_of features.now))
        ⊎ (LIMIT ≤ length (values_of features.now)) }
{
    let mut scratch = Scratch::with_room(alloc)?;
    for feature in features {
        writer.add(feature, &mut scratch)?;
    }
    Ok(())
}
