//! Which layers and items can be written.
ghost use Rattle.std.specs.Prelude.{◌↔◌, IfOk, IsTrue};
ghost use Rattle.std.specs.List.{AllByRecursion};
ghost use Rattle.mvt_feature.specs.Valid.{ValidFeature};
ghost use Rattle.mvt_message.specs.ValidItems.{ValidItem, ValidLayer, AreOfVersion};

use crate::item::{Item, Layer};
use crate::numbers::VERSION_2;
use crate::version::read_version;
use mvt_feature::{Feature, is_valid_feature, validate_feature};
use std::alloc::{AllocError, Global};

/// Whether a layer can be written: each of its features can. It takes no memory.
#[tactic(auto, unfolding(crate::specs::ValidItems::ValidLayer))]
pub fn is_valid_layer(layer: &Layer) -> bool
    ensures { IsTrue result ↔ ValidLayer layer.now }
{
    // Read for the proof, which so knows that the name is UTF-8 and the extent has 32 bits.
    let _name = layer.name.as_str();
    let _extent = layer.extent;
    are_valid(layer.features.as_slice())
}

/// Whether an item can be written: a layer that can, or bytes of fields whose last version is the
/// one told and isn't 2. It takes no memory.
#[tactic(auto, unfolding(crate::specs::ValidItems::ValidItem))]
pub fn is_valid_item(item: &Item) -> bool
    ensures { IsTrue result ↔ ValidItem item.now }
{
    match item {
        Item::Layer(layer) => is_valid_layer(layer),
        Item::Foreign { version, bytes } => are_of_version(*version, bytes.as_slice()),
    }
}

/// Whether an item can be written, in n log n time for the n attributes of a feature.
///
/// # Errors
///
/// When memory runs out.
#[tactic(auto, unfolding(crate::specs::ValidItems::ValidItem))]
pub fn validate_item(alloc: Global, item: &Item) -> Result<bool, AllocError>
    ensures { IfOk result (λ valid. IsTrue valid ↔ ValidItem item.now) }
{
    match item {
        Item::Layer(layer) => validate_layer(alloc, layer),
        Item::Foreign { version, bytes } => Ok(are_of_version(*version, bytes.as_slice())),
    }
}

#[tactic(auto, unfolding(crate::specs::ValidItems::ValidLayer))]
fn validate_layer(alloc: Global, layer: &Layer) -> Result<bool, AllocError>
    ensures { IfOk result (λ valid. IsTrue valid ↔ ValidLayer layer.now) }
{
    // Read for the proof, which so knows that the name is UTF-8 and the extent has 32 bits.
    let _name = layer.name.as_str();
    let _extent = layer.extent;
    validate_features(alloc, layer.features.as_slice())
}

fn validate_features(alloc: Global, features: &[Feature]) -> Result<bool, AllocError>
    ensures { IfOk result (λ valid. IsTrue valid ↔ AllByRecursion ValidFeature features.now) }
{
    for feature in features {
        if !validate_feature(alloc, feature)? {
            return Ok(false);
        }
    }
    Ok(true)
}

fn are_valid(features: &[Feature]) -> bool
    ensures { IsTrue result ↔ AllByRecursion ValidFeature features.now }
{
    for feature in features {
        if !is_valid_feature(feature) {
            return false;
        }
    }
    true
}

/// Whether these are the bytes of a layer of this version, which isn't 2. It takes no memory.
pub fn are_of_version(version: u32, bytes: &[u8]) -> bool
    ensures { IsTrue result ↔ AreOfVersion version bytes.now }
{
    match read_version(bytes, 0, 0) {
        Ok(found) => found == version && version != VERSION_2,
        Err(_) => false,
    }
}
