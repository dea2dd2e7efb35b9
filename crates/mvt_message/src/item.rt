//! Layers and foreign items (Mapbox Vector Tile Specification 2.1, 4.1).
ghost use Rattle.std.specs.Prelude.{◌≡◌, IfOk};

use mvt_base::{Items, Text};
use mvt_feature::Feature;
use std::alloc::{AllocError, Global};

/// A layer of version 2.
#[derive(Debug, Drop, PartialEq, Eq)]
pub struct Layer {
    pub name: Text,
    /// How many units a side of the tile has.
    pub extent: u32,
    pub features: Items<Feature>,
}

/// What a tile holds.
#[derive(Debug, Drop, PartialEq, Eq)]
pub enum Item {
    Layer(Layer),
    /// A layer of another version, carried as its bytes.
    Foreign { version: u32, bytes: Items<u8> },
}

impl Layer {
    /// An equal layer.
    ///
    /// # Errors
    ///
    /// When memory runs out.
    pub fn copy(&self, alloc: Global) -> Result<Layer, AllocError>
        ensures { IfOk result (λ copy. copy ≡ self.now) }
    {
        Ok(Layer {
            name: self.name.copy(alloc)?,
            extent: self.extent,
            features: copy_features(alloc, self.features.as_slice())?,
        })
    }
}

fn copy_features(alloc: Global, features: &[Feature]) -> Result<Items<Feature>, AllocError>
    ensures { IfOk result (λ copy. copy ≡ features.now) }
{
    let mut copies = Vec::with_capacity(alloc, features.len())?;
    for feature in features {
        copies.push(feature.copy(alloc)?)?;
    }
    Ok(Items::new(copies))
}

impl Item {
    /// An equal item.
    ///
    /// # Errors
    ///
    /// When memory runs out.
    pub fn copy(&self, alloc: Global) -> Result<Item, AllocError>
        ensures { IfOk result (λ copy. copy ≡ self.now) }
    {
        match self {
            Item::Layer(layer) => Ok(Item::Layer(layer.copy(alloc)?)),
            Item::Foreign { version, bytes } => Ok(Item::Foreign {
                version: *version,
                bytes: Items::new(Vec::from_slice(alloc, bytes.as_slice())?),
            }),
        }
    }
}
