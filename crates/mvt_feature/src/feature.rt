//! A feature: its id, its attributes and its geometry.
ghost use Rattle.std.specs.Prelude.{◌≡◌, IfOk};

use mvt_attrs::Attribute;
use mvt_base::Items;
use mvt_geometry::Geometry;
use std::alloc::{AllocError, Global};

/// What a layer shows in one place (Mapbox Vector Tile Specification 2.1, 4.2).
#[derive(Debug, Drop, PartialEq, Eq)]
pub struct Feature {
    pub id: Option<u64>,
    pub attributes: Items<Attribute>,
    pub geometry: Geometry,
}

impl Feature {
    /// An equal feature.
    ///
    /// # Errors
    ///
    /// When memory runs out.
    pub fn copy(&self, alloc: Global) -> Result<Feature, AllocError>
        ensures { IfOk result (λ copy. copy ≡ self.now) }
    {
        Ok(Feature {
            id: self.id,
            attributes: copy_attributes(alloc, self.attributes.as_slice())?,
            geometry: self.geometry.copy(alloc)?,
        })
    }
}

fn copy_attributes(alloc: Global, attributes: &[Attribute]) -> Result<Items<Attribute>, AllocError>
    ensures { IfOk result (λ copy. copy ≡ attributes.now) }
{
    let mut copies = Vec::with_capacity(alloc, attributes.len())?;
    for attribute in attributes {
        copies.push(Attribute {
            key: attribute.key.copy(alloc)?,
            value: attribute.value.copy(alloc)?,
        })?;
    }
    Ok(Items::new(copies))
}
