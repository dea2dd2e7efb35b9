//! Features made by hand.
use mvt_attrs::{Attribute, Value};
use mvt_base::{Items, Text};
use mvt_feature::Feature;
use mvt_geometry::{Geometry, Point};
use std::alloc::{AllocError, Global};
use std::process::Abort;

// More keys than are compared without memory.
pub(crate) const KEYS: [&str; 17] = [
    "a", "b", "c", "d", "e", "f", "g", "h", "i", "j", "k", "l", "m", "n", "o", "p", "q",
];

// The same, but the last is the first again.
pub(crate) fn repeated_keys() -> [&'static str; 17] {
    let mut keys = KEYS;
    keys[16] = "a";
    keys
}

pub(crate) fn point(alloc: Global, x: i32, y: i32) -> Result<Geometry, AllocError> {
    let points = Vec::from_slice(alloc, &[Point { x, y }])?;
    Ok(Geometry::Points(Items::new(points)))
}

// A feature with the point (25,17), and these keys with the value 5 each.
pub(crate) fn feature_with(alloc: Global, keys: &[&str]) -> Result<Feature, AllocError> {
    let mut attributes = Vec::with_capacity(alloc, keys.len())?;
    for key in keys {
        let key = Text::from_str(alloc, key)?;
        let value = Value::Uint(5);
        attributes.push(Attribute { key, value })?;
    }
    Ok(Feature {
        id: None,
        attributes: Items::new(attributes),
        geometry: point(alloc, 25, 17)?,
    })
}

// The same with memory that isn't refused.
pub(crate) fn made_with(rt: &(impl Abort + AllocGlobal), keys: &[&str]) -> Feature {
    feature_with(rt.alloc(), keys).expect(rt, "a feature")
}
