//! Which features can be written.
ghost use Rattle.std.specs.Prelude.{◌≡◌, ◌↔◌, ◌<◌, length, IfOk, OnErr, IsTrue};
ghost use Rattle.std.specs.List.{AllByRecursion};
ghost use Rattle.mvt_attrs.specs.Tags.{HasDistinctKeys, has_key};
ghost use Rattle.mvt_feature.specs.Valid.{ValidValue, ValidAttribute, ValidFeature};

use crate::feature::Feature;
use mvt_attrs::{Attribute, Value};
use mvt_geometry::is_valid_geometry;
use std::alloc::{AllocError, Global};
use std::collections::BTreeSet;

/// The most attributes among which a repeated key is looked for without memory.
const MOST_COMPARED: usize = 16;

/// Whether a feature can be written, without memory: no two attributes have one key, and integers
/// draw the geometry.
pub fn is_valid_feature(feature: &Feature) -> bool
    ensures { IsTrue result ↔ ValidFeature feature.now }
{
    // Read for the proof, which so knows its range.
    if let Some(id) = feature.id {
        let _id = id;
    }
    have_distinct_keys(feature.attributes.as_slice()) && is_valid_geometry(&feature.geometry)
}

/// Whether a feature can be written, in n log n time for n attributes. Up to 16 need no memory.
///
/// # Errors
///
/// When memory runs out.
pub fn validate_feature(alloc: Global, feature: &Feature) -> Result<bool, AllocError>
    ensures valid { IfOk result (λ valid. IsTrue valid ↔ ValidFeature feature.now) }
    ensures few { OnErr result (16 < length feature.now.attributes) }
{
    let attributes = feature.attributes.as_slice();
    if attributes.len() <= MOST_COMPARED {
        return Ok(is_valid_feature(feature));
    }
    // Read for the proof, which so knows its range.
    if let Some(id) = feature.id {
        let _id = id;
    }
    Ok(have_keys_apart(alloc, attributes)? && is_valid_geometry(&feature.geometry))
}

/// Whether no two attributes have one key. What they hold is in the range of its type.
fn have_distinct_keys(attributes: &[Attribute]) -> bool
    ensures distinct { IsTrue result ↔ HasDistinctKeys attributes.now }
    ensures valid { IsTrue result → AllByRecursion ValidAttribute attributes.now }
{
    for (i, attribute) in attributes.iter().enumerate() {
        let key = attribute.key.as_str();
        see_range(&attribute.value);
        if has_key(&attributes[..i], key) {
            return false;
        }
    }
    true
}

/// The same by a set of the keys so far.
fn have_keys_apart(alloc: Global, attributes: &[Attribute]) -> Result<bool, AllocError>
    ensures distinct { IfOk result (λ distinct. IsTrue distinct ↔ HasDistinctKeys attributes.now) }
    ensures valid { IfOk result (λ distinct. IsTrue distinct
        → AllByRecursion ValidAttribute attributes.now) }
{
    let mut keys = BTreeSet::new(alloc);
    for attribute in attributes {
        let key = attribute.key.as_str();
        see_range(&attribute.value);
        if !keys.insert(key)? {
            return Ok(false);
        }
    }
    Ok(true)
}

/// A value is in the range of its type: it is read for the proof alone.
#[inline]
fn see_range(value: &Value)
    ensures { ValidValue value.now }
{
    match value {
        Value::Text(text) => {
            let _text = text.as_str();
        }
        Value::Float(bits) => {
            let _bits = *bits;
        }
        Value::Double(bits) => {
            let _bits = *bits;
        }
        Value::Int(number) => {
            let _number = *number;
        }
        Value::Uint(number) => {
            let _number = *number;
        }
        Value::Sint(number) => {
            let _number = *number;
        }
        Value::Bool(_) => {}
    }
}

fn has_key(attributes: &[Attribute], key: &str) -> bool
    ensures { result ≡ has_key key.now attributes.now }
{
    attributes
        .iter()
        .any(|attribute| attribute.key.as_str() == key)
}
