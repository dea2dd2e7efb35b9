//! What is found of a layer while it is read, one feature after the other.
ghost use Rattle.std.specs.Prelude.{◌≡◌, ◌∷◌, ◌++◌, ◌+◌, ◌*◌, ℕ, List, [], length, map, slice_get, Some, OnOk};
ghost use Rattle.mvt_attrs.specs.declared.value.Attribute.{Attribute};
ghost use Rattle.mvt_attrs.specs.Values.{Value as AValue};
ghost use Rattle.mvt_attrs.specs.Tags.{Names};
ghost use Rattle.mvt_feature.specs.declared.feature.Feature.{Feature as AFeature};
ghost use Rattle.mvt_tile_value.specs.Lint.{attribute_findings, is_large_value};
ghost use Rattle.mvt_tile_value.specs.Linting.{AreLinted, AreLintedSoFar, HasFound};
ghost use Rattle.mvt_tile_value.specs.Notes.{numbered};

use crate::finding::Finding;
use crate::geometry_linting::GeometryFinding;
use crate::linting::{is_large_id, is_large_value, push_found, push_if};
use mvt_attrs::LayerKeys;
use mvt_feature::{Scratch, read_value_ref};
use mvt_message::{LayerVisitor, MessageError};
use std::alloc::{AllocError, Global};

/// What is found of the features of a layer.
#[derive(Drop)]
pub(crate) struct LayerFindings {
    /// The index of the layer.
    layer: usize,
    /// Of each value of the layer, whether it is a large number.
    large: Vec<bool>,
    /// How many features there are.
    count: usize,
    /// What is found of the next feature's geometry.
    geometry: GeometryFinding,
    pub(crate) findings: Vec<Finding>,
}

impl LayerFindings {
    /// Of no features of a layer of this extent, without memory.
    pub(crate) fn new(alloc: Global, layer: usize, extent: u32) -> Self
        ensures { AreLintedSoFar layer extent [] result [] }
    {
        LayerFindings {
            layer,
            large: Vec::new(alloc),
            count: 0,
            geometry: GeometryFinding::new(layer, extent, 0),
            findings: Vec::new(alloc),
        }
    }

    /// Adds the next feature, which may have an id, has these tags, and whose geometry was told.
    fn add(&mut self, id: Option<u64>, tags: &[u32]) -> Result<(), AllocError>
        ensures { (layer extent : ℕ) (keys : List (List ℕ)) (values : List AValue)
            (features : List AFeature) (f : AFeature)
            → AreLinted layer extent values self.old features
            → HasFound layer extent (length features) f.geometry self.old.geometry → f.id ≡ id
            → Names keys values tags.now f.attributes
            → OnOk result (AreLintedSoFar layer extent values self.new (features ++ f ∷ [])) }
    {
        let findings = &mut self.findings;
        push_found(findings, self.geometry.found)?;
        let is_large = is_large_id(id);
        push_if(findings, is_large, Finding::LargeId(self.layer, self.count))?;
        lint_tags(findings, self.layer, self.count, &self.large, tags)?;
        self.count = self.count.checked_add(1).ok_or(AllocError)?;
        self.geometry.begin(self.count);
        Ok(())
    }
}

impl<'a> LayerVisitor<'a> for LayerFindings {
    ghost use Rattle.std.specs.Prelude.{ℕ, []};
    ghost use Rattle.mvt_tile_value.specs.Linting.{AreLintedSoFar};

    // The index of the layer, and its extent.
    ghost Given = { ℕ × ℕ };

    ghost has_given = { λ _ _. Unit {0} };

    ghost has_values = { λ given linted values. AreLintedSoFar given.0 given.1 values linted [] };

    ghost has_features = { λ given _ values linted _ features.
        AreLintedSoFar given.0 given.1 values linted features };

    fn visit_value(
        &mut self,
        _: Global,
        payload: &'a [u8],
        payload_at: u64,
        tag_at: u64,
    ) -> Result<(), MessageError> {
        let meaning = read_value_ref(payload, payload_at, tag_at)?;
        self.large.push(is_large_value(&meaning))?;
        Ok(())
    }

    fn visit_keys(&mut self, _: Global, _: &[&'a str], _: usize) -> Result<(), AllocError> {
        Ok(())
    }

    fn visit_feature(
        &mut self,
        alloc: Global,
        payload: &[u8],
        payload_at: u64,
        keys: &mut LayerKeys<'_>,
        values: usize,
        scratch: &mut Scratch,
    ) -> Result<(), MessageError> {
        let geometry = &mut self.geometry;
        let known = geometry.add_feature(alloc, payload, payload_at, keys, values, scratch)?;
        Ok(self.add(known.id, scratch.tags())?)
    }
}

/// Tells the large numbers among the values that these tags name.
fn lint_tags(
    findings: &mut Vec<Finding>,
    layer: usize,
    feature: usize,
    large: &[bool],
    tags: &[u32],
) -> Result<(), AllocError>
    ensures { (keys : List (List ℕ)) (values : List AValue) (attributes : List Attribute)
        → large.now ≡ map is_large_value values → Names keys values tags.now attributes
        → OnOk result (findings.new.items ≡ findings.old.items
        ++ numbered (attribute_findings layer feature) 0 attributes) }
{
    for number in 0..tags.len() / 2 {
        let is_large = is_large_at(large, tags[2 * number + 1] as usize);
        push_if(
            findings,
            is_large,
            Finding::LargeNumber(layer, feature, number),
        )?;
    }
    Ok(())
}

/// Whether the value at a place is a large number.
fn is_large_at(large: &[bool], place: usize) -> bool
    ensures { (values : List AValue) (value : AValue) → large.now ≡ map is_large_value values
        → slice_get values place ≡ Some value → result ≡ is_large_value value }
{
    place < large.len() && large[place]
}
