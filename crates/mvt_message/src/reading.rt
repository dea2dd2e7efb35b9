//! Reading an item, and judging one (Mapbox Vector Tile Specification 2.1, 4.1).
ghost use Rattle.std.specs.Prelude.{◌≡◌, ◌+◌, ◌^◌, ◌<◌, ◌≤◌, [], length, None, IfOk, IfErr, OnOk};
ghost use Rattle.std.specs.Option.{option_copied, option_to_list};
ghost use Rattle.mvt_base.specs.Reports.{Reports};
ghost use Rattle.mvt_feature.specs.Faults.{fault_of};
ghost use Rattle.mvt_message.specs.ItemRules.{item_fault, payload_names};
ghost use Rattle.mvt_message.specs.Items.{IsItem};
ghost use Rattle.mvt_message.specs.ValidItems.{ValidItem};

use crate::item::{Item, Layer};
use crate::visiting::{LayerVisitor, Visited, visit_version_2};
use mvt_attrs::{LayerKeys, Value};
use mvt_base::{Items, LIMIT, Text};
use mvt_feature::{
    Feature, MessageError, Scratch, judge_feature, judge_value, read_feature_in, read_value,
};
use std::alloc::{AllocError, Global};

/// The item of a payload whose first byte stands at `payload_at`, and the tag of its field at
/// `tag_at`.
///
/// # Errors
///
/// The first broken rule: the payload splits into fields, the versions and that there is one; in a
/// layer of version 2 the other fields in order, that there is a name, each value in order, each
/// feature in order.
pub fn read_item(
    alloc: Global,
    payload: &[u8],
    payload_at: u64,
    tag_at: u64,
) -> Result<Item, MessageError>
    requires small { length payload.now ≤ LIMIT }
    requires fits { payload_at + length payload.now < 2 ^ 64 }
    ensures ok { OnOk result (item_fault payload.now payload_at tag_at ≡ None) }
    ensures item { IfOk result (λ item. IsItem payload.now item) }
    ensures valid { IfOk result (λ item. ValidItem item) }
    ensures fault { IfErr result (λ error. Reports (fault_of error)
        (item_fault payload.now payload_at tag_at)) }
{
    let mut kept = LayerKeeper::new(alloc);
    match visit_version_2(alloc, &mut kept, payload, payload_at, tag_at) {
        Ok(Visited::Layer { name, extent }) => Ok(Item::Layer(Layer {
            name: Text::from_str(alloc, name)?,
            extent,
            features: Items::new(kept.features),
        })),
        Ok(Visited::Foreign { version }) => Ok(Item::Foreign {
            version,
            bytes: Items::new(Vec::from_slice(alloc, payload)?),
        }),
        Err(error) => Err(error),
    }
}

/// Whether a payload is an item, and the layer's name. Builds only the list of the layer's keys.
///
/// # Errors
///
/// As `read_item`.
pub fn judge_item<'a>(
    alloc: Global,
    payload: &'a [u8],
    payload_at: u64,
    tag_at: u64,
) -> Result<Option<&'a str>, MessageError>
    requires small { length payload.now ≤ LIMIT }
    requires fits { payload_at + length payload.now < 2 ^ 64 }
    ensures ok { OnOk result (item_fault payload.now payload_at tag_at ≡ None) }
    ensures names { IfOk result (λ name. option_to_list (option_copied name)
        ≡ payload_names payload.now) }
    ensures fault { IfErr result (λ error. Reports (fault_of error)
        (item_fault payload.now payload_at tag_at)) }
{
    match visit_version_2(alloc, &mut LayerJudge, payload, payload_at, tag_at) {
        Ok(Visited::Layer { name, .. }) => Ok(Some(name)),
        Ok(Visited::Foreign { .. }) => Ok(None),
        Err(error) => Err(error),
    }
}

/// Keeps the values of a layer and its features.
#[derive(Drop)]
struct LayerKeeper {
    values: Vec<Value>,
    features: Vec<Feature>,
}

impl LayerKeeper {
    fn new(alloc: Global) -> Self
        ensures values { result.values.items ≡ [] }
        ensures features { result.features.items ≡ [] }
    {
        LayerKeeper {
            values: Vec::new(alloc),
            features: Vec::new(alloc),
        }
    }
}

impl<'a> LayerVisitor<'a> for LayerKeeper {
    ghost use Rattle.std.specs.Prelude.{◌≡◌, []};

    ghost Given = { Unit {0} };

    ghost has_given = { λ _ kept. Unit {0} };

    ghost has_values = { λ _ kept values. (kept.values.items ≡ values)
        × (kept.features.items ≡ []) };

    ghost has_features = { λ _ keys values kept _ features. (kept.values.items ≡ values)
        × (kept.features.items ≡ features) };

    fn visit_value(
        &mut self,
        alloc: Global,
        payload: &'a [u8],
        payload_at: u64,
        tag_at: u64,
    ) -> Result<(), MessageError> {
        self.values
            .push(read_value(alloc, payload, payload_at, tag_at)?)?;
        Ok(())
    }

    fn visit_keys(&mut self, _: Global, _: &[&'a str], features: usize) -> Result<(), AllocError> {
        self.features.reserve(features)
    }

    fn visit_feature(
        &mut self,
        alloc: Global,
        payload: &[u8],
        payload_at: u64,
        keys: &mut LayerKeys<'_>,
        _: usize,
        scratch: &mut Scratch,
    ) -> Result<(), MessageError> {
        let feature = read_feature_in(alloc, payload, payload_at, keys, &self.values, scratch)?;
        self.features.push(feature)?;
        Ok(())
    }
}

/// Keeps nothing: whether each value and each feature is one is all that is found out.
#[derive(Drop)]
struct LayerJudge;

impl<'a> LayerVisitor<'a> for LayerJudge {
    ghost Given = { Unit {0} };

    ghost has_given = { λ _ _. Unit {0} };

    ghost has_values = { λ _ _ _. Unit {0} };

    ghost has_features = { λ _ _ _ _ _ _. Unit {0} };

    fn visit_value(
        &mut self,
        _: Global,
        payload: &'a [u8],
        payload_at: u64,
        tag_at: u64,
    ) -> Result<(), MessageError> {
        judge_value(payload, payload_at, tag_at)
    }

    fn visit_keys(&mut self, _: Global, _: &[&'a str], _: usize) -> Result<(), AllocError> {
        Ok(())
    }

    fn visit_feature(
        &mut self,
        alloc: Global,
        payload: &[u8],
        payload_at: u64,
        keys: &mut LayerKeys<'_>,
        values: usize,
        scratch: &mut Scratch,
    ) -> Result<(), MessageError> {
        judge_feature(alloc, payload, payload_at, keys, values, scratch)
    }
}
