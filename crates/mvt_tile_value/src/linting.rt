//! What is found of a tile that viewers stumble over.
ghost use Rattle.std.specs.Prelude.{◌≡◌, ◌*◌, ◌+◌, ◌++◌, IfOk, OnOk, OnErr};
ghost use Rattle.std.specs.Option.{option_to_list};
ghost use Rattle.mvt_tile_value.specs.Notes.{numbered, note_if};
ghost use Rattle.mvt_tile_value.specs.Lint.{attribute_findings, feature_findings, findings_of, geometry_findings, is_far as the_is_far, is_far_point as the_is_far_point, is_large as the_is_large, is_large_id as the_is_large_id, is_large_value as the_is_large_value, item_findings, layer_findings, unknown_finding as the_unknown_finding, widest};

use crate::finding::Finding;
use crate::geometry_linting::GeometryFinding;
use crate::tile::Tile;
use mvt_attrs::{Attribute, ValueRef};
use mvt_feature::Feature;
use mvt_geometry::{Geometry, Point, tell_geometry};
use mvt_message::{Item, Layer};
use std::alloc::{AllocError, Global};

/// What is found of a tile that viewers stumble over, in the order of its layers, features and
/// attributes. Layers of other versions are passed over.
///
/// # Errors
///
/// When memory runs out.
pub fn lint(alloc: Global, tile: &Tile) -> Result<Vec<Finding>, AllocError>
    ensures { IfOk result (λ findings. findings.items ≡ findings_of tile.now) }
{
    let mut findings = Vec::new(alloc);
    lint_items(&mut findings, tile.items.as_slice())?;
    Ok(findings)
}

fn lint_items(findings: &mut Vec<Finding>, items: &[Item]) -> Result<(), AllocError>
    ensures { OnOk result (findings.new.items
        ≡ findings.old.items ++ numbered item_findings 0 items.now) }
{
    for (index, item) in items.iter().enumerate() {
        lint_item(findings, index, item)?;
    }
    Ok(())
}

fn lint_item(findings: &mut Vec<Finding>, index: usize, item: &Item) -> Result<(), AllocError>
    ensures { OnOk result (findings.new.items
        ≡ findings.old.items ++ item_findings index item.now) }
{
    match item {
        Item::Layer(layer) => lint_layer(findings, index, layer),
        Item::Foreign { .. } => Ok(()),
    }
}

fn lint_layer(findings: &mut Vec<Finding>, index: usize, layer: &Layer) -> Result<(), AllocError>
    ensures { OnOk result (findings.new.items
        ≡ findings.old.items ++ layer_findings index layer.now) }
{
    push_if(findings, layer.extent == 0, Finding::ZeroExtent(index))?;
    lint_features(findings, index, layer.extent, layer.features.as_slice())
}

fn lint_features(
    findings: &mut Vec<Finding>,
    layer: usize,
    extent: u32,
    features: &[Feature],
) -> Result<(), AllocError>
    ensures { OnOk result (findings.new.items
        ≡ findings.old.items ++ numbered (feature_findings layer extent) 0 features.now) }
{
    for (number, feature) in features.iter().enumerate() {
        lint_feature(findings, layer, extent, number, feature)?;
    }
    Ok(())
}

fn lint_feature(
    findings: &mut Vec<Finding>,
    layer: usize,
    extent: u32,
    number: usize,
    feature: &Feature,
) -> Result<(), AllocError>
    ensures { OnOk result (findings.new.items
        ≡ findings.old.items ++ feature_findings layer extent number feature.now) }
{
    lint_geometry(findings, layer, extent, number, &feature.geometry)?;
    let is_large = is_large_id(feature.id);
    push_if(findings, is_large, Finding::LargeId(layer, number))?;
    lint_attributes(findings, layer, number, feature.attributes.as_slice())
}

fn lint_geometry(
    findings: &mut Vec<Finding>,
    layer: usize,
    extent: u32,
    feature: usize,
    geometry: &Geometry,
) -> Result<(), AllocError>
    ensures { OnOk result (findings.new.items
        ≡ findings.old.items ++ geometry_findings layer extent feature geometry.now) }
{
    let mut visitor = GeometryFinding::new(layer, extent, feature);
    tell_geometry(&mut visitor, geometry)?;
    push_found(findings, visitor.found)
}

pub(crate) fn push_found(
    findings: &mut Vec<Finding>,
    found: Option<Finding>,
) -> Result<(), AllocError>
    ensures { OnOk result (findings.new.items ≡ findings.old.items ++ option_to_list found) }
{
    if let Some(finding) = found {
        findings.push(finding)?;
    }
    Ok(())
}

pub(crate) fn unknown_finding(layer: usize, feature: usize, integers: &[u32]) -> Finding
    ensures { result ≡ the_unknown_finding layer feature integers.now }
{
    if integers.is_empty() {
        Finding::NoGeometry(layer, feature)
    } else {
        Finding::UnknownGeometry(layer, feature)
    }
}

fn lint_attributes(
    findings: &mut Vec<Finding>,
    layer: usize,
    feature: usize,
    attributes: &[Attribute],
) -> Result<(), AllocError>
    ensures { OnOk result (findings.new.items ≡ findings.old.items
        ++ numbered (attribute_findings layer feature) 0 attributes.now) }
{
    for (number, attribute) in attributes.iter().enumerate() {
        let is_large = is_large_value(&attribute.value.lent());
        push_if(
            findings,
            is_large,
            Finding::LargeNumber(layer, feature, number),
        )?;
    }
    Ok(())
}

pub(crate) fn push_if(
    findings: &mut Vec<Finding>,
    test: bool,
    finding: Finding,
) -> Result<(), AllocError>
    ensures ok { OnOk result (findings.new.items ≡ findings.old.items ++ note_if test finding) }
    ensures left { OnErr result (findings.new.items ≡ findings.old.items) }
{
    if test {
        findings.push(finding)?;
    }
    Ok(())
}

pub(crate) fn is_far_point(extent: u32, point: Point) -> bool
    ensures { result ≡ the_is_far_point extent point }
{
    is_far(extent, point.x) || is_far(extent, point.y)
}

/// Whether a coordinate leaves 16 bits in 8192ths of the extent: a quotient is beyond a number
/// exactly if the dividend isn't below the number after it times the divisor.
fn is_far(extent: u32, coordinate: i32) -> bool
    ensures { result ≡ the_is_far extent coordinate }
{
    let dividend = u64::from(coordinate.unsigned_abs()) * 16384 + u64::from(extent);
    extent != 0 && least_beyond(extent, coordinate) <= dividend
}

/// The least dividend whose quotient is beyond what 16 bits hold.
fn least_beyond(extent: u32, coordinate: i32) -> u64
    ensures { result ≡ (widest coordinate + 1) * (2 * extent) }
{
    let extent = u64::from(extent);
    if coordinate < 0 {
        extent * 65538
    } else {
        extent * 65536
    }
}

pub(crate) fn is_large_id(id: Option<u64>) -> bool
    ensures { result ≡ the_is_large_id id }
{
    match id {
        Some(id) => is_large(id),
        None => false,
    }
}

pub(crate) fn is_large_value(value: &ValueRef<'_>) -> bool
    ensures { result ≡ the_is_large_value value.now }
{
    match value {
        ValueRef::Int(number) | ValueRef::Sint(number) => is_large(number.unsigned_abs()),
        ValueRef::Uint(number) => is_large(*number),
        ValueRef::Text(_) | ValueRef::Float(_) | ValueRef::Double(_) | ValueRef::Bool(_) => false,
    }
}

/// Whether a number of JavaScript can't tell an integer from its neighbours.
fn is_large(number: u64) -> bool
    ensures { result ≡ the_is_large number }
{
    number > 9_007_199_254_740_991
}
