//! A layer of rows written feature by feature.
ghost use Rattle.std.specs.Prelude.{◌≡◌, ◌∷◌, ◌++◌, [], List, None, Some, IfOk, IfErr, OnOk};
ghost use Rattle.mvt_base.specs.declared.TheConstants.{LIMIT as the_limit};
ghost use Rattle.mvt_base.specs.Related.{AreRelated};
ghost use Rattle.mvt_attrs.specs.Values.{Value as AValue};
ghost use Rattle.mvt_attrs.specs.FirstUses.{lent};
ghost use Rattle.mvt_feature.specs.declared.feature.Feature.{Feature};
ghost use Rattle.mvt_message.specs.declared.item.Layer.{Layer};
ghost use Rattle.mvt_message.specs.Rewriting.{HasWrittenUpTo, IsPayloadOf};
ghost use Rattle.mvt_rows.specs.Lent.{table_of};
ghost use Rattle.mvt_rows.specs.RowsFaults.{IsFeatureWrong, IsFeatureWrongIn, IsInsideWrong, IsValidFeatureOf, IsValidLayerOf, parts_cause};
ghost use Rattle.mvt_rows.specs.TileRows.{text_of};
ghost use Rattle.mvt_rows.specs.Writing.{AreInRange, AreLayerParts};
ghost use Rattle.mvt_rows.specs.Written.{IfWrong, IsWrongAs};

use super::features::feature_parts;
use super::parts::{keys, part};
use super::values::values;
use crate::rows::{FeatureRow, LayerRow, Rows};
use crate::rows_cause::RowsCause;
use crate::rows_error::{RowError, if_any};
use crate::work::Work;
use mvt_attrs::{LayerKeys, ValueRef};
use mvt_feature::Scratch;
use mvt_message::LayerWriter;
use mvt_wire::PackedNumbers;
use std::alloc::Global;

/// The canonical payload of the layer of a row with this name; `None` if its features alone are
/// more bytes than the limit.
pub(crate) fn layer_payload(
    alloc: Global,
    rows: &Rows<'_>,
    row: &LayerRow,
    name: &str,
    work: &mut Work,
) -> Result<Option<Vec<u8>>, RowError>
    requires { text_of rows.now.texts.now row.now.name ≡ Some name.now }
    ensures payload { IfOk result (λ payload. (layer : Layer)
        × IsValidLayerOf (table_of rows.now) row.now layer × IsPayloadOf the_limit layer payload) }
    ensures clean { OnOk result (parts_cause (table_of rows.now) row.now ≡ None) }
    ensures wrong { IfErr result (IfWrong (IsInsideWrong (table_of rows.now) row.now)) }
{
    let parts = layer_parts(alloc, rows, row, work)?;
    let LayerParts {
        keys,
        values,
        rows: of_layer,
    } = parts;
    let keys = keys.as_slice();
    let mut writer = LayerWriter::new(alloc);
    writer.take_values(values)?;
    writer.add_keys(keys)?;
    write_features(alloc, rows, keys, of_layer, work, &mut writer)?;
    Ok(writer.payload(alloc, name, row.extent)?)
}

/// What the row of a layer names.
#[derive(Drop)]
struct LayerParts<'a> {
    keys: Vec<&'a str>,
    values: Vec<ValueRef<'a>>,
    rows: &'a [FeatureRow],
}

fn layer_parts<'a>(
    alloc: Global,
    rows: &Rows<'a>,
    row: &LayerRow,
    work: &mut Work,
) -> Result<LayerParts<'a>, RowError>
    ensures parts { IfOk result (AreLayerParts (table_of rows.now) row.now) }
    ensures clean { OnOk result (parts_cause (table_of rows.now) row.now ≡ None) }
    ensures wrong { IfErr result (IsWrongAs (parts_cause (table_of rows.now) row.now)) }
{
    let Some(spans) = if_any(part(rows.keys, row.keys, work))? else {
        return Err(RowError::Wrong(None, RowsCause::KeysSpan));
    };
    let Some(keys) = if_any(keys(alloc, rows.texts, spans, work))? else {
        return Err(RowError::Wrong(None, RowsCause::Key));
    };
    let Some(of_values) = if_any(part(rows.values, row.values, work))? else {
        return Err(RowError::Wrong(None, RowsCause::ValuesSpan));
    };
    let Some(values) = if_any(values(alloc, rows.texts, of_values, work))? else {
        return Err(RowError::Wrong(None, RowsCause::Value));
    };
    let Some(rows) = if_any(part(rows.features, row.features, work))? else {
        return Err(RowError::Wrong(None, RowsCause::FeaturesSpan));
    };
    Ok(LayerParts { keys, values, rows })
}

/// Lists that are used again from feature to feature.
#[derive(Drop)]
struct FeatureLists {
    scratch: Scratch,
    /// The integers that draw the feature's geometry.
    integers: PackedNumbers,
}

impl FeatureLists {
    fn new(alloc: Global) -> Self {
        FeatureLists {
            scratch: Scratch::new(alloc),
            integers: PackedNumbers::new(alloc),
        }
    }
}

/// Writes the features of a layer with these keys.
fn write_features(
    alloc: Global,
    rows: &Rows<'_>,
    keys: &[&str],
    of_layer: &[FeatureRow],
    work: &mut Work,
    writer: &mut LayerWriter<'_>,
) -> Result<(), RowError>
    ensures written { (values : List AValue) → AreInRange (lent keys.now) values
        → HasWrittenUpTo the_limit (lent keys.now) values writer.old []
        → OnOk result ((features : List Feature)
        × AreRelated (IsValidFeatureOf (table_of rows.now) (lent keys.now) values) of_layer.now
        features
        × HasWrittenUpTo the_limit (lent keys.now) values writer.new features) }
    ensures wrong { (values : List AValue) → AreInRange (lent keys.now) values
        → HasWrittenUpTo the_limit (lent keys.now) values writer.old []
        → IfErr result (IfWrong (IsFeatureWrongIn (table_of rows.now) (lent keys.now) values
        of_layer.now)) }
{
    let mut layer_keys = LayerKeys::new(alloc, keys);
    let mut lists = FeatureLists::new(alloc);
    for (index, row) in of_layer.iter().enumerate() {
        let keys = &mut layer_keys;
        match write_feature(alloc, rows, row, keys, work, &mut lists, writer) {
            Ok(()) => {}
            Err(error) => return Err(error.at_feature(index)),
        }
    }
    Ok(())
}

/// Judges the feature of a row, and writes it.
fn write_feature(
    alloc: Global,
    rows: &Rows<'_>,
    row: &FeatureRow,
    keys: &mut LayerKeys<'_>,
    work: &mut Work,
    lists: &mut FeatureLists,
    writer: &mut LayerWriter<'_>,
) -> Result<(), RowError>
    ensures written { (values : List AValue) (features : List Feature)
        → AreInRange keys.old values
        → HasWrittenUpTo the_limit keys.old values writer.old features
        → OnOk result ((f : Feature)
        × IsValidFeatureOf (table_of rows.now) keys.old values row.now f
        × HasWrittenUpTo the_limit keys.old values writer.new (features ++ f ∷ [])) }
    ensures wrong { (values : List AValue) (features : List Feature)
        → HasWrittenUpTo the_limit keys.old values writer.old features
        → IfErr result (IfWrong (IsFeatureWrong (table_of rows.now) keys.old values row.now)) }
    ensures same { keys.new ≡ keys.old }
{
    let values = writer.value_count();
    let FeatureLists { scratch, integers } = lists;
    let parts = feature_parts(alloc, rows, keys, values, row, work, integers)?;
    let kind = match parts.kind {
        Ok(kind) => kind,
        Err(undrawn) => return Err(RowError::Wrong(None, RowsCause::Drawing(undrawn))),
    };
    Ok(writer.add_drawn_feature(parts.id, parts.tags, kind, integers, scratch)?)
}
