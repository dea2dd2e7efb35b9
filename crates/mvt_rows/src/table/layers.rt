//! The rows of features and layers.
ghost use Rattle.std.specs.Prelude.{◌≡◌, ◌-◌, OnErr, OnOk};
ghost use Rattle.mvt_feature.specs.Canonical.{type_number};
ghost use Rattle.mvt_rows.specs.Tables.{with_feature_row, with_foreign, with_layer_row, without_values};

use super::{Table, after_list};
use crate::places::Places;
use crate::rows::{FeatureRow, LayerRow, Span};
use mvt_feature::FeatureFields;
use mvt_geometry::Kind;
use std::alloc::AllocError;

/// What was added to a list that had so many entries.
pub(super) fn added(before: usize, now: usize) -> Span
    ensures { result ≡ record { start = before; len = now - before } }
{
    after_list(before, now.saturating_sub(before))
}

/// The number of a geometry's type (4.3.4).
fn type_of(kind: Kind) -> u32
    ensures { result ≡ type_number kind }
{
    match kind {
        Kind::Unknown => 0,
        Kind::Point => 1,
        Kind::LineString => 2,
        Kind::Polygon => 3,
    }
}

impl Table {
    /// Adds the row of a feature whose parts and integers stand after these places, and its tags as
    /// they stand; nothing if memory runs out.
    pub(super) fn add_feature_row(
        &mut self,
        tags: &[u32],
        known: FeatureFields,
        opened: Places,
    ) -> Result<(), AllocError>
        ensures ok { OnOk result (self.new ≡ with_feature_row tags.now self.old known opened) }
        ensures err { OnErr result (self.new ≡ self.old) }
    {
        let row = FeatureRow {
            id: known.id.unwrap_or(0),
            has_id: u32::from(known.id.is_some()),
            kind: type_of(known.kind),
            tags: after_list(self.tags.len(), tags.len()),
            parts: added(opened.parts, self.parts.len()),
            integers: added(opened.integers, self.integers.len()),
        };
        self.features.reserve(1)?;
        self.tags.extend_from_slice(tags)?;
        self.features.push(row).unwrap();
        Ok(())
    }

    /// Adds the row of a layer whose features, keys and values stand after these places, and its
    /// name.
    pub(super) fn add_layer_row(
        &mut self,
        name: &str,
        extent: u32,
        opened: Places,
    ) -> Result<(), AllocError>
        ensures { OnOk result (self.new ≡ with_layer_row self.old name.now extent opened) }
    {
        self.add_named_row(name.as_bytes(), extent, opened)
    }

    /// The same with a name that may not be UTF-8.
    pub(crate) fn add_named_row(
        &mut self,
        name: &[u8],
        extent: u32,
        opened: Places,
    ) -> Result<(), AllocError>
        ensures { OnOk result (self.new ≡ with_layer_row self.old name.now extent opened) }
    {
        self.layers.push(LayerRow {
            version: 2,
            extent,
            name: after_list(self.texts.len(), name.len()),
            features: added(opened.features, self.features.len()),
            keys: added(opened.keys, self.keys.len()),
            values: added(opened.values, self.values.len()),
            bytes: after_list(0, 0),
        })?;
        self.texts.extend_from_slice(name)
    }

    /// Drops what stands after these places of values and texts.
    pub(super) fn forget_values(&mut self, opened: Places)
        ensures { self.new ≡ without_values self.old opened }
    {
        self.values.truncate(opened.values);
        self.texts.truncate(opened.texts);
    }

    /// Adds a layer of another version, which is carried as it is.
    pub(crate) fn add_foreign(&mut self, version: u32, bytes: &[u8]) -> Result<(), AllocError>
        ensures { OnOk result (self.new ≡ with_foreign self.old version bytes.now) }
    {
        let nowhere = after_list(0, 0);
        self.layers.push(LayerRow {
            version,
            extent: 0,
            name: nowhere,
            features: nowhere,
            keys: nowhere,
            values: nowhere,
            bytes: after_list(self.texts.len(), bytes.len()),
        })?;
        self.texts.extend_from_slice(bytes)
    }
}
