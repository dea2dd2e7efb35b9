//! Rows as a builder adds them.
ghost use Rattle.std.specs.Prelude.{◌≡◌, ◌-◌, ◌++◌, ◌∷◌, [], length, take, unwrap_or, is_some, None, IfOk, OnOk};
ghost use Rattle.std.specs.List.{fold};
ghost use Rattle.mvt_rows.specs.Tables.{truth_number, with_key};
ghost use Rattle.mvt_rows.specs.ToldRows.{with_given};

use super::layers::added;
use super::{Table, after_list};
use crate::builder::OpenFeature;
use crate::rows::{FeatureRow, PartRow, PointRow, ValueRow};
use crate::words::{Given, Word};
use std::alloc::{AllocError, Global};

impl Table {
    /// Adds the keys of a layer, one by one.
    pub(crate) fn add_words(&mut self, keys: &[Word]) -> Result<(), AllocError>
        ensures { OnOk result (self.new ≡ fold with_key self.old keys.now) }
    {
        for key in keys {
            self.add_word(key.as_bytes())?;
        }
        Ok(())
    }

    pub(super) fn add_word(&mut self, key: &[u8]) -> Result<(), AllocError>
        ensures { OnOk result (self.new ≡ with_key self.old key.now) }
    {
        let text = after_list(self.texts.len(), key.len());
        self.keys.push(text)?;
        self.texts.extend_from_slice(key)
    }

    /// Adds the values of a layer, one by one.
    pub(crate) fn add_given(&mut self, values: &[Given]) -> Result<(), AllocError>
        ensures { OnOk result (self.new ≡ fold with_given self.old values.now) }
    {
        for value in values {
            self.add_one(value)?;
        }
        Ok(())
    }

    fn add_one(&mut self, value: &Given) -> Result<(), AllocError>
        ensures { OnOk result (self.new ≡ with_given self.old value.now) }
    {
        if value.kind != 1 {
            return self.add_number(value.kind, value.bits);
        }
        let text = value.text.as_bytes();
        let place = after_list(self.texts.len(), text.len());
        self.values.push(ValueRow {
            kind: 1,
            bits: 0,
            text: place,
        })?;
        self.texts.extend_from_slice(text)
    }

    /// Adds tags of the feature that has begun.
    pub(crate) fn add_tags(&mut self, tags: &[u32]) -> Result<(), AllocError>
        ensures { OnOk result (self.new ≡ record self.old { tags = self.old.tags ++ tags.now }) }
    {
        self.tags.extend_from_slice(tags)
    }

    /// Adds points of the part that has begun.
    pub(crate) fn add_points(&mut self, points: &[PointRow]) -> Result<(), AllocError>
        ensures { OnOk result
            (self.new ≡ record self.old { points = self.old.points ++ points.now }) }
    {
        self.points.extend_from_slice(points)
    }

    /// Adds integers of the feature that has begun.
    pub(crate) fn add_integers(&mut self, integers: &[u32]) -> Result<(), AllocError>
        ensures { OnOk result
            (self.new ≡ record self.old { integers = self.old.integers ++ integers.now }) }
    {
        self.integers.extend_from_slice(integers)
    }

    pub(crate) fn point_count(&self) -> usize
        ensures { result ≡ length self.now.points }
    {
        self.points.len()
    }

    /// Adds the row of a part whose points begin at a place.
    pub(crate) fn add_part_row(&mut self, exterior: bool, start: usize) -> Result<(), AllocError>
        ensures { OnOk result (self.new ≡ record self.old {
          parts = self.old.parts ++ record {
            exterior = truth_number exterior;
            points = record { start = start; len = length self.old.points - start };
          } ∷ [];
        }) }
    {
        let points = added(start, self.points.len());
        self.parts.push(PartRow {
            exterior: u32::from(exterior),
            points,
        })?;
        Ok(())
    }

    /// Where the lists end, for a feature of a kind that begins.
    pub(crate) fn open_feature(&self, kind: u32) -> OpenFeature
        ensures { result ≡ record {
          kind = kind;
          id = None;
          tags_at = length self.now.tags;
          parts_at = length self.now.parts;
          points_at = length self.now.points;
          integers_at = length self.now.integers;
        } }
    {
        OpenFeature {
            kind,
            id: None,
            tags_at: self.tags.len(),
            parts_at: self.parts.len(),
            points_at: self.points.len(),
            integers_at: self.integers.len(),
        }
    }

    /// Adds the row of the feature that has begun.
    pub(crate) fn add_open_feature(&mut self, begun: OpenFeature) -> Result<(), AllocError>
        ensures { OnOk result (self.new ≡ record self.old {
          features = self.old.features ++ record {
            id = unwrap_or begun.id 0;
            has_id = truth_number (is_some begun.id);
            kind = begun.kind;
            tags = record { start = begun.tags_at; len = length self.old.tags - begun.tags_at };
            parts = record { start = begun.parts_at; len = length self.old.parts - begun.parts_at };
            integers = record {
              start = begun.integers_at;
              len = length self.old.integers - begun.integers_at;
            };
          } ∷ [];
        }) }
    {
        self.features.push(FeatureRow {
            id: begun.id.unwrap_or(0),
            has_id: u32::from(begun.id.is_some()),
            kind: begun.kind,
            tags: added(begun.tags_at, self.tags.len()),
            parts: added(begun.parts_at, self.parts.len()),
            integers: added(begun.integers_at, self.integers.len()),
        })?;
        Ok(())
    }

    /// Drops what was added since the feature began.
    pub(crate) fn forget_feature(&mut self, begun: OpenFeature)
        ensures { self.new ≡ record self.old {
          tags = take begun.tags_at self.old.tags;
          parts = take begun.parts_at self.old.parts;
          points = take begun.points_at self.old.points;
          integers = take begun.integers_at self.old.integers;
        } }
    {
        self.tags.truncate(begun.tags_at);
        self.parts.truncate(begun.parts_at);
        self.points.truncate(begun.points_at);
        self.integers.truncate(begun.integers_at);
    }

    /// The same rows in lists of their own.
    pub(crate) fn copied(&self, alloc: Global) -> Result<Table, AllocError>
        ensures { IfOk result (λ copy. copy ≡ self.now) }
    {
        Ok(Table {
            layers: copy_of(alloc, &self.layers)?,
            features: copy_of(alloc, &self.features)?,
            keys: copy_of(alloc, &self.keys)?,
            values: copy_of(alloc, &self.values)?,
            tags: copy_of(alloc, &self.tags)?,
            parts: copy_of(alloc, &self.parts)?,
            points: copy_of(alloc, &self.points)?,
            integers: copy_of(alloc, &self.integers)?,
            texts: copy_of(alloc, &self.texts)?,
        })
    }
}

fn copy_of<T: Copy>(alloc: Global, list: &[T]) -> Result<Vec<T>, AllocError>
    ensures { IfOk result (λ copy. copy.items ≡ list.now) }
{
    let mut copy = Vec::new(alloc);
    copy.extend_from_slice(list)?;
    Ok(copy)
}
