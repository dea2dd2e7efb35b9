//! The lists of a tile's rows, as they grow.
ghost use Rattle.std.specs.Prelude.{◌≡◌, ℕ, IsUtf8, OnOk, OnErr, nat_le};
ghost use Rattle.std.specs.List.{AllByRecursion, fold};
ghost use Rattle.mvt_attrs.specs.declared.value.ValueOf.TheVariants as values;
ghost use Rattle.mvt_attrs.specs.FirstUses.{lent};
ghost use Rattle.mvt_geometry.specs.Visiting.{Part, EndsAs};
ghost use Rattle.mvt_rows.specs.Lent.{table_of};
ghost use Rattle.mvt_rows.specs.ReadTables.{places_of};
ghost use Rattle.mvt_rows.specs.Tables.{no_rows, with_key, with_value, with_number, table_size};

mod building;
mod drawing;
mod layers;
mod visiting;

use crate::places::Places;
use crate::rows::{FeatureRow, LayerRow, PartRow, PointRow, Rows, Span, ValueRow};
use mvt_attrs::ValueRef;
use mvt_geometry::{GeometryVisitor, Point, Ring};
use std::alloc::{AllocError, Global};
use std::marker::Model;
pub use visiting::{RowsDecoder, RowsVisitor, read_layer, read_rows, read_rows_within};

/// The rows of a tile.
#[derive(Drop)]
pub struct Table {
    layers: Vec<LayerRow>,
    features: Vec<FeatureRow>,
    keys: Vec<Span>,
    values: Vec<ValueRow>,
    tags: Vec<u32>,
    parts: Vec<PartRow>,
    points: Vec<PointRow>,
    integers: Vec<u32>,
    texts: Vec<u8>,
}

impl Model for Table {
    ghost use Rattle.mvt_rows.specs.Tables.{Table as Rows};

    ghost Value = { Rows };

    ghost view = { λ t. record {
      layers = t.layers.items;
      features = t.features.items;
      keys = t.keys.items;
      values = t.values.items;
      tags = t.tags.items;
      parts = t.parts.items;
      points = t.points.items;
      integers = t.integers.items;
      texts = t.texts.items;
    } };
}

/// Where so many entries stand after a list.
fn after_list(start: usize, len: usize) -> Span
    ensures { result ≡ record { start = start; len = len } }
{
    Span {
        start: start as u64,
        len: len as u64,
    }
}

/// A list, handed out. One without entries gives its memory back.
fn handed_out<'a, T: Drop + 'a>(list: Vec<T>) -> &'a [T]
    ensures { result.now ≡ list.items }
{
    if list.is_empty() {
        return &[];
    }
    list.leak()
}

impl Table {
    pub(crate) fn new(alloc: Global) -> Self
        ensures { result ≡ no_rows }
    {
        Table {
            layers: Vec::new(alloc),
            features: Vec::new(alloc),
            keys: Vec::new(alloc),
            values: Vec::new(alloc),
            tags: Vec::new(alloc),
            parts: Vec::new(alloc),
            points: Vec::new(alloc),
            integers: Vec::new(alloc),
            texts: Vec::new(alloc),
        }
    }

    /// Makes room for the rows of a tile of so many bytes, and of a large one for the first of
    /// them.
    pub(crate) fn make_room(&mut self, len: usize) -> Result<(), AllocError>
        ensures { self.new ≡ self.old }
    {
        self.features.reserve((len / 32).min(64))?;
        self.keys.reserve((len / 16).min(16))?;
        self.values.reserve((len / 16).min(64))?;
        self.tags.reserve((len / 4).min(256))?;
        self.parts.reserve((len / 32).min(64))?;
        self.points.reserve((len / 3).min(512))?;
        self.texts.reserve((len / 2).min(1024))
    }

    pub(crate) fn places(&self) -> Places
        ensures { result ≡ places_of self.now }
    {
        Places {
            features: self.features.len(),
            keys: self.keys.len(),
            values: self.values.len(),
            parts: self.parts.len(),
            integers: self.integers.len(),
            texts: self.texts.len(),
        }
    }

    /// Whether the lists have at most so many bytes.
    pub fn is_within(&self, most: u64) -> bool
        ensures { result ≡ nat_le (table_size self.now) most }
    {
        let size = 88 * self.layers.len() as u128
            + 64 * self.features.len() as u128
            + 16 * self.keys.len() as u128
            + 32 * self.values.len() as u128
            + 4 * self.tags.len() as u128
            + 24 * self.parts.len() as u128
            + 8 * self.points.len() as u128
            + 4 * self.integers.len() as u128
            + self.texts.len() as u128;
        size <= most as u128
    }

    /// The lists, lent.
    pub fn lent(&self) -> Rows<'_>
        ensures { table_of result ≡ self.now }
    {
        Rows {
            layers: &self.layers,
            features: &self.features,
            keys: &self.keys,
            values: &self.values,
            tags: &self.tags,
            parts: &self.parts,
            points: &self.points,
            integers: &self.integers,
            texts: &self.texts,
        }
    }

    /// The lists, handed out: they last until whoever has them frees them.
    pub fn leak(self) -> Rows<'static>
        ensures { table_of result ≡ self }
    {
        let Table {
            layers,
            features,
            keys,
            values,
            tags,
            parts,
            points,
            integers,
            texts,
        } = self;
        Rows {
            layers: handed_out(layers),
            features: handed_out(features),
            keys: handed_out(keys),
            values: handed_out(values),
            tags: handed_out(tags),
            parts: handed_out(parts),
            points: handed_out(points),
            integers: handed_out(integers),
            texts: handed_out(texts),
        }
    }

    fn add_key(&mut self, key: &str) -> Result<(), AllocError>
        ensures key { OnOk result (self.new ≡ with_key self.old key.now) }
        ensures utf8 { IsUtf8 key.now }
    {
        self.add_word(key.as_bytes())
    }

    fn add_number(&mut self, kind: u32, bits: u64) -> Result<(), AllocError>
        ensures ok { OnOk result (self.new ≡ with_number self.old kind bits) }
        ensures err { OnErr result (self.new ≡ self.old) }
    {
        self.values.push(ValueRow {
            kind,
            bits,
            text: after_list(0, 0),
        })?;
        Ok(())
    }

    fn add_text(&mut self, text: &str) -> Result<(), AllocError>
        ensures ok { OnOk result (self.new ≡ with_value self.old (values.Text text.now)) }
        ensures err { OnErr result (self.new ≡ self.old) }
    {
        let place = after_list(self.texts.len(), text.len());
        self.values.reserve(1)?;
        self.texts.extend_from_slice(text.as_bytes())?;
        self.values
            .push(ValueRow {
                kind: 1,
                bits: 0,
                text: place,
            })
            .unwrap();
        Ok(())
    }

    /// Adds a value, or nothing if memory runs out.
    fn add_value(&mut self, meaning: ValueRef<'_>) -> Result<(), AllocError>
        ensures ok { OnOk result (self.new ≡ with_value self.old meaning.entry) }
        ensures err { OnErr result (self.new ≡ self.old) }
    {
        match meaning {
            ValueRef::Text(text) => self.add_text(text.as_str()),
            ValueRef::Float(bits) => self.add_number(2, u64::from(bits)),
            ValueRef::Double(bits) => self.add_number(3, bits),
            ValueRef::Int(number) => self.add_number(4, number.cast_unsigned()),
            ValueRef::Uint(number) => self.add_number(5, number),
            ValueRef::Sint(number) => self.add_number(6, number.cast_unsigned()),
            ValueRef::Bool(truth) => self.add_number(7, u64::from(truth)),
        }
    }

    /// Adds the keys of a layer as they stand.
    fn add_keys(&mut self, keys: &[&str]) -> Result<(), AllocError>
        ensures keys { OnOk result (self.new ≡ fold with_key self.old (lent keys.now)) }
        ensures utf8 { OnOk result (AllByRecursion IsUtf8 (lent keys.now)) }
    {
        for key in keys {
            self.add_key(key)?;
        }
        Ok(())
    }
}

impl GeometryVisitor for Table {
    ghost use Rattle.std.specs.Prelude.{◌≡◌};
    ghost use Rattle.std.proofs.Common.{ap, sym, append-nil};
    ghost use Rattle.mvt_rows.specs.Tables.{Table as Rows, with_parts, with_integers};

    ghost has_parts = { λ start parts begun table. table ≡ with_parts start parts begun };

    ghost has_integers = { λ start integers table. table ≡ with_integers start integers };

    ghost begins = { λ start.
        ap (λ points. let table : Rows = record start { points = points } in table)
        (sym (append-nil start.points)) };

    fn visit_point(&mut self, point: Point) -> Result<(), AllocError> {
        self.points.push(PointRow {
            x: point.x,
            y: point.y,
        })?;
        Ok(())
    }

    fn end_part(&mut self, points: usize, ring: Option<Ring>) -> Result<(), AllocError> {
        let start = self.points.len().saturating_sub(points);
        self.parts.push(PartRow {
            exterior: u32::from(is_exterior(ring)),
            points: after_list(start, points),
        })?;
        Ok(())
    }

    fn visit_integers(&mut self, integers: &[u32]) -> Result<(), AllocError> {
        self.integers.extend_from_slice(integers)
    }
}

/// Whether a part that ends so is an exterior ring.
fn is_exterior(ring: Option<Ring>) -> bool
    ensures { (part : Part) (count : ℕ) → EndsAs part count ring → result ≡ part.exterior }
{
    match ring {
        Some(ring) => ring.exterior,
        None => false,
    }
}
