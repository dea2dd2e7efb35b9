//! Rows written as a tile's bytes, layer by layer and feature by feature, without values in
//! between.
ghost use Rattle.std.specs.Prelude.{◌≡◌, ◌≢◌, ◌∷◌, ◌++◌, [], List, None, IfOk, IfErr, MatchOption, OnOk};
ghost use Rattle.std.specs.List.{flat_map};
ghost use Rattle.mvt_base.specs.declared.TheConstants.{LIMIT as the_limit};
ghost use Rattle.mvt_message.specs.declared.item.Item.{Item};
ghost use Rattle.mvt_message.specs.declared.item.Item.TheVariants.{Layer as IsALayer};
ghost use Rattle.mvt_message.specs.declared.item.Layer.{Layer};
ghost use Rattle.mvt_message.specs.Items.{names_in};
ghost use Rattle.mvt_message.specs.Rewriting.{IsPayloadOf};
ghost use Rattle.mvt_tile_value.specs.Encoding.{AreEncoded};
ghost use Rattle.mvt_rows.specs.declared.rows_error.RowsError.TheVariants.{Memory};
ghost use Rattle.mvt_rows.specs.Lent.{table_of};
ghost use Rattle.mvt_rows.specs.RowsFaults.{AreValid, IsFaultOf, IsRowWrong};
ghost use Rattle.mvt_rows.specs.Writing.{HasAdded, HasAddedRow};
ghost use Rattle.mvt_rows.specs.Written.{IfWrong, IsWritten, NotWritten};

mod features;
mod geometries;
mod layers;
mod parts;
mod refused;
mod values;

use crate::rows::{LayerRow, Rows};
use crate::rows_cause::{RowsCause, RowsFault};
use crate::rows_error::{RowError, RowsError, if_any};
use crate::work::Work;
use layers::layer_payload;
use mvt_base::Text;
use mvt_message::are_of_version;
use mvt_tile::NameSet;
use mvt_tile_value::encode_payload;
pub(crate) use parts::find_part;
use parts::part;
use std::alloc::{AllocError, Global};
use std::str;

/// The canonical bytes of the tile that rows are. It holds these bytes, and of one layer the keys,
/// the values and the fields of the features.
///
/// # Errors
///
/// Rows that are no valid tile, and why; a result beyond the limit; out of memory, also for spans
/// that overlap and so name more entries than all lists and the limit have.
pub fn write_rows(alloc: Global, rows: &Rows<'_>) -> Result<Vec<u8>, RowsError>
    ensures done { IfOk result (λ made. IsWritten (table_of rows.now) made.items) }
    ensures refused { IfErr result (NotWritten (table_of rows.now)) }
{
    let mut writer = RowsWriter::new(alloc, rows);
    for (index, row) in rows.layers.iter().enumerate() {
        match writer.add(alloc, rows, row) {
            Ok(()) => {}
            Err(error) => return Err(error.at_layer(index)),
        }
    }
    writer.out.ok_or(RowsError::TooLarge)
}

/// The first thing that is wrong with rows, or nothing if they are a valid tile. They are written,
/// and the bytes dropped.
///
/// # Errors
///
/// When memory runs out, or spans that overlap name more entries than all lists and the limit have.
pub fn rows_fault(alloc: Global, rows: &Rows<'_>) -> Result<Option<RowsFault>, RowsError>
    ensures fault { IfOk result (λ found. MatchOption found (AreValid (table_of rows.now))
        (IsFaultOf (table_of rows.now))) }
    ensures memory { IfErr result (λ error. error ≡ Memory) }
{
    match write_rows(alloc, rows) {
        Ok(_) | Err(RowsError::TooLarge) => Ok(None),
        Err(RowsError::NoTile(fault)) => Ok(Some(fault)),
        Err(RowsError::Memory) => Err(RowsError::Memory),
    }
}

/// The names of the layers so far, and the canonical bytes; `None` from where they are more than
/// the limit.
#[derive(Drop)]
struct RowsWriter {
    work: Work,
    names: NameSet,
    out: Option<Vec<u8>>,
}

impl RowsWriter {
    fn new(alloc: Global, rows: &Rows<'_>) -> Self
        ensures { HasAdded result [] }
    {
        RowsWriter {
            work: Work::of(rows),
            names: NameSet::new(alloc),
            out: Some(Vec::new(alloc)),
        }
    }

    /// Adds the item of a row.
    fn add(&mut self, alloc: Global, rows: &Rows<'_>, row: &LayerRow) -> Result<(), RowError>
        ensures added { (items : List Item) → HasAdded self.old items
            → OnOk result (HasAddedRow (table_of rows.now) row.now self.new items) }
        ensures wrong { (items : List Item) → HasAdded self.old items → IfErr result
            (IfWrong (IsRowWrong (table_of rows.now) (flat_map names_in items) row.now)) }
    {
        if row.version == 2 {
            self.add_layer(alloc, rows, row)
        } else {
            self.add_foreign(rows, row)
        }
    }

    fn add_layer(&mut self, alloc: Global, rows: &Rows<'_>, row: &LayerRow) -> Result<(), RowError>
        requires { row.now.version ≡ 2 }
        ensures added { (items : List Item) → HasAdded self.old items
            → OnOk result (HasAddedRow (table_of rows.now) row.now self.new items) }
        ensures wrong { (items : List Item) → HasAdded self.old items → IfErr result
            (IfWrong (IsRowWrong (table_of rows.now) (flat_map names_in items) row.now)) }
    {
        let Some(bytes) = if_any(part(rows.texts, row.name, &mut self.work))? else {
            return Err(RowError::Wrong(None, RowsCause::NameSpan));
        };
        let Ok(name) = str::from_utf8(bytes) else {
            return Err(RowError::Wrong(None, RowsCause::NameText));
        };
        if !self.names.add(Some(Text::from_str(alloc, name)?))? {
            return Err(RowError::Wrong(None, RowsCause::RepeatedName));
        }
        let payload = layer_payload(alloc, rows, row, name, &mut self.work)?;
        self.out = add_payload(self.out.take(), payload)?;
        Ok(())
    }

    /// Adds the bytes of a layer of another version.
    fn add_foreign(&mut self, rows: &Rows<'_>, row: &LayerRow) -> Result<(), RowError>
        requires { row.now.version ≢ 2 }
        ensures added { (items : List Item) → HasAdded self.old items
            → OnOk result (HasAddedRow (table_of rows.now) row.now self.new items) }
        ensures wrong { (items : List Item) → HasAdded self.old items → IfErr result
            (IfWrong (IsRowWrong (table_of rows.now) (flat_map names_in items) row.now)) }
    {
        let Some(bytes) = if_any(part(rows.texts, row.bytes, &mut self.work))? else {
            return Err(RowError::Wrong(None, RowsCause::BytesSpan));
        };
        if !are_of_version(row.version, bytes) {
            return Err(RowError::Wrong(None, RowsCause::Bytes));
        }
        self.out = encode_payload(self.out.take(), bytes)?;
        Ok(())
    }
}

/// The canonical bytes of one layer more; `None` from where they are more than the limit.
fn add_payload(
    out: Option<Vec<u8>>,
    payload: Option<Vec<u8>>,
) -> Result<Option<Vec<u8>>, AllocError>
    ensures { (items : List Item) (layer : Layer) → AreEncoded the_limit items out
        → IsPayloadOf the_limit layer payload
        → IfOk result (AreEncoded the_limit (items ++ IsALayer layer ∷ [])) }
{
    match payload {
        Some(payload) => encode_payload(out, &payload),
        None => Ok(None),
    }
}
