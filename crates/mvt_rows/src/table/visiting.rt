//! The rows of a tile straight from its bytes.
ghost use Rattle.std.specs.Prelude.{◌≡◌, ◌<◌, ◌≤◌, [], None, IfOk, IfErr, IfSome, MatchOption, OnErr, OnOk};
ghost use Rattle.mvt_base.specs.declared.TheConstants.{LIMIT};
ghost use Rattle.mvt_tile.specs.NamedLayer.{first_in, named_fault};
ghost use Rattle.mvt_tile.specs.Streams.{ReportsAtEnd};
ghost use Rattle.mvt_tile.specs.TileRules.{fault_within};
ghost use Rattle.mvt_rows.specs.Reading.{IsLayerRead, IsRead};
ghost use Rattle.mvt_rows.specs.Tables.{no_rows, table_size};
ghost use Rattle.mvt_rows.specs.Visiting.{AreItemRows, HasRead, IsWithin};

use super::Table;
use crate::places::Places;
use mvt_attrs::LayerKeys;
use mvt_base::Text;
use mvt_feature::{Scratch, read_value_ref};
use mvt_message::{LayerVisitor, MessageError, Visited, visit_version_2};
use mvt_tile::{DecodeError, TileVisitor, VisitingDecoder, visit_named, visit_tile};
use std::alloc::{AllocError, Global};

/// Reads a tile as rows. A layer has all keys and values of the tile's layer, also unused ones.
///
/// # Errors
///
/// The tile's first fault; out of memory. Never a failed read.
pub fn read_rows(alloc: Global, bytes: &[u8]) -> Result<Table, DecodeError>
    ensures read { IfOk result (IsRead bytes.now) }
    ensures fault { IfErr result (λ error. ReportsAtEnd error (fault_within LIMIT bytes.now)) }
{
    read_rows_within(alloc, bytes, u64::MAX)
}

/// Reads a tile as rows whose lists have at most `most` bytes.
///
/// # Errors
///
/// As [`read_rows`]; out of memory if the lists would have more.
pub fn read_rows_within(alloc: Global, bytes: &[u8], most: u64) -> Result<Table, DecodeError>
    ensures read { IfOk result (IsRead bytes.now) }
    ensures within { IfOk result (λ table. table_size table ≤ most) }
    ensures fault { IfErr result (λ error. ReportsAtEnd error (fault_within LIMIT bytes.now)) }
{
    let mut rows = RowsVisitor::new(alloc, most);
    rows.table.make_room(bytes.len())?;
    let rows = visit_tile(alloc, rows, bytes)?;
    Ok(rows.into_table())
}

/// Reads the first layer of version 2 with a name as rows whose lists have at most `most` bytes;
/// none if no layer has that name. Reads only as far as this layer; later bytes may be broken.
///
/// # Errors
///
/// The first fault of that layer; bytes before it that are no field; too many bytes; out of memory.
pub fn read_layer(
    alloc: Global,
    bytes: &[u8],
    name: &[u8],
    most: u64,
) -> Result<Option<Table>, DecodeError>
    ensures read { IfOk result (λ found. MatchOption found (first_in name.now bytes.now ≡ None)
        (IsLayerRead name.now bytes.now)) }
    ensures within { IfOk result (λ found. IfSome found (λ table. table_size table ≤ most)) }
    ensures ok { OnOk result (named_fault LIMIT name.now bytes.now ≡ None) }
    ensures fault { IfErr result
        (λ error. ReportsAtEnd error (named_fault LIMIT name.now bytes.now)) }
{
    let rows = match visit_named(alloc, RowsVisitor::new(alloc, most), bytes, name)? {
        Some(rows) => rows,
        None => return Ok(None),
    };
    Ok(Some(rows.into_table()))
}

/// Reads a tile that comes in pieces as rows, as `read_rows` does.
pub type RowsDecoder = VisitingDecoder<RowsVisitor>;

/// The rows of the items so far, and where those of the layer begin that is visited.
#[derive(Drop)]
pub struct RowsVisitor {
    table: Table,
    opened: Places,
    most: u64,
}

impl RowsVisitor {
    /// No rows yet, whose lists shall have at most `most` bytes. Takes no memory.
    pub fn new(alloc: Global, most: u64) -> Self
        ensures table { result.table ≡ no_rows }
        ensures items { AreItemRows result.table [] }
        ensures read { HasRead result.table [] [] }
        ensures within { IsWithin most result }
    {
        let table = Table::new(alloc);
        let opened = table.places();
        RowsVisitor {
            table,
            opened,
            most,
        }
    }

    /// The rows of the items.
    pub fn into_table(self) -> Table
        ensures { result ≡ self.table }
    {
        let RowsVisitor { table, .. } = self;
        table
    }

    /// Out of memory if the lists have more bytes than they shall.
    fn keep_within(&self) -> Result<(), AllocError>
        ensures within { OnOk result (table_size self.now.table ≤ self.now.most) }
        ensures past { OnErr result (self.now.most < table_size self.now.table) }
    {
        if self.table.is_within(self.most) {
            return Ok(());
        }
        Err(AllocError)
    }
}

impl TileVisitor for RowsVisitor {
    ghost use Rattle.std.specs.Prelude.{ℕ};
    ghost use Rattle.mvt_rows.specs.Visiting.{AreItemRows, HasRead, IsWithin};

    // How many bytes the lists shall have at most.
    ghost Given = { ℕ };

    ghost has_items = { λ most payloads rows items. AreItemRows rows.table items
        × HasRead rows.table payloads items × IsWithin most rows };

    fn visit_item(
        &mut self,
        alloc: Global,
        payload: &[u8],
        payload_at: u64,
        tag_at: u64,
    ) -> Result<Option<Text>, MessageError> {
        self.opened = self.table.places();
        match visit_version_2(alloc, self, payload, payload_at, tag_at) {
            Ok(Visited::Layer { name, extent }) => {
                self.table.add_layer_row(name, extent, self.opened)?;
                self.keep_within()?;
                Ok(Some(Text::from_str(alloc, name)?))
            }
            Ok(Visited::Foreign { version }) => {
                self.table.forget_values(self.opened);
                self.table.add_foreign(version, payload)?;
                self.keep_within()?;
                Ok(None)
            }
            Err(error) => Err(error),
        }
    }
}

impl<'a> LayerVisitor<'a> for RowsVisitor {
    ghost use Rattle.std.specs.Prelude.{◌≡◌, []};
    ghost use Rattle.mvt_rows.specs.Tables.{without_values};
    ghost use Rattle.mvt_rows.specs.Visiting.{AreLayerRows, Before, HasReadFeatures, HasReadValues};

    ghost Given = { Before };

    ghost has_given = { λ given rows.
        (without_values rows.table rows.opened ≡ given.table) × (rows.most ≡ given.most) };

    ghost has_values = { λ given rows values.
        AreLayerRows rows.table rows.opened given.items [] values []
        × HasReadValues given.table rows.table rows.opened values × (rows.most ≡ given.most) };

    ghost has_features = { λ given keys values rows payloads features.
        AreLayerRows rows.table rows.opened given.items keys values features
        × HasReadFeatures given.table rows.table rows.opened keys values payloads features
        × (rows.most ≡ given.most) };

    fn visit_value(
        &mut self,
        _: Global,
        payload: &'a [u8],
        payload_at: u64,
        tag_at: u64,
    ) -> Result<(), MessageError> {
        let meaning = read_value_ref(payload, payload_at, tag_at)?;
        self.table.add_value(meaning)?;
        Ok(self.keep_within()?)
    }

    fn visit_keys(&mut self, _: Global, keys: &[&'a str], _: usize) -> Result<(), AllocError> {
        self.table.add_keys(keys)?;
        self.keep_within()
    }

    fn visit_feature(
        &mut self,
        alloc: Global,
        payload: &[u8],
        payload_at: u64,
        keys: &mut LayerKeys<'_>,
        values: usize,
        scratch: &mut Scratch,
    ) -> Result<(), MessageError> {
        let opened = self.table.places();
        let before = self.table.mark();
        let table = &mut self.table;
        let known = table.add_drawing(alloc, payload, payload_at, keys, values, scratch)?;
        match self.table.add_feature_row(scratch.tags(), known, opened) {
            Ok(()) => Ok(self.keep_within()?),
            Err(refused) => {
                self.table.forget_behind(before);
                Err(refused.into())
            }
        }
    }
}
