//! What viewers stumble over in a tile: its items are read one after the other, and none is kept.
ghost use Rattle.std.specs.Prelude.{◌≡◌, [], IfOk, IfErr, IfSome, OnOk};
ghost use Rattle.std.specs.Io.KnownBytes.{IsAtEnd};
ghost use Rattle.mvt_base.specs.Reports.{Reports};
ghost use Rattle.mvt_tile_value.specs.declared.tile.Tile.{Tile};
ghost use Rattle.mvt_tile_value.specs.Lint.{findings_of};
ghost use Rattle.mvt_tile_value.specs.Linting.{AreLintedItems};
ghost use Rattle.mvt_tile_value.specs.Tiles.{IsTile};
ghost use Rattle.mvt_tile_value.specs.ValidTiles.{Valid};
ghost use Rattle.mvt_tile.specs.Reading.{ReadsTile, fault_of, kind_of};
ghost use Rattle.mvt_tile.specs.Streams.{ReportsAtEnd};
ghost use Rattle.mvt_tile.specs.TileRules.{fault_within};

use crate::fault::DecodeError;
use crate::names::text_of;
use crate::reading::read_whole;
use crate::visiting::{TileVisitor, visit_tile};
use crate::walking::Taken;
use mvt_base::{LIMIT, Text};
use mvt_io::Source;
use mvt_message::MessageError;
use mvt_tile_value::{Finding, LintBuilder};
use std::alloc::Global;

/// What is found of a tile that viewers stumble over, as [`lint`](crate::lint) of the tile tells
/// it. One feature is read at a time, and no value of the tile is made.
///
/// # Errors
///
/// The first fault, which is the one that [`decode`](crate::decode) tells; want of memory. Never a
/// failed read.
pub fn lint_bytes(alloc: Global, bytes: &[u8]) -> Result<Vec<Finding>, DecodeError>
    ensures tile { IfOk result (λ findings. (tile : Tile) × IsTile LIMIT bytes.now tile × Valid tile
        × (findings.items ≡ findings_of tile)) }
    ensures fault { IfErr result (λ error. ReportsAtEnd error (fault_within LIMIT bytes.now)) }
{
    let linter = visit_tile(alloc, Linter::new(alloc), bytes)?;
    Ok(linter.into_findings())
}

/// The same of the tile that a reader has left. It reads no further after a fault.
///
/// # Errors
///
/// The input's first fault; a read that failed; want of memory.
pub fn lint_tile<R: Source>(alloc: Global, reader: &mut R) -> Result<Vec<Finding>, DecodeError>
    ensures end { OnOk result (IsAtEnd (R.state reader.new).left) }
    ensures fault { IfErr result (λ error. IfSome (R.state reader.old).left
        (λ input. Reports (fault_of error) (fault_within LIMIT input))) }
    ensures tile { IfOk result (λ findings. (tile : Tile) × (findings.items ≡ findings_of tile)
        × IfSome (R.state reader.old).left (λ input. IsTile LIMIT input tile × Valid tile)) }
    ensures read { ReadsTile LIMIT (R.state reader.old) (R.state reader.new) (kind_of result) }
{
    let Taken { visitor, .. } = read_whole(alloc, reader, Linter::new(alloc))?;
    Ok(visitor.into_findings())
}

/// How many items there are so far, and what was found of them.
#[derive(Drop)]
struct Linter {
    count: u32,
    found: LintBuilder,
}

impl Linter {
    fn new(alloc: Global) -> Self
        ensures count { result.count ≡ 0 }
        ensures found { AreLintedItems result.found [] }
    {
        Linter {
            count: 0,
            found: LintBuilder::new(alloc),
        }
    }

    fn into_findings(self) -> Vec<Finding>
        ensures { (tile : Tile) → AreLintedItems self.found tile.items
            → result.items ≡ findings_of tile }
    {
        let Linter { found, .. } = self;
        found.into_findings()
    }
}

impl TileVisitor for Linter {
    ghost use Rattle.std.specs.Prelude.{◌≡◌, length};
    ghost use Rattle.mvt_tile_value.specs.Linting.{AreLintedItems};

    ghost Given = { Unit {0} };

    ghost has_items = { λ _ _ l items. (l.count ≡ length items) × AreLintedItems l.found items };

    /// Keeps what is found of an item.
    fn visit_item(
        &mut self,
        alloc: Global,
        payload: &[u8],
        payload_at: u64,
        tag_at: u64,
    ) -> Result<Option<Text>, MessageError> {
        let index = self.count as usize;
        match self.found.add(alloc, index, payload, payload_at, tag_at) {
            Ok(name) => {
                self.count += 1;
                Ok(text_of(alloc, name)?)
            }
            Err(error) => Err(error),
        }
    }
}
