//! A tile written and read again.
ghost use Rattle.std.specs.Prelude.{◌≡◌, ◌<◌, ◌≤◌, length, Some, IfOk, IfErr, IfSome, IsErrOf, OnOk, OnErr, MatchResult};
ghost use Rattle.std.specs.Io.KnownBytes.{IsAtEnd};
ghost use Rattle.mvt_base.specs.Reports.{Reports};
ghost use Rattle.mvt_io.specs.Transfers.{Wrote, WroteFront};
ghost use Rattle.mvt_tile_value.specs.CanonicalTiles.{canonical};
ghost use Rattle.mvt_tile.specs.Reading.{ReadsBack, ReadsTile, fault_of, kind_of};
ghost use Rattle.mvt_tile.specs.TileRules.{fault_within};
ghost use Rattle.mvt_tile_value.specs.Tiles.{IsTile};
ghost use Rattle.mvt_tile_value.specs.ValidTiles.{Valid};
ghost use Rattle.mvt_tile_value.specs.Writing.{kind_written};

use crate::fault::DecodeError;
use crate::reading::read_tile;
use mvt_base::LIMIT;
use mvt_io::{Sink, Source};
use mvt_tile_value::{Tile, WriteError, write_tile};
use std::alloc::Global;

/// Writes a tile, and then reads what a reader has left, for example the same file opened again.
///
/// The writer receives exactly the canonical bytes. A reader of these bytes gives the tile,
/// whatever number of bytes each read returns; any other bytes are read as the one tile that they
/// are, or as their first fault.
///
/// # Errors
///
/// The outer error is that of the write, after which nothing is read; the inner that of the read.
pub fn write_and_read<W: Sink, R: Source>(
    alloc: Global,
    tile: &Tile,
    writer: &mut W,
    reader: &mut R,
) -> Result<Result<Tile, DecodeError>, WriteError>
    requires { Valid tile.now }
    ensures written { OnOk result (Wrote (W.state writer.old) (W.state writer.new)
        (canonical tile.now) × (length (canonical tile.now) ≤ LIMIT)) }
    ensures same { IfOk result (λ read. (R.state reader.old).left ≡ Some (canonical tile.now)
        → ReadsBack read tile.now) }

    // What is read is read as `read_tile` reads it.
    ensures exact { IfOk result (λ read. IfSome (R.state reader.old).left
        (λ input. MatchResult read (IsTile LIMIT input)
        (λ error. Reports (fault_of error) (fault_within LIMIT input)))) }
    ensures valid { IfOk result (λ read. IfOk read Valid) }
    ensures end { IfOk result (λ read. OnOk read (IsAtEnd (R.state reader.new).left)) }
    ensures read { IfOk result
        (λ read. ReadsTile LIMIT (R.state reader.old) (R.state reader.new) (kind_of read)) }

    // A write that failed is the last call of all.
    ensures stopped { IfErr result (λ error. WroteFront (W.state writer.old) (W.state writer.new)
        (canonical tile.now) (kind_written error)) }
    ensures too_large { IsErrOf result WriteError.TooLarge
        → (LIMIT < length (canonical tile.now)) × (writer.new ≡ writer.old) }
    ensures unread { OnErr result (reader.new ≡ reader.old) }
{
    write_tile(alloc, tile, writer)?;
    Ok(read_tile(alloc, reader))
}
