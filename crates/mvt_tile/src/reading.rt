//! Reading a tile from a reader.
ghost use Rattle.std.specs.Prelude.{◌≡◌, ℕ, ◌+◌, ◌<◌, ◌≤◌, List, [], length, IfOk, IfErr, IfSome, OnOk};
ghost use Rattle.std.specs.Io.KnownBytes.{IsAtEnd};
ghost use Rattle.mvt_base.specs.Reports.{Reports};
ghost use Rattle.mvt_io.specs.States.{EndedBy};
ghost use Rattle.mvt_io.specs.Transfers.{Reads};
ghost use Rattle.mvt_tile.specs.Inner.Feeding.{HasFed, HasStopped};
ghost use Rattle.mvt_tile.specs.Inner.Taking.{HasTaken};
ghost use Rattle.mvt_tile.specs.Reading.{ReadsTile, fault_of, kind_of};
ghost use Rattle.mvt_tile.specs.TileRules.{fault_within};
ghost use Rattle.mvt_tile_value.specs.declared.tile.Tile.{Tile};
ghost use Rattle.mvt_tile_value.specs.Tiles.{HasDistinctNames, IsTile};
ghost use Rattle.mvt_tile_value.specs.ValidTiles.{Valid};

use crate::fault::DecodeError;
use crate::keeping::ItemKeeper;
use crate::partial_tile::PartialTile;
use crate::visiting::TileVisitor;
use crate::walking::Taken;
use mvt_base::LIMIT;
use mvt_io::Source;
use mvt_tile_value::Tile;
use std::alloc::Global;

/// The most bytes that one read asks for.
const PIECE: usize = 65_536;

/// The most reads of one tile: each but the last gives a byte, and a byte beyond the limit ends the
/// call.
const MOST_READS: u64 = LIMIT + 2;

/// Reads a tile: all that the reader has left. It reads no further after a fault.
///
/// # Errors
///
/// The input's first fault; a read that failed; out of memory.
pub fn read_tile<R: Source>(alloc: Global, reader: &mut R) -> Result<Tile, DecodeError>
    ensures tile { IfOk result (λ tile. IfSome (R.state reader.old).left
        (λ input. IsTile LIMIT input tile)) }
    ensures valid { IfOk result Valid }
    ensures end { OnOk result (IsAtEnd (R.state reader.new).left) }
    ensures fault { IfErr result (λ error. IfSome (R.state reader.old).left
        (λ input. Reports (fault_of error) (fault_within LIMIT input))) }
    ensures read { ReadsTile LIMIT (R.state reader.old) (R.state reader.new) (kind_of result) }
{
    let taken = read_whole(alloc, reader, ItemKeeper::new(alloc))?;
    Ok(taken.visitor.into_tile())
}

/// Takes the items of a tile: all that the reader has left. It reads no further after a fault.
pub(crate) fn read_whole<R: Source, V: TileVisitor>(
    alloc: Global,
    reader: &mut R,
    visitor: V,
) -> Result<Taken<V>, DecodeError>
    requires start { (given : V.Given) × V.has_items given [] visitor [] }
    ensures end { OnOk result (IsAtEnd (R.state reader.new).left) }
    ensures fault { IfErr result (λ error. IfSome (R.state reader.old).left
        (λ input. Reports (fault_of error) (fault_within LIMIT input))) }
    ensures tile { (given : V.Given) → V.has_items given [] visitor [] → IfOk result (λ taken.
        (payloads : List (List ℕ)) × (tile : Tile)
        × HasTaken (V.has_items given payloads) taken tile.items
        × HasDistinctNames tile.items
        × IfSome (R.state reader.old).left (λ bytes. IsTile LIMIT bytes tile)) }
    ensures read { ReadsTile LIMIT (R.state reader.old) (R.state reader.new) (kind_of result) }
{
    let mut partial = PartialTile::new(alloc, visitor);
    let mut buffer = [0; PIECE];
    feed_all(alloc, reader, &mut partial, &mut buffer)?;
    partial.finish()
}

/// Takes the items in all that the reader has left, in pieces of the buffer's length at most.
fn feed_all<R: Source, V: TileVisitor>(
    alloc: Global,
    reader: &mut R,
    partial: &mut PartialTile<V>,
    buffer: &mut [u8],
) -> Result<(), DecodeError>
    requires room { 0 < length buffer.old }
    requires few { length buffer.old ≤ 65536 }
    requires start { (given : V.Given) × HasTaken (V.has_items given []) partial.old.taken [] }
    requires raw { partial.old.raw.items ≡ [] }
    requires offset { partial.old.offset ≡ 0 }
    ensures fed { (given : V.Given) → HasTaken (V.has_items given []) partial.old.taken []
        → OnOk result
        (HasFed LIMIT (λ payloads. HasTaken (V.has_items given payloads) partial.new.taken)
        partial.new.offset
        partial.new.raw.items (R.state reader.old).left (R.state reader.new).left 0) }
    ensures end { OnOk result (IsAtEnd (R.state reader.new).left) }
    ensures stopped { IfErr result (HasStopped LIMIT (R.state reader.new).given
        (R.state reader.old).left (R.state reader.new).left) }
    ensures reads { Reads (LIMIT + 2) (R.state reader.old) (R.state reader.new) }
    ensures faults { EndedBy (kind_of result) (R.state reader.old).faults
        (R.state reader.new).faults }
{
    for _turn in 0..MOST_READS {
        let count = match reader.read(buffer) {
            Ok(count) => count,
            Err(kind) => return Err(DecodeError::Read(kind)),
        };
        if count == 0 {
            return Ok(());
        }
        partial.take(alloc, &buffer[..count])?;
    }
    unreachable!()
}
