//! Read a tile that comes in pieces.
ghost use Rattle.std.specs.Prelude.{IfOk, IfErr};
ghost use Rattle.std.specs.List.{flat_map};
ghost use Rattle.mvt_tile_value.specs.Tiles.{IsTile};
ghost use Rattle.mvt_tile.specs.Streams.{ReportsAtEnd};
ghost use Rattle.mvt_tile.specs.TileRules.{fault_within};

use mvt_tile::{DecodeError, LIMIT, Tile, TileDecoder};
use std::alloc::Global;

/// The tile that pieces make, whatever their lengths.
///
/// # Errors
///
/// The first fault of the pieces joined; out of memory.
pub fn tile_of_pieces(alloc: Global, pieces: &[&[u8]]) -> Result<Tile, DecodeError>
    ensures tile { IfOk result (IsTile LIMIT (flat_map (λ piece. piece.now) pieces.now)) }
    ensures fault { IfErr result (λ error. ReportsAtEnd error
        (fault_within LIMIT (flat_map (λ piece. piece.now) pieces.now))) }
{
    let mut decoder = TileDecoder::new(alloc);
    for piece in pieces {
        decoder.feed(piece)?;
    }
    decoder.finish()
}
