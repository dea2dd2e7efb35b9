//! Reading a tile that comes in pieces.
ghost use Rattle.std.specs.Prelude.{◌≡◌, ℕ, List, [], ◌++◌, length, None, IsSome, IfOk, IfErr, IfSome};
ghost use Rattle.mvt_tile.specs.Decoding.{StandsFor};
ghost use Rattle.mvt_tile.specs.Streams.{Answers, ReportsAtEnd};
ghost use Rattle.mvt_tile.specs.TileRules.{fault_within};
ghost use Rattle.mvt_tile_value.specs.Tiles.{IsTile};
ghost use Rattle.mvt_tile_value.specs.ValidTiles.{Valid};

use crate::fault::DecodeError;
use crate::keeping::ItemKeeper;
use crate::visiting_decoder::VisitingDecoder;
use mvt_base::LIMIT;
use mvt_tile_value::Tile;
use std::alloc::Global;
use std::marker::Model;

/// Reads one tile that comes in pieces of any length.
///
/// ```ignore
/// let mut decoder = TileDecoder::new(alloc);
/// for piece in pieces {
///     decoder.feed(piece)?;
/// }
/// let tile = decoder.finish()?;
/// ```
///
/// It keeps the items that it read, their names, and the bytes after the last whole field. A field
/// is judged once, when it is whole, so a fault is reported as soon as no further byte can change
/// it. After an error it keeps answering that error, and holds no bytes.
#[derive(Drop)]
pub struct TileDecoder {
    decoder: VisitingDecoder<ItemKeeper>,
}

impl Model for TileDecoder {
    ghost use Rattle.mvt_tile.specs.Decoding.{Decoding};

    ghost Value = { Decoding };

    ghost view = { λ d. (d.decoder.0, d.decoder.1.items.items) };
}

impl TileDecoder {
    /// A decoder without bytes yet. Takes no memory.
    pub fn new(alloc: Global) -> Self
        ensures stands { StandsFor LIMIT result [] }
        ensures fresh { result.0.failure ≡ None }
    {
        TileDecoder {
            decoder: VisitingDecoder::new(alloc, ItemKeeper::new(alloc)),
        }
    }

    /// How many bytes stand after the last whole field; none after an error.
    pub fn held(&self) -> usize
        ensures { result ≡ length self.now.0.raw }
    {
        self.decoder.held()
    }

    /// Takes a piece of the input.
    ///
    /// # Errors
    ///
    /// The first fault of the input so far, unless further bytes may change it; out of memory.
    pub fn feed(&mut self, piece: &[u8]) -> Result<(), DecodeError>
        ensures stands { (s : List ℕ) → StandsFor LIMIT self.old s
            → StandsFor LIMIT self.new (s ++ piece.now) }
        ensures answer { Answers self.new.0.failure result }
        ensures sticky { IsSome self.old.0.failure → self.new ≡ self.old }
    {
        self.decoder.feed(piece)
    }

    /// The tile, after the last piece. It takes no memory.
    ///
    /// # Errors
    ///
    /// The error that the decoder keeps, or the fault of the field that isn't finished.
    pub fn finish(self) -> Result<Tile, DecodeError>
        ensures tile { IfOk result (λ tile. (s : List ℕ) → StandsFor LIMIT self s
            → IsTile LIMIT s tile) }
        ensures valid { IfOk result Valid }
        ensures fault { IfErr result (λ error. (s : List ℕ) → StandsFor LIMIT self s
            → ReportsAtEnd error (fault_within LIMIT s)) }
        ensures kept { IfSome self.0.failure (λ error. result ≡ Err error) }
        ensures no_memory { self.0.failure ≡ None
            → IfErr result (λ error. (error ≡ DecodeError.Memory → ⊥)) }
    {
        let TileDecoder { decoder } = self;
        let keeper = decoder.finish()?;
        Ok(keeper.into_tile())
    }
}

/// Reads a tile.
///
/// # Errors
///
/// Its first fault; out of memory. Never a failed read.
pub fn decode(alloc: Global, bytes: &[u8]) -> Result<Tile, DecodeError>
    ensures tile { IfOk result (IsTile LIMIT bytes.now) }
    ensures valid { IfOk result Valid }
    ensures fault { IfErr result (λ error. ReportsAtEnd error (fault_within LIMIT bytes.now)) }
{
    let mut decoder = TileDecoder::new(alloc);
    decoder.feed(bytes)?;
    decoder.finish()
}
