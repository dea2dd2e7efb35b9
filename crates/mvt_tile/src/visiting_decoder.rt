//! Going over a tile that comes in pieces.
ghost use Rattle.std.specs.Prelude.{◌≡◌, ℕ, List, [], ◌++◌, length, None, IsSome, IfOk, IfErr, IfSome};
ghost use Rattle.mvt_tile_value.specs.declared.tile.Tile.{Tile};
ghost use Rattle.mvt_tile_value.specs.Tiles.{IsTile};
ghost use Rattle.mvt_tile_value.specs.ValidTiles.{Valid};
ghost use Rattle.mvt_tile.specs.Streams.{Answers, ReportsAtEnd};
ghost use Rattle.mvt_tile.specs.TileRules.{fault_within};
ghost use Rattle.mvt_tile.specs.Visiting.{StandsFor, payloads_in};

use crate::fault::DecodeError;
use crate::partial_tile::PartialTile;
use crate::visiting::TileVisitor;
use mvt_base::LIMIT;
use std::alloc::Global;
use std::marker::Model;

/// Passes the items of a tile that comes in pieces of any length to a visitor.
///
/// A field is judged once, when it is whole, so a fault is reported as soon as no further byte can
/// change it. After an error it keeps answering that error, and holds no bytes.
#[derive(Drop)]
pub struct VisitingDecoder<V: TileVisitor> {
    alloc: Global,
    partial: PartialTile<V>,
    failure: Option<DecodeError>,
}

impl<V: TileVisitor> Model for VisitingDecoder<V> {
    ghost use Rattle.std.specs.Prelude.{ℕ, List, IfNone};
    ghost use Rattle.mvt_base.specs.declared.TheConstants.{LIMIT};
    ghost use Rattle.mvt_tile.specs.Visiting.{HasVisited, Visiting, payloads_in};

    ghost Value = { Visiting × V };

    ghost view = { λ d. (
      record {
        failure = d.failure;
        count = d.partial.taken.names.count;
        names = d.partial.taken.names.names;
        raw = d.partial.raw.items;
        offset = d.partial.offset;
      },
      d.partial.taken.visitor,
    ) };

    ghost invariant = { λ d. IfNone d.failure ((given : V.Given) × (s : List ℕ)
        × HasVisited LIMIT (V.has_items given (payloads_in s) d.partial.taken.visitor) (record {
          failure = d.failure;
          count = d.partial.taken.names.count;
          names = d.partial.taken.names.names;
          raw = d.partial.raw.items;
          offset = d.partial.offset;
        }) s) };
}

impl<V: TileVisitor> VisitingDecoder<V> {
    /// A decoder without bytes yet. Takes no memory.
    pub fn new(alloc: Global, visitor: V) -> Self
        requires { (given : V.Given) × V.has_items given [] visitor [] }
        ensures stands { (given : V.Given) → V.has_items given [] visitor []
            → StandsFor LIMIT (V.has_items given) result [] }
        ensures fresh { result.0.failure ≡ None }
    {
        VisitingDecoder {
            alloc,
            partial: PartialTile::new(alloc, visitor),
            failure: None,
        }
    }

    /// How many bytes stand after the last whole field; none after an error.
    pub fn held(&self) -> usize
        ensures { result ≡ length self.now.0.raw }
    {
        self.partial.raw.len()
    }

    /// Takes a piece of the input.
    ///
    /// # Errors
    ///
    /// The first fault of the input so far, unless further bytes may change it; out of memory.
    pub fn feed(&mut self, piece: &[u8]) -> Result<(), DecodeError>
        ensures stands { (given : V.Given) (s : List ℕ)
            → StandsFor LIMIT (V.has_items given) self.old s
            → StandsFor LIMIT (V.has_items given) self.new (s ++ piece.now) }
        ensures answer { Answers self.new.0.failure result }
        ensures sticky { IsSome self.old.0.failure → self.new ≡ self.old }
    {
        if let Some(error) = self.failure {
            return Err(error);
        }
        match self.partial.take(self.alloc, piece) {
            Ok(()) => Ok(()),
            Err(error) => {
                self.partial.raw.clear();
                self.failure = Some(error);
                Err(error)
            }
        }
    }

    /// The visitor, after the last piece. It takes no memory.
    ///
    /// # Errors
    ///
    /// The error that the decoder keeps, or the fault of the field that isn't finished.
    pub fn finish(self) -> Result<V, DecodeError>
        ensures tile { IfOk result (λ visitor. (given : V.Given) (s : List ℕ)
            → StandsFor LIMIT (V.has_items given) self s → (tile : Tile) × IsTile LIMIT s tile
            × Valid tile × V.has_items given (payloads_in s) visitor tile.items) }
        ensures valid { IfOk result (λ visitor. (given : V.Given) × (s : List ℕ) × (tile : Tile)
            × Valid tile × V.has_items given (payloads_in s) visitor tile.items) }
        ensures fault { IfErr result (λ error. (given : V.Given) (s : List ℕ)
            → StandsFor LIMIT (V.has_items given) self s
            → ReportsAtEnd error (fault_within LIMIT s)) }
        ensures kept { IfSome self.0.failure (λ error. result ≡ Err error) }
        ensures no_memory { self.0.failure ≡ None
            → IfErr result (λ error. (error ≡ DecodeError.Memory → ⊥)) }
    {
        let VisitingDecoder {
            partial,
            failure,
            ..
        } = self;
        if let Some(error) = failure {
            return Err(error);
        }
        let taken = partial.finish()?;
        Ok(taken.visitor)
    }
}
