//! An input that comes in pieces, and a visitor that takes the items in it.
ghost use Rattle.std.specs.Prelude.{◌≡◌, ℕ, ◌+◌, ◌≤◌, List, [], ◌++◌, length, drop, IfOk, IfErr, OnOk};
ghost use Rattle.mvt_message.specs.declared.item.Item.{Item};
ghost use Rattle.mvt_tile_value.specs.declared.tile.Tile.{Tile};
ghost use Rattle.mvt_tile_value.specs.Tiles.{IsTile};
ghost use Rattle.mvt_tile.specs.Inner.Taking.{HasTaken};
ghost use Rattle.mvt_tile.specs.Inner.Judging.{IsJudged, ReportsAfter};
ghost use Rattle.mvt_tile.specs.Streams.{IsLive, ReportsEarly, ReportsAtEnd};
ghost use Rattle.mvt_tile.specs.TileRules.{fault_within};
ghost use Rattle.mvt_tile.specs.Visiting.{payloads_in};

use crate::fault::{DecodeError, Fault};
use crate::visiting::TileVisitor;
use crate::walking::{Taken, walk_fields};
use mvt_base::LIMIT;
use mvt_message::Cause;
use std::alloc::Global;

/// The visitor that took the items of the pieces so far, and the bytes after the last whole field,
/// with their place.
#[derive(Drop)]
pub(crate) struct PartialTile<V> {
    pub(crate) taken: Taken<V>,
    pub(crate) raw: Vec<u8>,
    pub(crate) offset: u64,
}

impl<V: TileVisitor> PartialTile<V> {
    /// No pieces yet. Takes no memory.
    pub(crate) fn new(alloc: Global, visitor: V) -> Self
        ensures taken { (given : V.Given) → V.has_items given [] visitor []
            → HasTaken (V.has_items given []) result.taken [] }
        ensures raw { result.raw.items ≡ [] }
        ensures offset { result.offset ≡ 0 }
    {
        PartialTile {
            taken: Taken::new(alloc, visitor),
            raw: Vec::new(alloc),
            offset: 0,
        }
    }

    /// Takes the items in a piece after the bytes that are held, and holds what is then left.
    pub(crate) fn take(&mut self, alloc: Global, piece: &[u8]) -> Result<(), DecodeError>
        requires few { (given : V.Given) × (payloads : List (List ℕ)) × (items : List Item)
            × HasTaken (V.has_items given payloads) self.old.taken items
            × (length items ≤ self.old.offset) }
        requires small { self.old.offset + length self.old.raw.items ≤ LIMIT }
        ensures small { OnOk result (self.new.offset + length self.new.raw.items ≤ LIMIT) }
        ensures live { (given : V.Given) (payloads : List (List ℕ)) (items : List Item)
            → HasTaken (V.has_items given payloads) self.old.taken items
            → length items ≤ self.old.offset
            → OnOk result ((new : List Item)
            × HasTaken (V.has_items given (payloads ++ payloads_in (self.old.raw.items
            ++ piece.now))) self.new.taken new
            × (length new ≤ self.new.offset)
            × ((s : List ℕ) → IsLive LIMIT self.old.offset items self.old.raw.items s
            → IsLive LIMIT self.new.offset new self.new.raw.items (s ++ piece.now))) }
        ensures fault { (given : V.Given) (payloads : List (List ℕ)) (items : List Item)
            → HasTaken (V.has_items given payloads) self.old.taken items → IfErr result
            (λ error. (s : List ℕ) → IsLive LIMIT self.old.offset items self.old.raw.items s
            → ReportsEarly error (fault_within LIMIT (s ++ piece.now))) }
    {
        let room = LIMIT as usize - (self.offset as usize + self.raw.len());
        let (fitting, rest) = piece.split_at(room.min(piece.len()));
        let used = feed_after(alloc, &mut self.taken, &mut self.raw, self.offset, fitting)?;
        self.offset += used as u64;
        if !rest.is_empty() {
            return Err(DecodeError::Fault(Fault::outer(self.offset, Cause::TooLarge)));
        }
        Ok(())
    }

    /// The visitor that took the items of a tile, after the last piece. It takes no memory.
    pub(crate) fn finish(self) -> Result<Taken<V>, DecodeError>
        ensures tile { (items : List Item) (s : List ℕ)
            → IsLive LIMIT self.offset items self.raw.items s
            → IfOk result (λ taken. (taken ≡ self.taken)
            × IsTile LIMIT s (record { items = items })) }
        ensures fault { (items : List Item) (s : List ℕ)
            → IsLive LIMIT self.offset items self.raw.items s
            → IfErr result (λ error. ReportsAtEnd error (fault_within LIMIT s)) }
        ensures no_memory { IfErr result (λ error. (error ≡ DecodeError.Memory → ⊥)) }
    {
        if !self.raw.is_empty() {
            return Err(DecodeError::Fault(Fault::outer(self.offset, Cause::Truncated)));
        }
        Ok(self.taken)
    }
}

/// Takes the items in a piece after some bytes, keeps what is unfinished, and answers how many
/// bytes were whole fields. If no bytes stand before it, the piece isn't copied first.
fn feed_after<V: TileVisitor>(
    alloc: Global,
    taken: &mut Taken<V>,
    raw: &mut Vec<u8>,
    offset: u64,
    piece: &[u8],
) -> Result<usize, DecodeError>
    requires few { (given : V.Given) × (payloads : List (List ℕ)) × (items : List Item)
        × HasTaken (V.has_items given payloads) taken.old items × (length items ≤ offset) }
    requires small { offset + (length raw.old.items + length piece.now) ≤ LIMIT }
    ensures judged { (given : V.Given) (payloads : List (List ℕ)) (items : List Item)
        → HasTaken (V.has_items given payloads) taken.old items → IfOk result
        (λ used. (new : List Item)
        × HasTaken (V.has_items given (payloads ++ payloads_in (raw.old.items ++ piece.now)))
        taken.new new
        × IsJudged offset (raw.old.items ++ piece.now) items new used) }
    ensures raw { IfOk result (λ used. raw.new.items ≡ drop used (raw.old.items ++ piece.now)) }
    ensures within { IfOk result (λ used. used ≤ length raw.old.items + length piece.now) }
    ensures fault { (given : V.Given) (payloads : List (List ℕ)) (items : List Item)
        → HasTaken (V.has_items given payloads) taken.old items → IfErr result
        (λ error. ReportsAfter error offset (raw.old.items ++ piece.now) items) }
{
    if raw.is_empty() {
        let used = walk_fields(alloc, taken, piece, offset)?;
        raw.extend_from_slice(&piece[used..])?;
        return Ok(used);
    }
    raw.extend_from_slice(piece)?;
    let used = walk_fields(alloc, taken, raw.as_slice(), offset)?;
    if used > 0 {
        raw.drain(..used);
    }
    Ok(used)
}
