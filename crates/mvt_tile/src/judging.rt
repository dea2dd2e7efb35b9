//! Judging a tile without building one.
ghost use Rattle.std.specs.Prelude.{◌≡◌, None, IfErr, OnOk};
ghost use Rattle.mvt_tile_value.specs.declared.tile.Tile.{Tile};
ghost use Rattle.mvt_tile.specs.Streams.{ReportsAtEnd};
ghost use Rattle.mvt_tile.specs.TileRules.{fault_within};
ghost use Rattle.mvt_tile_value.specs.Tiles.{IsTile};

use crate::fault::DecodeError;
use crate::names::text_of;
use crate::visiting::{TileVisitor, visit_tile};
use mvt_base::{LIMIT, Text};
use mvt_message::{MessageError, judge_item};
use std::alloc::Global;

/// Judges a tile without building one: it keeps the names of the layers, and of one layer at a time
/// its keys, and the tags and the integers of one feature.
///
/// # Errors
///
/// The first fault, as [`decode`](crate::decode) reports it; out of memory. Never a failed read.
pub fn judge(alloc: Global, bytes: &[u8]) -> Result<(), DecodeError>
    ensures ok { OnOk result (fault_within LIMIT bytes.now ≡ None) }
    ensures tile { OnOk result ((tile : Tile) × IsTile LIMIT bytes.now tile) }
    ensures fault { IfErr result (λ error. ReportsAtEnd error (fault_within LIMIT bytes.now)) }
{
    visit_tile(alloc, ItemJudge, bytes)?;
    Ok(())
}

/// Judges the items of a tile, and keeps nothing of them.
#[derive(Drop)]
pub(crate) struct ItemJudge;

impl TileVisitor for ItemJudge {
    ghost Given = { Unit {0} };

    ghost has_items = { λ _ _ _ _. Unit {0} };

    fn visit_item(
        &mut self,
        alloc: Global,
        payload: &[u8],
        payload_at: u64,
        tag_at: u64,
    ) -> Result<Option<Text>, MessageError> {
        match judge_item(alloc, payload, payload_at, tag_at) {
            Ok(name) => Ok(text_of(alloc, name)?),
            Err(error) => Err(error),
        }
    }
}
