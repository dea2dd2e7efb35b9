//! Surveying a tile: its items are judged or made canonical one after another, and none is kept.
ghost use Rattle.std.specs.Prelude.{◌≡◌, bytes_eq, IfOk, IfErr};
ghost use Rattle.mvt_message.specs.ValidItems.{ValidItem};
ghost use Rattle.mvt_tile_value.specs.declared.tile.Tile.{Tile};
ghost use Rattle.mvt_tile_value.specs.CanonicalTiles.{canonical};
ghost use Rattle.mvt_tile_value.specs.Findings.{AreFound};
ghost use Rattle.mvt_tile.specs.Streams.{ReportsAtEnd};
ghost use Rattle.mvt_tile_value.specs.Survey.{survey_of};
ghost use Rattle.mvt_tile.specs.TileRules.{fault_within};
ghost use Rattle.mvt_tile_value.specs.Tiles.{IsTile};
ghost use Rattle.mvt_tile_value.specs.ValidTiles.{Valid};

use crate::fault::DecodeError;
use crate::names::text_of;
use crate::visiting::{TileVisitor, visit_tile};
use mvt_base::{LIMIT, Text};
use mvt_message::MessageError;
use mvt_tile_value::{Survey, SurveyBuilder};
use std::alloc::Global;

/// Surveys a tile, one item at a time and feature by feature. An item that may be canonical, but
/// isn't as it stands, is made canonical, compared with its bytes, and dropped; any other item is
/// only judged. So only the names of the layers and the notes are kept.
///
/// # Errors
///
/// The first fault, as [`decode`](crate::decode) reports it; out of memory. Never a failed read.
pub fn survey_tile(alloc: Global, bytes: &[u8]) -> Result<Survey, DecodeError>
    ensures survey { IfOk result (λ survey. (tile : Tile) × IsTile LIMIT bytes.now tile × Valid tile
        × (survey ≡ survey_of tile (bytes_eq bytes.now (canonical tile)))) }
    ensures fault { IfErr result (λ error. ReportsAtEnd error (fault_within LIMIT bytes.now)) }
{
    let fitting = &bytes[..bytes.len().min(LIMIT as usize)];
    let surveyor = Surveyor {
        count: 0,
        found: SurveyBuilder::new(alloc, fitting),
    };
    let Surveyor { count, found } = visit_tile(alloc, surveyor, bytes)?;
    Ok(found.into_survey(count)?)
}

/// How many items there are so far, and what was found of them.
#[derive(Drop)]
struct Surveyor<'a> {
    count: u32,
    found: SurveyBuilder<'a>,
}

impl<'a> TileVisitor for Surveyor<'a> {
    ghost use Rattle.std.specs.Prelude.{◌≡◌, List, length, ℕ};
    ghost use Rattle.mvt_base.specs.declared.TheConstants.{LIMIT};
    ghost use Rattle.mvt_tile_value.specs.Findings.{AreFound};

    // The input.
    ghost Given = { List ℕ };

    ghost has_items = { λ input _ s items. (s.count ≡ length items)
        × AreFound LIMIT input s.found items };

    /// Keeps what is found of an item.
    fn visit_item(
        &mut self,
        alloc: Global,
        payload: &[u8],
        payload_at: u64,
        tag_at: u64,
    ) -> Result<Option<Text>, MessageError> {
        let index = self.count as usize;
        match self.found.add(alloc, index, payload, payload_at, tag_at) {
            Ok(name) => {
                self.count += 1;
                Ok(text_of(alloc, name)?)
            }
            Err(error) => Err(error),
        }
    }
}
