//! A tile made canonical: its items that are wanted are rewritten one after another, and the others
//! are judged.
ghost use Rattle.std.specs.Prelude.{◌≡◌, ◌+◌, ◌≤◌, max, Bool, true, false, List, [], ◌∷◌, ◌++◌, length, IfOk, IfErr, IfSome, OnOk};
ghost use Rattle.std.specs.Io.KnownBytes.{IsAtEnd};
ghost use Rattle.std.specs.List.{flat_map};
ghost use Rattle.std.specs.Option.{option_to_list};
ghost use Rattle.mvt_base.specs.Reports.{Reports};
ghost use Rattle.mvt_message.specs.declared.item.Item.{Item as AnItem};
ghost use Rattle.mvt_message.specs.CanonicalItems.{canonical_item};
ghost use Rattle.mvt_message.specs.Items.{IsItem, names_in};
ghost use Rattle.mvt_message.specs.ValidItems.{ValidItem};
ghost use Rattle.mvt_tile_value.specs.declared.tile.Tile.{Tile};
ghost use Rattle.mvt_tile_value.specs.Encoding.{IsEncoded};
ghost use Rattle.mvt_tile_value.specs.Tiles.{IsTile};
ghost use Rattle.mvt_tile_value.specs.ValidTiles.{Valid};
ghost use Rattle.mvt_tile.specs.Inner.Judging.{name_fault};
ghost use Rattle.mvt_tile.specs.Inner.Wanting.{HasRewritten, all_items, is_in, names_of};
ghost use Rattle.mvt_tile.specs.Reading.{ReadsTile, fault_of, kind_of};
ghost use Rattle.mvt_tile.specs.Streams.{ReportsAtEnd, ReportsEarly};
ghost use Rattle.mvt_tile.specs.TileRules.{fault_within, repeats};

use crate::fault::DecodeError;
use crate::judging::ItemJudge;
use crate::names::{holds_name, text_of};
use crate::reading::read_whole;
use crate::visiting::{TileVisitor, visit_tile};
use crate::walking::Taken;
use mvt_base::{LIMIT, Text};
use mvt_io::Source;
use mvt_message::{MessageError, name_in, rewrite_item};
use mvt_tile_value::encode_payload;
use std::alloc::{AllocError, Global};
use std::collections::BTreeSet;
use std::str;

/// The canonical bytes of a tile; `None` if they exceed the limit. One item is held at a time.
///
/// # Errors
///
/// The first fault, as [`decode`](crate::decode) reports it; out of memory. Never a failed read.
pub fn rewrite(alloc: Global, bytes: &[u8]) -> Result<Option<Vec<u8>>, DecodeError>
    ensures tile { IfOk result (λ out. (tile : Tile) × IsTile LIMIT bytes.now tile × Valid tile
        × IsEncoded LIMIT tile out) }
    ensures fault { IfErr result (λ error. ReportsAtEnd error (fault_within LIMIT bytes.now)) }
{
    let rewriter = visit_tile(alloc, Rewriter::of_all(alloc), bytes)?;
    Ok(rewriter.out)
}

/// The canonical bytes of the tile that a reader has left; `None` if they exceed the limit. One
/// item is held at a time. It reads no further after a fault.
///
/// # Errors
///
/// The input's first fault; a read that failed; out of memory.
pub fn rewrite_tile<R: Source>(
    alloc: Global,
    reader: &mut R,
) -> Result<Option<Vec<u8>>, DecodeError>
    ensures end { OnOk result (IsAtEnd (R.state reader.new).left) }
    ensures fault { IfErr result (λ error. IfSome (R.state reader.old).left
        (λ input. Reports (fault_of error) (fault_within LIMIT input))) }
    ensures tile { IfOk result (λ out. (tile : Tile) × IsEncoded LIMIT tile out
        × IfSome (R.state reader.old).left (λ input. IsTile LIMIT input tile × Valid tile)) }
    ensures read { ReadsTile LIMIT (R.state reader.old) (R.state reader.new) (kind_of result) }
{
    let Taken { visitor, .. } = read_whole(alloc, reader, Rewriter::of_all(alloc))?;
    Ok(visitor.out)
}

/// The canonical bytes of the items so far that are wanted: of all of them, or of the layers whose
/// names are in a set.
#[derive(Drop)]
pub(crate) struct Rewriter {
    pub(crate) wanted: Option<BTreeSet<Text>>,
    pub(crate) out: Option<Vec<u8>>,
}

impl Rewriter {
    fn of_all(alloc: Global) -> Self
        ensures { HasRewritten LIMIT all_items result [] }
    {
        Rewriter::new(alloc, None)
    }

    pub(crate) fn new(alloc: Global, wanted: Option<BTreeSet<Text>>) -> Self
        ensures { HasRewritten LIMIT (is_in (names_of wanted)) result [] }
    {
        Rewriter {
            wanted,
            out: Some(Vec::new(alloc)),
        }
    }

    /// Whether an item with this payload is wanted.
    fn wants(&self, alloc: Global, payload: &[u8]) -> Result<bool, AllocError>
        ensures { (item : AnItem) → IsItem payload.now item → ValidItem item
            → IfOk result (λ wants. wants ≡ is_in (names_of self.now.wanted) item) }
    {
        let Some(names) = &self.wanted else {
            return Ok(true);
        };
        let Some(name) = name_in(payload) else {
            return Ok(false);
        };
        match str::from_utf8(name) {
            Ok(name) => Ok(holds_name(names, &Text::from_str(alloc, name)?)),
            Err(_) => Ok(false),
        }
    }
}

impl TileVisitor for Rewriter {
    ghost use Rattle.std.specs.Prelude.{Bool};
    ghost use Rattle.mvt_base.specs.declared.TheConstants.{LIMIT};
    ghost use Rattle.mvt_message.specs.declared.item.Item.{Item};
    ghost use Rattle.mvt_tile.specs.Inner.Wanting.{HasRewritten};

    // Which items are wanted.
    ghost Given = { Item → Bool };

    ghost has_items = { λ wanted _ r items. HasRewritten LIMIT wanted r items };

    /// Makes an item that is wanted canonical, and keeps its bytes; judges another.
    fn visit_item(
        &mut self,
        alloc: Global,
        payload: &[u8],
        payload_at: u64,
        tag_at: u64,
    ) -> Result<Option<Text>, MessageError> {
        if !self.wants(alloc, payload)? {
            return ItemJudge.visit_item(alloc, payload, payload_at, tag_at);
        }
        let mut canonical = Vec::new(alloc);
        match rewrite_item(alloc, payload, payload_at, tag_at, &mut canonical) {
            Ok(name) => {
                self.out = encode_payload(self.out.take(), &canonical)?;
                Ok(text_of(alloc, name)?)
            }
            Err(error) => Err(error),
        }
    }
}
