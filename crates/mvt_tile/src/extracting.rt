//! The named layers of a tile's bytes: its items are read one after another, and only the canonical
//! bytes of those layers are kept.
ghost use Rattle.std.specs.Prelude.{◌≡◌, List, [], map, not, bytes_eq, string_bytes, IfOk, IfErr, IfSome, OnOk};
ghost use Rattle.std.specs.Io.KnownBytes.{IsAtEnd};
ghost use Rattle.std.specs.List.{list_any, position_from};
ghost use Rattle.mvt_base.specs.Reports.{Reports};
ghost use Rattle.mvt_message.specs.declared.item.Item.{Item as AnItem};
ghost use Rattle.mvt_tile_value.specs.declared.tile.Tile.{Tile};
ghost use Rattle.mvt_tile_value.specs.Tiles.{IsTile};
ghost use Rattle.mvt_tile.specs.Extraction.{AreExtracted, is_among};
ghost use Rattle.mvt_tile.specs.Inner.Taking.{HasTaken};
ghost use Rattle.mvt_tile.specs.Inner.Wanting.{HasRewritten};
ghost use Rattle.mvt_tile.specs.Reading.{ReadsTile, fault_of, kind_of};
ghost use Rattle.mvt_tile.specs.Streams.{ReportsAtEnd};
ghost use Rattle.mvt_tile.specs.TileRules.{fault_within};

use crate::fault::DecodeError;
use crate::name_set::NameSet;
use crate::names::set_of;
use crate::reading::read_whole;
use crate::rewriting::Rewriter;
use crate::walking::{Taken, walk_whole};
use mvt_base::{LIMIT, Text};
use mvt_io::Source;
use std::alloc::{AllocError, Global};

/// What there is of the named layers of a tile.
#[derive(Debug, Drop)]
pub enum NamedLayers {
    /// Their canonical bytes, in the order of the tile.
    Bytes(Vec<u8>),
    /// The position of the first name that no layer of version 2 has.
    Missing(usize),
    /// More canonical bytes than the limit.
    TooLarge,
}

/// The canonical bytes of the named layers of version 2, in the order of the tile. A repeated name
/// counts once. One item is held at a time.
///
/// # Errors
///
/// The first fault of the whole tile, as [`decode`](crate::decode) reports it; out of memory. Never
/// a failed read.
pub fn extract_bytes(
    alloc: Global,
    bytes: &[u8],
    names: &[String],
) -> Result<NamedLayers, DecodeError>
    ensures layers { IfOk result (λ layers. (tile : Tile) × IsTile LIMIT bytes.now tile
        × AreExtracted LIMIT tile (map string_bytes names.now) layers) }
    ensures fault { IfErr result (λ error. ReportsAtEnd error (fault_within LIMIT bytes.now)) }
{
    let rewriter = Rewriter::new(alloc, Some(set_of(alloc, names)?));
    let taken = walk_whole(alloc, rewriter, bytes)?;
    Ok(rewritten(alloc, taken, names)?)
}

/// The same for the tile that a reader has left. It reads no further after a fault.
///
/// # Errors
///
/// The input's first fault; a read that failed; out of memory.
pub fn extract_tile<R: Source>(
    alloc: Global,
    names: &[String],
    reader: &mut R,
) -> Result<NamedLayers, DecodeError>
    ensures end { OnOk result (IsAtEnd (R.state reader.new).left) }
    ensures fault { IfErr result (λ error. IfSome (R.state reader.old).left
        (λ input. Reports (fault_of error) (fault_within LIMIT input))) }
    ensures layers { IfOk result (λ layers. (tile : Tile)
        × AreExtracted LIMIT tile (map string_bytes names.now) layers
        × IfSome (R.state reader.old).left (λ input. IsTile LIMIT input tile)) }
    ensures read { ReadsTile LIMIT (R.state reader.old) (R.state reader.new) (kind_of result) }
{
    let rewriter = Rewriter::new(alloc, Some(set_of(alloc, names)?));
    let taken = read_whole(alloc, reader, rewriter)?;
    Ok(rewritten(alloc, taken, names)?)
}

/// What was rewritten of the named layers, after the last item.
fn rewritten(
    alloc: Global,
    taken: Taken<Rewriter>,
    names: &[String],
) -> Result<NamedLayers, AllocError>
    ensures { (items : List AnItem)
        → HasTaken (HasRewritten LIMIT (is_among (map string_bytes names.now))) taken items
        → IfOk result (AreExtracted LIMIT (record { items = items }) (map string_bytes names.now)) }
{
    let Taken {
        names: there,
        visitor,
    } = taken;
    let Rewriter { out, .. } = visitor;
    if let Some(index) = first_missing(alloc, &there.names, names)? {
        return Ok(NamedLayers::Missing(index));
    }
    match out {
        Some(bytes) => Ok(NamedLayers::Bytes(bytes)),
        None => Ok(NamedLayers::TooLarge),
    }
}

/// The position of the first name that a set doesn't hold.
fn first_missing(
    alloc: Global,
    there: &NameSet,
    names: &[String],
) -> Result<Option<usize>, AllocError>
    ensures { IfOk result (λ found. found
        ≡ position_from (λ name. not (list_any (bytes_eq name) there.now)) 0
        (map string_bytes names.now)) }
{
    for (index, name) in names.iter().enumerate() {
        if !there.contains(&Text::from_str(alloc, name.as_str())?) {
            return Ok(Some(index));
        }
    }
    Ok(None)
}
