//! The canonical bytes of a tile, in memory.
ghost use Rattle.std.specs.Prelude.{◌≡◌, ◌<◌, ◌≤◌, ◌++◌, ◌∷◌, [], List, length, IfOk, IsErrOf};
ghost use Rattle.mvt_message.specs.declared.item.Item.{Item};
ghost use Rattle.mvt_message.specs.CanonicalItems.{canonical_item};
ghost use Rattle.mvt_message.specs.ValidItems.{ValidItem};
ghost use Rattle.mvt_tile_value.specs.CanonicalTiles.{canonical};
ghost use Rattle.mvt_tile_value.specs.Encoding.{AreEncoded};
ghost use Rattle.mvt_tile_value.specs.Tiles.{IsTile};
ghost use Rattle.mvt_tile_value.specs.ValidTiles.{Valid};

use crate::numbers::tile;
use crate::tile::Tile;
use mvt_base::LIMIT;
use mvt_message::{Item, PutError, put_item};
use mvt_wire::{Payload, put_field};
use std::alloc::{AllocError, Global};

/// The canonical bytes of a tile.
///
/// Each attribute's texts are compared with those of its layer. So long texts that differ only at
/// their ends, and that many features name, cost their length for each of these features. `rewrite`
/// of mvt_tile makes bytes canonical without that cost.
///
/// # Errors
///
/// Out of memory; TooLarge if there are more bytes than the limit.
pub fn encode(alloc: Global, tile: &Tile) -> Result<Vec<u8>, PutError>
    requires { Valid tile.now }
    ensures put { IfOk result (λ bytes. bytes.items ≡ canonical tile.now) }
    ensures small { IfOk result (λ bytes. length bytes.items ≤ LIMIT) }
    ensures reads { IfOk result (λ bytes. IsTile LIMIT bytes.items tile.now) }
    ensures too_large { IsErrOf result PutError.TooLarge → LIMIT < length (canonical tile.now) }
{
    let items = tile.items.as_slice();
    let mut out = Some(Vec::new(alloc));
    for item in items {
        out = encode_more(alloc, out, item)?;
    }
    out.ok_or(PutError::TooLarge)
}

/// The canonical bytes of one more item, after those of the items before it; `None` once they
/// exceed the limit.
fn encode_more(
    alloc: Global,
    out: Option<Vec<u8>>,
    item: &Item,
) -> Result<Option<Vec<u8>>, AllocError>
    requires { ValidItem item.now }
    ensures { (items : List Item) → AreEncoded LIMIT items out
        → IfOk result (AreEncoded LIMIT (items ++ item.now ∷ [])) }
{
    if out.is_none() {
        return Ok(None);
    }
    match put_item(alloc, item) {
        Ok(payload) => encode_payload(out, &payload),
        Err(PutError::TooLarge) => Ok(None),
        Err(PutError::Memory) => Err(AllocError),
    }
}

/// The same for an item whose canonical payload this is.
///
/// # Errors
///
/// When memory runs out.
pub fn encode_payload(out: Option<Vec<u8>>, payload: &[u8]) -> Result<Option<Vec<u8>>, AllocError>
    ensures { (items : List Item) (item : Item) → AreEncoded LIMIT items out
        → payload.now ≡ canonical_item item
        → IfOk result (AreEncoded LIMIT (items ++ item ∷ [])) }
{
    let Some(mut bytes) = out else {
        return Ok(None);
    };
    put_field(&mut bytes, tile::LAYERS, &Payload::Len(payload))?;
    if bytes.len() as u64 > LIMIT {
        return Ok(None);
    }
    Ok(Some(bytes))
}
