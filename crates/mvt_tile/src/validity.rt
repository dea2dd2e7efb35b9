//! Whether a tile can be written.
ghost use Rattle.std.specs.Prelude.{◌≡◌, ◌↔◌, IfOk, IsTrue, MatchOption};
ghost use Rattle.std.specs.List.{AllByRecursion, flat_map};
ghost use Rattle.mvt_message.specs.Items.{names_in};
ghost use Rattle.mvt_message.specs.ValidItems.{ValidItem};
ghost use Rattle.mvt_tile.specs.TileRules.{repeats};
ghost use Rattle.mvt_tile.specs.Validity.{IsFirstInvalid};
ghost use Rattle.mvt_tile_value.specs.Tiles.{HasDistinctNames};
ghost use Rattle.mvt_tile_value.specs.ValidTiles.{Valid};

use crate::extraction::has_layer;
use crate::name_set::NameSet;
use crate::names::name_of;
use mvt_message::{Item, is_valid_item, validate_item};
use mvt_tile_value::Tile;
use std::alloc::{AllocError, Global};

/// Whether a tile can be written. Takes no memory, and time quadratic in the number of layers and
/// in a feature's attributes: for tiles from strangers use `validate`.
pub fn is_valid(tile: &Tile) -> bool
    ensures { IsTrue result ↔ Valid tile.now }
{
    let items = tile.items.as_slice();
    are_valid(items) && have_distinct_names(items)
}

/// The same, in the time of sorting the names of the layers and the keys of each feature.
///
/// # Errors
///
/// When memory runs out.
pub fn validate(alloc: Global, tile: &Tile) -> Result<bool, AllocError>
    ensures { IfOk result (λ valid. IsTrue valid ↔ Valid tile.now) }
{
    Ok(first_invalid(alloc, tile)?.is_none())
}

/// The index of the first item that keeps a tile from being written: it can't be written itself, or
/// has the name of an earlier layer. Takes as long as [`validate`].
///
/// # Errors
///
/// When memory runs out.
pub fn first_invalid(alloc: Global, tile: &Tile) -> Result<Option<usize>, AllocError>
    ensures { IfOk result (λ found. MatchOption found (Valid tile.now)
        (IsFirstInvalid tile.now.items)) }
{
    let mut names = NameSet::new(alloc);
    let items = tile.items.as_slice();
    for (index, item) in items.iter().enumerate() {
        if !validate_item(alloc, item)? {
            return Ok(Some(index));
        }
        if !names.add(name_of(alloc, item)?)? {
            return Ok(Some(index));
        }
    }
    Ok(None)
}

fn are_valid(items: &[Item]) -> bool
    ensures { IsTrue result ↔ AllByRecursion ValidItem items.now }
{
    for item in items {
        if !is_valid_item(item) {
            return false;
        }
    }
    true
}

/// Whether no two layers have one name.
fn have_distinct_names(items: &[Item]) -> bool
    ensures { IsTrue result ↔ HasDistinctNames items.now }
{
    for (index, item) in items.iter().enumerate() {
        if is_repeated(&items[..index], item) {
            return false;
        }
    }
    true
}

/// Whether the name of an item stands in one before it.
fn is_repeated(before: &[Item], item: &Item) -> bool
    ensures { result ≡ repeats (flat_map names_in before.now) (names_in item.now) }
{
    match item {
        Item::Layer(layer) => has_layer(before, layer.name.as_str()),
        Item::Foreign { .. } => false,
    }
}
