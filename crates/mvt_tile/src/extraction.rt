//! The layers of a tile that are named.
ghost use Rattle.std.specs.Prelude.{◌≡◌, ℕ, List, [], ◌∷◌, ◌++◌, map, not, if◌then◌else◌, None, IfOk, IfErr, OnOk, string_bytes};
ghost use Rattle.std.specs.List.{list_any, position_from};
ghost use Rattle.mvt_tile.specs.Extraction.{is_named, pick, first_missing, ReportsMissing};
ghost use Rattle.mvt_tile_value.specs.ValidTiles.{Valid};

use crate::extract_error::ExtractError;
use mvt_base::Items;
use mvt_message::Item;
use mvt_tile_value::Tile;
use std::alloc::{AllocError, Global};

/// The named layers of version 2, in the order of the tile. Foreign items are left out, and a
/// repeated name counts once. The layers of a valid tile are a valid tile.
///
/// # Errors
///
/// A name that no layer of version 2 has, which is found before any memory is taken; out of memory.
pub fn extract(alloc: Global, tile: &Tile, names: &[String]) -> Result<Tile, ExtractError>
    ensures pick { IfOk result (λ picked. picked ≡ pick tile.now (map string_bytes names.now)) }
    ensures valid { Valid tile.now → IfOk result Valid }
    ensures there { OnOk result (first_missing tile.now (map string_bytes names.now) ≡ None) }
    ensures missing { IfErr result
        (λ error. ReportsMissing error (first_missing tile.now (map string_bytes names.now))) }
{
    let items = tile.items.as_slice();
    if let Some(index) = missing_name(items, names) {
        return Err(ExtractError::MissingLayer(index));
    }
    let mut picked = Vec::new(alloc);
    for item in items {
        add_picked(alloc, &mut picked, item, names)?;
    }
    Ok(Tile {
        items: Items::new(picked),
    })
}

/// Adds a copy of an item that is named.
fn add_picked(
    alloc: Global,
    picked: &mut Vec<Item>,
    item: &Item,
    names: &[String],
) -> Result<(), AllocError>
    ensures { OnOk result (picked.new.items ≡ picked.old.items
        ++ (if list_any (λ name. is_named name item.now)
        (map string_bytes names.now) then item.now ∷ [] else [])) }
{
    if is_picked(item, names) {
        picked.push(item.copy(alloc)?)?;
    }
    Ok(())
}

/// The position of the first name that no layer has.
fn missing_name(items: &[Item], names: &[String]) -> Option<usize>
    ensures { result ≡ position_from (λ name. not (list_any (is_named name) items.now)) 0
        (map string_bytes names.now) }
{
    for (index, name) in names.iter().enumerate() {
        if !has_layer(items, name.as_str()) {
            return Some(index);
        }
    }
    None
}

pub(crate) fn has_layer(items: &[Item], name: &str) -> bool
    ensures { result ≡ list_any (is_named name.now) items.now }
{
    items.iter().any(|item| has_name(item, name))
}

fn is_picked(item: &Item, names: &[String]) -> bool
    ensures { result ≡ list_any (λ name. is_named name item.now) (map string_bytes names.now) }
{
    for name in names {
        if has_name(item, name.as_str()) {
            return true;
        }
    }
    false
}

fn has_name(item: &Item, name: &str) -> bool
    ensures { result ≡ is_named name.now item.now }
{
    match item {
        Item::Layer(layer) => name == layer.name.as_str(),
        Item::Foreign { .. } => false,
    }
}
