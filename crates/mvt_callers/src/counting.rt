//! Read a tile, and look into it.
ghost use Rattle.std.specs.Prelude.{◌≡◌, find, option_copied, IfOk, IfErr};
ghost use Rattle.mvt_tile.specs.Extraction.{is_named};
ghost use Rattle.mvt_tile.specs.Streams.{ReportsAtEnd};
ghost use Rattle.mvt_tile.specs.TileRules.{fault_within};
ghost use Rattle.mvt_callers.specs.Uses.{HasCount, count_of};

use mvt_tile::{DecodeError, Item, LIMIT, decode};
use std::alloc::Global;

/// How many features the layer of a name has, if there is one.
///
/// # Errors
///
/// The first broken rule of bytes that are no tile. When memory runs out.
pub fn count_features(alloc: Global, bytes: &[u8], name: &str) -> Result<Option<usize>, DecodeError>
    ensures count { IfOk result (HasCount LIMIT bytes.now name.now) }
    ensures fault { IfErr result (λ error. ReportsAtEnd error (fault_within LIMIT bytes.now)) }
{
    let tile = decode(alloc, bytes)?;
    Ok(count_in(tile.items.as_slice(), name))
}

fn count_in(items: &[Item], name: &str) -> Option<usize>
    ensures { result ≡ count_of name.now items.now }
{
    match layer_named(items, name)? {
        Item::Layer(layer) => Some(layer.features.as_slice().len()),
        Item::Foreign { .. } => None,
    }
}

fn layer_named<'a>(items: &'a [Item], name: &str) -> Option<&'a Item>
    ensures { option_copied result ≡ find (is_named name.now) items.now }
{
    items.iter().find(|item| is_layer(item, name))
}

/// Whether an item is a layer of this name.
fn is_layer(item: &Item, name: &str) -> bool
    ensures { result ≡ is_named name.now item.now }
{
    match item {
        Item::Layer(layer) => layer.name.as_str() == name,
        Item::Foreign { .. } => false,
    }
}
