//! A tile as JSON.
//!
//! A tile is `{"layers":[..]}`, a layer `{"extent":4096,"features":[..],"name":"a"}`, a layer of
//! another version `{"foreign":{"length":5,"version":1}}`, and a feature
//! `{"attributes":[["k",{"uint":5}]],"geometry":{"points":[[25,17]]},"id":null}`. The keys of every
//! object stand in byte order. There are no floats: a float or a double is shown as its bit
//! pattern.
ghost use Rattle.std.specs.Prelude.{◌≡◌, IfOk, string_bytes};
ghost use Rattle.serde_json.specs.View.{view};
ghost use Rattle.serde_json.specs.Written.{compact_text};
ghost use Rattle.mvt_view.specs.JsonForms.{json};

use crate::json_part::JsonPart;
use crate::view_error::ViewError;
use mvt_tile::Tile;
use serde_json::Value;
use std::alloc::Global;

/// The JSON of a tile as a tree.
///
/// The tree takes twenty times the memory of the tile and more; [`json_text`] makes none.
///
/// # Errors
///
/// When memory runs out.
pub fn json_of(alloc: Global, tile: &Tile) -> Result<Value, ViewError>
    ensures { IfOk result (λ value. view value ≡ json tile.now) }
{
    Ok(tile.to_json(alloc)?)
}

/// The bytes that a text has room for at first.
const FIRST_ROOM: usize = 128;

/// The JSON of a tile as one line, without a line end.
///
/// # Errors
///
/// When memory runs out.
pub fn json_text(alloc: Global, tile: &Tile) -> Result<String, ViewError>
    ensures { IfOk result (λ text. string_bytes text ≡ compact_text (json tile.now)) }
{
    let mut text = String::with_capacity(alloc, FIRST_ROOM)?;
    tile.push(alloc, &mut text)?;
    Ok(text)
}
