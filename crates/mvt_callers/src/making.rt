//! Make a tile, and write it.
ghost use Rattle.std.specs.Prelude.{◌≡◌, ◌<◌, length, IfOk, IfSome, IsErrOf};
ghost use Rattle.mvt_tile_value.specs.CanonicalTiles.{canonical};
ghost use Rattle.mvt_tile_value.specs.Tiles.{IsTile};
ghost use Rattle.mvt_callers.specs.Uses.{AreBytesOf, place_of};

use mvt_tile::{
    Attribute, Feature, Geometry, Item, Items, LIMIT, Layer, Point, PutError, Text, Tile, Value,
    encode, validate,
};
use std::alloc::{AllocError, Global};

/// The canonical bytes of a tile with one named place, or nothing if the place can't stand in a
/// tile.
///
/// # Errors
///
/// TooLarge for more bytes than the limit; out of memory.
pub fn place_tile(alloc: Global, name: &str, at: Point) -> Result<Option<Vec<u8>>, PutError>
    ensures bytes { IfOk result (AreBytesOf (place_of name.now at)) }
    ensures reads { IfOk result (λ found. IfSome found (λ bytes.
        IsTile LIMIT bytes.items (place_of name.now at))) }
    ensures too_large { IsErrOf result PutError.TooLarge
        → LIMIT < length (canonical (place_of name.now at)) }
{
    let tile = place(alloc, name, at)?;
    if !validate(alloc, &tile)? {
        return Ok(None);
    }
    Ok(Some(encode(alloc, &tile)?))
}

fn place(alloc: Global, name: &str, at: Point) -> Result<Tile, AllocError>
    ensures { IfOk result (λ tile. tile ≡ place_of name.now at) }
{
    let attribute = Attribute {
        key: Text::from_str(alloc, "name")?,
        value: Value::Text(Text::from_str(alloc, name)?),
    };
    let feature = Feature {
        id: None,
        attributes: Items::new(vec![in alloc; attribute]?),
        geometry: Geometry::Points(Items::new(Vec::from_slice(alloc, &[at])?)),
    };
    let layer = Layer {
        name: Text::from_str(alloc, "places")?,
        extent: 4096,
        features: Items::new(vec![in alloc; feature]?),
    };
    Ok(Tile {
        items: Items::new(vec![in alloc; Item::Layer(layer)]?),
    })
}
