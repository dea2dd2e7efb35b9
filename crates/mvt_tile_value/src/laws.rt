//! Laws about the definitions alone: functions without effect, whose contract is the law.
ghost use Rattle.std.specs.Prelude.{◌≡◌, ◌<◌, ◌≤◌, List, [], ◌∷◌, ◌++◌, length, None};
ghost use Rattle.mvt_message.specs.declared.item.Item.{Item};
ghost use Rattle.mvt_message.specs.CanonicalItems.{canonical_item};
ghost use Rattle.mvt_tile_value.specs.declared.numbers.tile.TheConstants.{LAYERS};
ghost use Rattle.mvt_tile_value.specs.declared.tile.Tile.{Tile};
ghost use Rattle.mvt_tile_value.specs.CanonicalTiles.{canonical};
ghost use Rattle.mvt_tile_value.specs.Encoding.{AreEncoded};
ghost use Rattle.mvt_tile_value.specs.Tiles.{IsTile};
ghost use Rattle.mvt_tile_value.specs.ValidTiles.{Valid};

use mvt_base::LIMIT;

/// The layers of a tile have the standard's number (4.1). Definitions and code name the constant,
/// so this alone refuses another number.
pub fn field_numbers()
    ensures { LAYERS ≡ 3 }
{}

/// The canonical bytes of a valid tile, within the limit, are that tile.
pub fn canonical_reads()
    ensures { (t : Tile) → Valid t → length (canonical t) ≤ LIMIT → IsTile LIMIT (canonical t) t }
{}

/// Items of which one alone is longer than the limit have more canonical bytes than that.
pub fn long_items()
    ensures { (items : List Item) (item : Item) → LIMIT < length (canonical_item item)
        → AreEncoded LIMIT (items ++ item ∷ []) None }
{}
