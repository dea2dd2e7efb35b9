//! Laws about the definitions alone: functions without effect, whose contract is the law.
ghost use Rattle.std.specs.Prelude.{◌≡◌, ◌↔◌, ℕ, ◌<◌, ◌≤◌, List, [], ◌∷◌, ◌++◌, length, take, None, Some, false};
ghost use Rattle.std.specs.List.{flat_map};
ghost use Rattle.mvt_base.specs.Rules.{AreOrdered, IsLeast, first};
ghost use Rattle.mvt_message.specs.declared.item.Item.{Item};
ghost use Rattle.mvt_message.specs.Items.{names_in};
ghost use Rattle.mvt_tile.specs.declared.fault.Fault.{Fault};
ghost use Rattle.mvt_tile_value.specs.declared.tile.Tile.{Tile};
ghost use Rattle.mvt_tile_value.specs.CanonicalTiles.{canonical};
ghost use Rattle.mvt_tile.specs.FaultPlaces.{StandsIn};
ghost use Rattle.mvt_tile.specs.Faults.{is_open};
ghost use Rattle.mvt_tile.specs.NamedLayer.{IsFirst, first_in, named_in};
ghost use Rattle.mvt_tile.specs.TileRules.{tile_rules, fault_within, repeats};
ghost use Rattle.mvt_tile_value.specs.Tiles.{HasDistinctNames, IsTile};
ghost use Rattle.mvt_tile_value.specs.ValidTiles.{Valid, WasValid};
ghost use Rattle.mvt_wire.specs.Split.{split};

use mvt_base::LIMIT;

/// Two valid tiles within the limit with the same canonical bytes are equal, and these bytes are
/// read as the tile.
pub fn one_tile()
    ensures one { (s t : Tile) → Valid s → Valid t → length (canonical s) ≤ LIMIT
        → canonical s ≡ canonical t → s ≡ t }
    ensures reads { (t : Tile) → Valid t → length (canonical t) ≤ LIMIT
        → IsTile LIMIT (canonical t) t }
{}

/// A fault stays, whatever bytes follow, but for a field that isn't finished.
pub fn fault_stays()
    ensures { (s more : List ℕ) (f : Fault) → fault_within LIMIT s ≡ Some f → is_open f ≡ false
        → fault_within LIMIT (s ++ more) ≡ Some f }
{}

/// More bytes than the limit have a fault that stays.
pub fn fault_past_limit()
    ensures { (s : List ℕ) → LIMIT < length s
        → (f : Fault) × (fault_within LIMIT s ≡ Some f) × (is_open f ≡ false) }
{}

/// The layer in which the first fault stands is there, and if the fault stands in a feature, it is
/// the first fault of that layer's payload.
pub fn layer_of_a_fault()
    ensures { (limit : ℕ) (input : List ℕ) (fault : Fault) (n : ℕ)
        → fault_within limit input ≡ Some fault → fault.layer ≡ Some n
        → StandsIn (split (take limit input)).fields n fault }
{}

/// Bytes are a tile exactly if they have no fault, and then they are one tile.
pub fn tile_or_fault()
    ensures there { (b : List ℕ) → fault_within LIMIT b ≡ None → (tile : Tile)
        × IsTile LIMIT b tile }
    ensures clean { (b : List ℕ) (tile : Tile) → IsTile LIMIT b tile → fault_within LIMIT b ≡ None }
    ensures once { (b : List ℕ) (s t : Tile) → IsTile LIMIT b s → IsTile LIMIT b t → s ≡ t }
{}

/// The fault of bytes within the limit is that of the broken rule of least rank.
pub fn fault_is_least()
    ensures ordered { (b : List ℕ) → AreOrdered (tile_rules b) }
    ensures least { (b : List ℕ) (f : Fault) → length b ≤ LIMIT
        → (fault_within LIMIT b ≡ Some f) ↔ IsLeast (tile_rules b) f }
{}

/// A tile that was valid under the first, narrower range of positions is valid. Its canonical bytes
/// don't depend on the range.
pub fn old_tiles_stay()
    ensures { (t : Tile) → WasValid t → Valid t }
{}

/// Names are distinct one by one: that of an item isn't among those before it.
pub fn names_apart()
    ensures nothing { HasDistinctNames [] }
    ensures more { (items : List Item) (item : Item) → HasDistinctNames items
        → repeats (flat_map names_in items) (names_in item) ≡ false
        → HasDistinctNames (items ++ item ∷ []) }
    ensures before { (items : List Item) (item : Item) (more : List Item)
        → HasDistinctNames (items ++ item ∷ more)
        → repeats (flat_map names_in items) (names_in item) ≡ false }
{}

/// In a tile, the first layer with a name is the only one; if there is no first one, no layer has
/// the name.
pub fn one_of_a_name()
    ensures one { (b name : List ℕ) (tile : Tile) (item : Item) → IsTile LIMIT b tile
        → IsFirst name b item → named_in name tile.items ≡ item ∷ [] }
    ensures nothing { (b name : List ℕ) (tile : Tile) → IsTile LIMIT b tile
        → first_in name b ≡ None → named_in name tile.items ≡ [] }
{}
