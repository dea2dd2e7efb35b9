//! Laws about the definitions alone: functions without effect, whose contract is the law.
ghost use Rattle.std.specs.Prelude.{◌≡◌, ℕ, List, Some, length, map};
ghost use Rattle.mvt_places.specs.Around.{integers_of, place_of};
ghost use Rattle.mvt_places.specs.Messages.{Message as AMessage};
ghost use Rattle.mvt_places.specs.Places.{feature_of, layer_of, place_at};
ghost use Rattle.mvt_places.specs.Spans.{EndsBelow, joined};
ghost use Rattle.mvt_tile.specs.TileRules.{fault_within};
ghost use Rattle.mvt_tile.specs.declared.fault.Fault.{Fault as AFault};

use mvt_base::LIMIT;

/// The place of the first fault of any bytes lies within them, and so does that of any fault.
pub fn place_lies()
    ensures first { (input : List ℕ) (fault : AFault) → fault_within LIMIT input ≡ Some fault
        → EndsBelow (length input) (place_at LIMIT input fault) }
    ensures any { (limit : ℕ) (input : List ℕ) (fault : AFault)
        → EndsBelow (length input) (place_at limit input fault) }
{}

/// The layer that the first fault of any bytes names is there, and so is the feature.
pub fn first_fault_is_there()
    ensures layer { (limit : ℕ) (input : List ℕ) (fault : AFault) (n : ℕ)
        → fault_within limit input ≡ Some fault → fault.layer ≡ Some n
        → (m : AMessage) × (layer_of limit input fault ≡ Some m) }
    ensures feature { (limit : ℕ) (input : List ℕ) (fault : AFault) (n j : ℕ)
        → fault_within limit input ≡ Some fault → fault.layer ≡ Some n → fault.feature ≡ Some j
        → (m : AMessage) × (feature_of limit input fault ≡ Some m) }
{}

/// The integers that are told stand where the places of faults are counted.
pub fn integers_are_spelled()
    ensures { (k : ℕ) (m : AMessage) → map place_of (integers_of k m) ≡ joined k m }
{}
