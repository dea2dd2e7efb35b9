//! Laws about the definitions alone: functions without effect, whose contract is the law.
ghost use Rattle.std.specs.Prelude.{◌≡◌, ℕ, ◌<◌, ◌≤◌, List, [], ◌∷◌, ◌++◌, length, take, get_or, slice_get, None, Some, IsUtf8};
ghost use Rattle.std.specs.List.{AllByRecursion};
ghost use Rattle.mvt_base.specs.Rules.{AreOrdered, first};
ghost use Rattle.mvt_attrs.specs.Pools.{key_pool, value_pool};
ghost use Rattle.mvt_attrs.specs.TagPlaces.{IsIn};
ghost use Rattle.mvt_feature.specs.declared.feature.Feature.{Feature};
ghost use Rattle.mvt_feature.specs.Faults.{MessageFault};
ghost use Rattle.mvt_feature.specs.Forms.{HasForm, message};
ghost use Rattle.mvt_feature.specs.Ranges.{AreBytes};
ghost use Rattle.mvt_feature.specs.Selection.{HaveForm, only};
ghost use Rattle.mvt_feature.specs.Valid.{ValidFeature, ValidValue};
ghost use Rattle.mvt_message.specs.declared.numbers.layer.TheConstants.{NAME, FEATURES, KEYS, VALUES, EXTENT, VERSION};
ghost use Rattle.mvt_message.specs.declared.item.Item.{Item};
ghost use Rattle.mvt_message.specs.ItemRules.{item_rules, item_fault, payload_names};
ghost use Rattle.mvt_message.specs.Items.{IsItem, names_in};
ghost use Rattle.mvt_message.specs.CanonicalItems.{canonical_item, keys_of, values_of};
ghost use Rattle.mvt_message.specs.ValidItems.{ValidItem, WasValidItem};
ghost use Rattle.mvt_wire.specs.Field.{Entry};
ghost use Rattle.mvt_wire.specs.Split.{split};

use mvt_base::LIMIT;

/// The fields of a layer have the standard's numbers (4.1). Definitions and code name the
/// constants, so this alone refuses another number.
pub fn field_numbers()
    ensures { (NAME ≡ 1) × (FEATURES ≡ 2) × (KEYS ≡ 3) × (VALUES ≡ 4) × (EXTENT ≡ 5)
        × (VERSION ≡ 15) }
{}

/// A payload without a fault is an item, and that of an item has no fault.
pub fn item_or_fault()
    ensures there { (b : List ℕ) (payload_at tag_at : ℕ) → item_fault b payload_at tag_at ≡ None
        → (item : Item) × IsItem b item }
    ensures clean { (b : List ℕ) (payload_at tag_at : ℕ) (item : Item) → IsItem b item
        → item_fault b payload_at tag_at ≡ None }
{}

/// The fault is the first of the table, which is in order.
pub fn item_in_order()
    ensures fault { (b : List ℕ) (payload_at tag_at : ℕ)
        → item_fault b payload_at tag_at ≡ first (item_rules b payload_at tag_at) }
    ensures ordered { (b : List ℕ) (payload_at tag_at : ℕ)
        → AreOrdered (item_rules b payload_at tag_at) }
{}

/// The feature in which the first fault stands is there: each field of features holds bytes, and
/// there is one of its index.
pub fn feature_of_a_fault()
    ensures { (b : List ℕ) (payload_at tag_at : ℕ) (fault : MessageFault) (j : ℕ)
        → item_fault b payload_at tag_at ≡ Some fault → fault.feature ≡ Some j
        → HaveForm FEATURES (HasForm message) (split b).fields × (x : Entry)
        × (slice_get (only FEATURES (split b).fields) j ≡ Some x) }
{}

/// A payload is one item at most.
pub fn one_item()
    ensures { (b : List ℕ) (i j : Item) → IsItem b i → IsItem b j → i ≡ j }
{}

/// The item of a payload is valid.
pub fn read_items_are_valid()
    ensures { (b : List ℕ) (item : Item) → AreBytes b → IsItem b item → ValidItem item }
{}

/// The names of an item are those of its payload.
pub fn item_names()
    ensures { (b : List ℕ) (item : Item) → IsItem b item → names_in item ≡ payload_names b }
{}

/// The canonical payload of a valid item is that item.
pub fn canonical_reads()
    ensures { (item : Item) → ValidItem item → length (canonical_item item) ≤ LIMIT
        → IsItem (canonical_item item) item }
{}

/// The keys and the values that features use: those of valid features can be written, and each
/// feature has its own among them.
pub fn pools_of_features()
    ensures keys { (features : List Feature) → AllByRecursion ValidFeature features
        → AllByRecursion IsUtf8 (keys_of features) }
    ensures values { (features : List Feature) → AllByRecursion ValidFeature features
        → AllByRecursion ValidValue (values_of features) }
    ensures held { (features : List Feature)
        → AllByRecursion (λ (f : Feature). AllByRecursion
        (IsIn (keys_of features) (values_of features)) f.attributes) features }
{}

/// An item that was valid with positions in the narrow range is valid.
pub fn old_items_stay()
    ensures { (item : Item) → WasValidItem item → ValidItem item }
{}
