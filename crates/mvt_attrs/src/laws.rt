//! Laws about the definitions alone: functions without effect, whose contract is the law.
ghost use Rattle.std.specs.Prelude.{◌≡◌, ◌↔◌, ℕ, ◌<◌, ◌≤◌, List, ◌++◌, length, map, Option, Some, None, Contains};
ghost use Rattle.std.specs.List.{AllByRecursion};
ghost use Rattle.std.specs.Option.{option_or};
ghost use Rattle.mvt_base.specs.Rules.{AreOrdered, IsLeast, first};
ghost use Rattle.mvt_attrs.specs.Values.{Value};
ghost use Rattle.mvt_attrs.specs.declared.value.Attribute.{Attribute};
ghost use Rattle.mvt_attrs.specs.declared.resolving.TagCause.{TagCause};
ghost use Rattle.mvt_attrs.specs.FirstUse.{AreDistinct};
ghost use Rattle.mvt_attrs.specs.FirstUses.{AreFirstUses, AreInOrder};
ghost use Rattle.mvt_attrs.specs.Pools.{key_pool, value_pool};
ghost use Rattle.mvt_attrs.specs.Tags.{Names, Resolved};
ghost use Rattle.mvt_attrs.specs.TagRules.{count_rules, pair_rules, tag_rules, tag_fault};
ghost use Rattle.mvt_attrs.specs.TagPlaces.{tags_in, IsIn};
ghost use Rattle.mvt_attrs.specs.declared.used_entries.UsedEntries.{UsedEntries};
ghost use Rattle.mvt_attrs.specs.declared.used_entries.LayerEntries.{LayerEntries};
ghost use Rattle.mvt_attrs.specs.Using.{AreSameUses, AreUsesOf, IsUsedBy, entries_of};

/// Tags without a fault are resolved to just one list of attributes, and resolved tags have no
/// fault.
pub fn attributes_or_fault()
    ensures there { (keys : List (List ℕ)) (values : List Value) (tags : List ℕ) →
        tag_fault keys values tags ≡ None →
        (attributes : List Attribute) × Resolved keys values tags attributes }
    ensures clean { (keys : List (List ℕ)) (values : List Value) (tags : List ℕ)
        (attributes : List Attribute) →
        Resolved keys values tags attributes → tag_fault keys values tags ≡ None }
    ensures once { (keys : List (List ℕ)) (values : List Value) (tags : List ℕ)
        (attributes others : List Attribute) →
        Resolved keys values tags attributes → Resolved keys values tags others
        → attributes ≡ others }
{}

/// The rules stand in order of rank.
pub fn rules_in_order()
    ensures count { (tags : List ℕ) → AreOrdered (count_rules tags) }
    ensures pairs { (keys : List (List ℕ)) (values : List Value) (tags : List ℕ)
        → AreOrdered (pair_rules keys values tags) }
    ensures tags { (keys : List (List ℕ)) (values : List Value) (tags : List ℕ)
        → AreOrdered (tag_rules keys values tags) }
{}

/// The fault is that of the broken rule of least rank: of the count, and then of the pairs.
pub fn fault_is_least()
    ensures least { (keys : List (List ℕ)) (values : List Value) (tags : List ℕ)
        (fault : ℕ × TagCause) →
        (tag_fault keys values tags ≡ Some fault) ↔ IsLeast (tag_rules keys values tags) fault }
    ensures parts { (keys : List (List ℕ)) (values : List Value) (tags : List ℕ) →
        tag_fault keys values tags ≡ option_or (first (count_rules tags))
        (first (pair_rules keys values tags)) }
{}

/// No entry stands twice in a pool, and each comes from what it held or from an attribute.
pub fn pool_entries()
    ensures distinct_keys { (held : List (List ℕ)) (attributes : List Attribute)
        → AreDistinct (key_pool held attributes) }
    ensures distinct_values { (held : List Value) (attributes : List Attribute)
        → AreDistinct (value_pool held attributes) }
    ensures from_keys { (held : List (List ℕ)) (attributes : List Attribute) (key : List ℕ) →
        Contains (key_pool held attributes) key →
        Contains (held ++ map (λ (a : Attribute). a.key) attributes) key }
    ensures from_values { (held : List Value) (attributes : List Attribute) (value : Value) →
        Contains (value_pool held attributes) value →
        Contains (held ++ map (λ (a : Attribute). a.value) attributes) value }
{}

/// A pool is the same whether attributes are placed in it at once or in parts.
pub fn pools_by_parts()
    ensures keys { (held : List (List ℕ)) (attributes more : List Attribute) →
        key_pool (key_pool held attributes) more ≡ key_pool held (attributes ++ more) }
    ensures values { (held : List Value) (attributes more : List Attribute) →
        value_pool (value_pool held attributes) more ≡ value_pool held (attributes ++ more) }
{}

/// A pool only grows, and after what it holds.
pub fn pools_grow()
    ensures keys { (held : List (List ℕ)) (attributes more : List Attribute) →
        (added : List (List ℕ)) × (key_pool held (attributes ++ more)
        ≡ key_pool held attributes ++ added) }
    ensures values { (held : List Value) (attributes more : List Attribute) →
        (added : List Value) × (value_pool held (attributes ++ more)
        ≡ value_pool held attributes ++ added) }
    ensures held_keys { (held : List (List ℕ)) (attributes : List Attribute) →
        AreDistinct held → (added : List (List ℕ)) × (key_pool held attributes ≡ held ++ added) }
    ensures held_values { (held : List Value) (attributes : List Attribute) →
        AreDistinct held → (added : List Value) × (value_pool held attributes ≡ held ++ added) }
{}

/// Attributes that were placed in pools are there, whatever was placed before and after them.
pub fn pools_hold()
    ensures { (held_keys : List (List ℕ)) (held_values : List Value)
        (front attributes back : List Attribute) →
        AllByRecursion (IsIn (key_pool held_keys (front ++ (attributes ++ back)))
        (value_pool held_values (front ++ (attributes ++ back)))) attributes }
{}

/// The places of attributes name them.
pub fn places_name()
    ensures names { (keys : List (List ℕ)) (values : List Value) (attributes : List Attribute) →
        AllByRecursion (IsIn keys values) attributes
        → Names keys values (tags_in keys values attributes) attributes }
    ensures small { (keys : List (List ℕ)) (values : List Value) (attributes : List Attribute)
        (bound : ℕ) →
        AllByRecursion (IsIn keys values) attributes → length keys ≤ bound → length values ≤ bound →
        AllByRecursion (λ tag. tag < bound) (tags_in keys values attributes) }
{}

/// Tags stay when pools grow: what names attributes are their places, also in longer pools.
pub fn tags_stay()
    ensures { (keys more : List (List ℕ)) (values further : List Value) (tags : List ℕ)
        (attributes : List Attribute) →
        AreDistinct keys → AreDistinct values → Names keys values tags attributes →
        tags ≡ tags_in (keys ++ more) (values ++ further) attributes }
{}

/// Tags that name entries in order use the first of them.
pub fn uses_in_order()
    ensures { (keys : List (List ℕ)) (values : List Value) (attributes : List Attribute)
        (tags : List ℕ) (before after : ℕ × ℕ) →
        AreDistinct keys → AreDistinct values →
        before.0 ≤ length keys → before.1 ≤ length values →
        Names keys values tags attributes → AreInOrder before tags after →
        AreFirstUses keys values attributes before.0 before.1 after }
{}

/// Which entries were added can be read from what holds them.
pub fn uses_tell_entries()
    ensures keys { (uses : UsedEntries (List ℕ)) (entries : List (List ℕ))
        → AreUsesOf uses entries → entries ≡ entries_of uses }
    ensures values { (uses : UsedEntries Value) (entries : List Value)
        → AreUsesOf uses entries → entries ≡ entries_of uses }
{}

/// Where the same entries are used as before, attributes use the same more.
pub fn uses_by_what_is_used()
    ensures { (attributes : List Attribute) (old same new : LayerEntries) →
        AreSameUses old same → IsUsedBy attributes same new → IsUsedBy attributes old new }
{}
