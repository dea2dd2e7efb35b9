//! Laws about the definitions alone: functions without effect, whose contract is the law.
ghost use Rattle.std.specs.Prelude.{◌≡◌, ◌==◌, ◌↔◌, ℕ, ◌+◌, ◌^◌, ◌<◌, List, [], ◌∷◌, ◌++◌, length, None, Some, if◌then◌else◌, Ok, Err, IsUtf8};
ghost use Rattle.std.specs.List.{AllByRecursion};
ghost use Rattle.mvt_base.specs.Rules.{AreOrdered, IsLeast, each, first};
ghost use Rattle.mvt_attrs.specs.declared.value.Attribute.{Attribute};
ghost use Rattle.mvt_attrs.specs.Values.{Value};
ghost use Rattle.mvt_feature.specs.declared.numbers.feature.TheConstants.{ID, TAGS, TYPE, GEOMETRY};
ghost use Rattle.mvt_feature.specs.declared.numbers.value.TheConstants.{STRING, FLOAT, DOUBLE, INT, UINT, SINT, BOOL};
ghost use Rattle.mvt_feature.specs.declared.feature.Feature.{Feature};
ghost use Rattle.mvt_attrs.specs.Tags.{Names};
ghost use Rattle.mvt_wire.specs.declared.fault.WireFault.{WireFault};
ghost use Rattle.mvt_wire.specs.declared.field.Field.{Field};
ghost use Rattle.mvt_wire.specs.Field.{Entry, entry_of};
ghost use Rattle.mvt_wire.specs.Fields.{GivesEntry};
ghost use Rattle.mvt_wire.specs.Spelling.{Plain, spelled};
ghost use Rattle.mvt_wire.specs.Split.{Parts, Whole, split};
ghost use Rattle.mvt_feature.specs.Causes.{of_wire};
ghost use Rattle.mvt_feature.specs.Canonical.{value_fields, feature_fields};
ghost use Rattle.mvt_feature.specs.Faults.{MessageFault, fault_at, rest_rules};
ghost use Rattle.mvt_feature.specs.Forms.{Form, IsFirst, HaveForms, forms_rules};
ghost use Rattle.mvt_feature.specs.Ranges.{AreBytes, IsInRange};
ghost use Rattle.mvt_feature.specs.Valid.{ValidAttribute, ValidValue, ValidFeature};
ghost use Rattle.mvt_feature.specs.Features.{IsFeatureOf, number_in, number_of};
ghost use Rattle.mvt_feature.specs.FeatureRules.{feature_rules, feature_fault};
ghost use Rattle.mvt_feature.specs.Selection.{AreAlike, contents_at, last_only};
ghost use Rattle.mvt_feature.specs.Values.{IsValueOf};
ghost use Rattle.mvt_feature.specs.ValueIn.{value_in};
ghost use Rattle.mvt_feature.specs.ValueRules.{value_rules, value_fault};
ghost use Rattle.mvt_feature.specs.Walks.{Walk};

/// The fields of a feature, and those of a value, have the standard's numbers (4.1). Definitions
/// and code name the constants, so this alone refuses another number.
pub fn field_numbers()
    ensures feature { (ID ≡ 1) × (TAGS ≡ 2) × (TYPE ≡ 3) × (GEOMETRY ≡ 4) }
    ensures value { (STRING ≡ 1) × (FLOAT ≡ 2) × (DOUBLE ≡ 3) × (INT ≡ 4) × (UINT ≡ 5) × (SINT ≡ 6)
        × (BOOL ≡ 7) }
{}

/// A payload without a fault is just one value, and a payload that is a value has no fault.
pub fn value_or_fault()
    ensures there { (payload : List ℕ) (payload_at tag_at : ℕ)
        → value_fault payload payload_at tag_at ≡ None
        → (value : Value) × IsValueOf payload value }
    ensures clean { (payload : List ℕ) (payload_at tag_at : ℕ) (value : Value)
        → IsValueOf payload value
        → value_fault payload payload_at tag_at ≡ None }
    ensures once { (payload : List ℕ) (value other : Value) → IsValueOf payload value
        → IsValueOf payload other → value ≡ other }
{}

/// The value of a payload that is one is `value_in` of it.
pub fn value_function()
    ensures { (payload : List ℕ) (value : Value) → IsValueOf payload value
        → value_in payload ≡ Some value }
{}

/// The fault of a value is that of the broken rule of least rank.
pub fn value_fault_is_least()
    ensures ordered { (payload : List ℕ) (payload_at tag_at : ℕ)
        → AreOrdered (value_rules payload payload_at tag_at) }
    ensures least { (payload : List ℕ) (payload_at tag_at : ℕ) (fault : MessageFault) →
        (value_fault payload payload_at tag_at ≡ Some fault)
        ↔ IsLeast (value_rules payload payload_at tag_at) fault }
{}

/// A payload without a fault is just one feature, and a payload that is a feature has no fault.
pub fn feature_or_fault()
    ensures there { (payload : List ℕ) (payload_at : ℕ) (keys : List (List ℕ))
        (values : List Value) →
        feature_fault payload payload_at keys values ≡ None → (feature : Feature)
        × IsFeatureOf payload keys values feature }
    ensures clean { (payload : List ℕ) (payload_at : ℕ) (keys : List (List ℕ)) (values : List Value)
        (feature : Feature) →
        IsFeatureOf payload keys values feature
        → feature_fault payload payload_at keys values ≡ None }
    ensures once { (payload : List ℕ) (keys : List (List ℕ)) (values : List Value)
        (feature other : Feature) →
        IsFeatureOf payload keys values feature → IsFeatureOf payload keys values other
        → feature ≡ other }
{}

/// The fault of a feature is that of the broken rule of least rank.
pub fn feature_fault_is_least()
    ensures ordered { (payload : List ℕ) (payload_at : ℕ) (keys : List (List ℕ))
        (values : List Value) →
        AreOrdered (feature_rules payload payload_at keys values) }
    ensures least { (payload : List ℕ) (payload_at : ℕ) (keys : List (List ℕ)) (values : List Value)
        (fault : MessageFault) →
        (feature_fault payload payload_at keys values ≡ Some fault)
        ↔ IsLeast (feature_rules payload payload_at keys values) fault }
{}

/// What is written for a valid value reads as that value, and what is written for a valid feature,
/// with tags that name its attributes, reads as that feature.
pub fn canonical_reads()
    ensures value { (value : Value) → ValidValue value
        → length (spelled (value_fields value)) < 2 ^ 64
        → IsValueOf (spelled (value_fields value)) value }
    ensures feature { (keys : List (List ℕ)) (values : List Value) (tags : List ℕ)
        (feature : Feature) →
        ValidFeature feature → Names keys values tags feature.attributes
        → AllByRecursion (λ tag. tag < 2 ^ 32) tags
        → length (spelled (feature_fields tags feature)) < 2 ^ 64
        → IsFeatureOf (spelled (feature_fields tags feature)) keys values feature }
{}

/// What bytes are read as is valid; a feature, or attributes, where the keys and the values of the
/// layer are.
pub fn read_is_valid()
    ensures fields { (payload : List ℕ) (fields : List Entry) → AreBytes payload
        → Whole payload fields
        → AllByRecursion (λ (x : Entry). IsInRange x.content) fields }
    ensures value { (payload : List ℕ) (value : Value) → AreBytes payload → IsValueOf payload value
        → ValidValue value }
    ensures feature { (payload : List ℕ) (keys : List (List ℕ)) (values : List Value)
        (feature : Feature) →
        AreBytes payload → AllByRecursion IsUtf8 keys → AllByRecursion ValidValue values
        → IsFeatureOf payload keys values feature → ValidFeature feature }
    ensures attributes { (keys : List (List ℕ)) (values : List Value) (tags : List ℕ)
        (attributes : List Attribute) →
        AllByRecursion IsUtf8 keys → AllByRecursion ValidValue values
        → Names keys values tags attributes → AllByRecursion ValidAttribute attributes }
{}

/// Fields break no rule of their forms exactly where they have them, and these rules are in order.
pub fn forms()
    ensures have { (forms : List (ℕ × Form)) (payload_at : ℕ) (fields : List Entry)
        → AllByRecursion (IsFirst forms) forms
        → first (each (λ _. forms_rules forms payload_at) [] fields) ≡ None
        → HaveForms forms fields }
    ensures clean { (forms : List (ℕ × Form)) (payload_at : ℕ) (fields : List Entry)
        → HaveForms forms fields
        → first (each (λ _. forms_rules forms payload_at) [] fields) ≡ None }
    ensures ordered { (forms : List (ℕ × Form)) (payload_at : ℕ) (x : Entry)
        → AreOrdered (forms_rules forms payload_at x) }
{}

/// A rest has no fault exactly where no bytes are left, and its rules are in order.
pub fn rests()
    ensures none { (payload_at : ℕ) (parts : Parts) → parts.rest ≡ []
        → first (rest_rules payload_at parts) ≡ None }
    ensures nothing { (payload_at : ℕ) (parts : Parts) → first (rest_rules payload_at parts) ≡ None
        → parts.rest ≡ [] }
    ensures ordered { (payload_at : ℕ) (parts : Parts) → AreOrdered (rest_rules payload_at parts) }
{}

/// A walk begins before the first field of a payload, takes one field a step and ends after the
/// last or at a rest. What it meets stands inside the payload.
pub fn walks()
    ensures start { (payload : List ℕ) (it : Parts) → it ≡ split payload
        → it.rest_at + length it.rest ≡ length payload → Walk payload it [] }
    ensures step { (payload : List ℕ) (old new : Parts) (done : List Entry) (field : Field)
        → Walk payload old done
        → GivesEntry old (Some (Ok field)) new → Walk payload new (done ++ entry_of field ∷ []) }
    ensures fits { (payload : List ℕ) (old new : Parts) (done : List Entry) (field : Field)
        (payload_at : ℕ)
        → Walk payload old done → GivesEntry old (Some (Ok field)) new
        → payload_at + length payload < 2 ^ 64
        → payload_at + field.at < 2 ^ 64 }
    ensures end { (payload : List ℕ) (old new : Parts) (done : List Entry) → Walk payload old done
        → GivesEntry old None new → ((split payload).fields ≡ done) × ((split payload).rest ≡ []) }
    ensures fault_fits { (payload : List ℕ) (old new : Parts) (done : List Entry)
        (fault : WireFault) (payload_at : ℕ)
        → Walk payload old done → GivesEntry old (Some (Err fault)) new
        → payload_at + length payload < 2 ^ 64
        → payload_at + fault.at < 2 ^ 64 }
    ensures fault { (payload : List ℕ) (old new : Parts) (done : List Entry) (fault : WireFault)
        (payload_at : ℕ)
        → Walk payload old done → GivesEntry old (Some (Err fault)) new
        → first (rest_rules payload_at (split payload)) ≡ Some
        (fault_at (payload_at + fault.at) (of_wire fault.cause)) }
{}

/// One more field is the last of its number.
pub fn number_more()
    ensures { (k : ℕ) (fields : List Entry) (x : Entry) → number_in (last_only k (fields ++ x ∷ []))
        ≡ (if x.number == k then number_of x.content else number_in (last_only k fields)) }
{}

/// The contents of fields are those of their parts, and a field may as well stand in front of
/// others of which none has its number.
pub fn fields_in_any_order()
    ensures joined { (k : ℕ) (ps qs : List Plain)
        → contents_at k (ps ++ qs) ≡ contents_at k ps ++ contents_at k qs }
    ensures between { (front back : List Plain) (p : Plain) → contents_at p.number back ≡ []
        → AreAlike ((front ++ back) ++ p ∷ []) (front ++ p ∷ back) }
{}
