//! Why a tile isn't mended: a law about the definitions alone.
ghost use Rattle.std.specs.Prelude.{◌≡◌, ℕ, true, false, List};
ghost use Rattle.mvt_rings.specs.declared.holding.Crossing.{Crossing};
ghost use Rattle.mvt_mend.specs.declared.change.Unmended.TheVariants.{RingsCross, TooManySteps, AnotherRule};
ghost use Rattle.mvt_mend.specs.declared.geometry.Outcome.TheVariants.{Crosses};
ghost use Rattle.mvt_mend.specs.Causes.{IsFeatureAt, RingsOfCross};
ghost use Rattle.mvt_mend.specs.Features.{feature_outcome};
ghost use Rattle.mvt_mend.specs.Tiles.{cause_in, has_layers, is_long_winded};

/// The cause that is told holds. Where two rings are told to cross, the feature of that index of
/// the layer of that index is a polygon whose rings of these indices cross; where too many steps
/// are told, they are too many. Where another rule is told, of bytes within the limit that are
/// fields, it is neither: no feature's rings cross, and the steps are within their bound.
pub fn cause_holds()
    ensures cross { (input : List ℕ) (layer feature : ℕ) (c : Crossing)
        → cause_in input ≡ RingsCross layer feature c
        → (payload : List ℕ) × IsFeatureAt input layer feature payload × RingsOfCross payload c }
    ensures steps { (input : List ℕ) → cause_in input ≡ TooManySteps
        → is_long_winded input ≡ true }
    ensures uncrossed { (input : List ℕ) → has_layers input ≡ true
        → cause_in input ≡ AnotherRule → (layer feature : ℕ) (payload : List ℕ) (c : Crossing)
        → IsFeatureAt input layer feature payload → feature_outcome payload ≡ Crosses c → ⊥ }
    ensures few_steps { (input : List ℕ) → has_layers input ≡ true
        → cause_in input ≡ AnotherRule → is_long_winded input ≡ false }
{}
