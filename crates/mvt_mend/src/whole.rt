//! The changes that are told of a feature are whole: laws about the definitions alone.
ghost use Rattle.std.specs.Prelude.{◌≡◌, ◌≢◌, ◌↔◌, ◌<◌, ◌+◌, ◌^◌, ℕ, List, [], ◌∷◌, length, sum_by};
ghost use Rattle.mvt_base.specs.Rules.{IsOneOf};
ghost use Rattle.mvt_feature.specs.Ranges.{AreBytes};
ghost use Rattle.mvt_geometry.specs.declared.shape.Point.{Point};
ghost use Rattle.mvt_mend.specs.declared.change.Change.TheVariants.{TurnedRing, RepeatedPoint, PartLeftOut, FeatureLeftOut, MovedRing};
ghost use Rattle.mvt_mend.specs.declared.geometry.Outcome.TheVariants.{Becomes};
ghost use Rattle.mvt_mend.specs.declared.geometry.Remade.{Remade};
ghost use Rattle.mvt_mend.specs.Features.{feature_changes, feature_outcome, mended_feature};
ghost use Rattle.mvt_mend.specs.Geometry.{points_of};
ghost use Rattle.mvt_mend.specs.Stays.{fields_of};
ghost use Rattle.mvt_mend.specs.Tiles.{layer_changes, mended_layer};
ghost use Rattle.mvt_mend.specs.Whole.{HasFewer, HasGone, HasLeft, HasMoved, HasTurned, SpellsBoth, points_gone};

/// Where other integers stand in place of a feature's, these and those spell the lines or rings
/// whose changes are told, and every point that was there is there then, or told: as far as a
/// `usize` counts them.
pub fn points_are_told()
    ensures spelled { (payload : List ℕ) (remade : Remade)
        → feature_outcome payload ≡ Becomes remade → SpellsBoth payload remade }
    ensures points { (layer n : ℕ) (payload : List ℕ) (remade : Remade)
        → feature_outcome payload ≡ Becomes remade
        → sum_by (length {A = Point}) remade.parts < 2 ^ 64
        → sum_by length remade.parts ≡ sum_by length (points_of remade.kept)
        + sum_by points_gone (feature_changes layer n payload) }
{}

/// Of each line or ring is told just what became of it: that a ring was turned where the sign of
/// its area changed; that it was moved where it stands elsewhere than behind those before it that
/// stay; how many points it lost; and that it was left out, with its points, unless its feature is.
pub fn changes_are_whole()
    ensures turned { (layer n : ℕ) (payload : List ℕ) (remade : Remade)
        → feature_outcome payload ≡ Becomes remade → (i : ℕ)
        → IsOneOf (feature_changes layer n payload) (TurnedRing layer n i) ↔ HasTurned remade i }
    ensures moved { (layer n : ℕ) (payload : List ℕ) (remade : Remade)
        → feature_outcome payload ≡ Becomes remade → (i to : ℕ)
        → IsOneOf (feature_changes layer n payload) (MovedRing layer n i to)
        ↔ HasMoved remade i to }
    ensures repeated { (layer n : ℕ) (payload : List ℕ) (remade : Remade)
        → feature_outcome payload ≡ Becomes remade → (i count : ℕ)
        → IsOneOf (feature_changes layer n payload) (RepeatedPoint layer n i count)
        ↔ HasFewer remade i count }
    ensures gone { (layer n : ℕ) (payload : List ℕ) (remade : Remade)
        → feature_outcome payload ≡ Becomes remade → remade.integers ≢ [] → (i count : ℕ)
        → IsOneOf (feature_changes layer n payload) (PartLeftOut layer n i count)
        ↔ HasGone remade i count }
    ensures left_out { (layer n : ℕ) (payload : List ℕ) (remade : Remade)
        → feature_outcome payload ≡ Becomes remade → (count : ℕ)
        → IsOneOf (feature_changes layer n payload) (FeatureLeftOut layer n count)
        ↔ HasLeft remade count }
{}

/// Nothing is told of a feature exactly where it stays, byte by byte; a layer of which nothing is
/// told keeps its fields, each feature byte by byte.
pub fn nothing_is_untold()
    ensures stays { (layer n : ℕ) (payload : List ℕ) → feature_changes layer n payload ≡ []
        → mended_feature payload ≡ payload ∷ [] }
    ensures silent { (layer n : ℕ) (payload : List ℕ) → AreBytes payload
        → length payload < 2 ^ 64 → mended_feature payload ≡ payload ∷ []
        → feature_changes layer n payload ≡ [] }
    ensures layer { (n : ℕ) (payload : List ℕ) → AreBytes payload
        → length (mended_layer payload) < 2 ^ 64 → layer_changes n payload ≡ []
        → fields_of (mended_layer payload) ≡ fields_of payload }
{}
