//! What stays of a tile that is mended: laws about the definitions alone.
ghost use Rattle.std.specs.Prelude.{◌≡◌, ◌⊎◌, ◌<◌, ◌^◌, ℕ, true, false, List, [], ◌∷◌, length};
ghost use Rattle.mvt_wire.specs.Split.{split};
ghost use Rattle.mvt_feature.specs.Ranges.{AreBytes};
ghost use Rattle.mvt_message.specs.declared.numbers.layer.TheConstants.{FEATURES};
ghost use Rattle.mvt_tile_value.specs.declared.numbers.tile.TheConstants.{LAYERS};
ghost use Rattle.mvt_mend.specs.Features.{mended_feature};
ghost use Rattle.mvt_mend.specs.Stays.{AreBut, IsFeatureBut, IsLayerBut, fields_of};
ghost use Rattle.mvt_mend.specs.Tiles.{as_layer, changes_in, fields_with, is_layer, mended, mended_layer};

/// Of a feature that is mended all but the geometry stays, of a layer all but the features, and of
/// a tile all but the layers, if memory can hold what is made. In a layer each feature is mended in
/// its place, and in a tile each layer, and their fields are spelled anew; what is no layer of
/// version 2 with a name stays byte by byte.
pub fn else_stays()
    ensures feature { (payload made : List ℕ) → AreBytes payload
        → mended_feature payload ≡ made ∷ [] → length made < 2 ^ 64 → IsFeatureBut payload made }
    ensures layer { (payload : List ℕ) → AreBytes payload → length (mended_layer payload) < 2 ^ 64
        → IsLayerBut payload (mended_layer payload) }
    ensures features { (payload : List ℕ) → AreBytes payload
        → length (mended_layer payload) < 2 ^ 64 → is_layer payload ≡ true
        → fields_of (mended_layer payload)
        ≡ fields_with mended_feature FEATURES (split payload).fields }
    ensures other { (payload : List ℕ) → is_layer payload ≡ false
        → mended_layer payload ≡ payload }
    ensures tile { (input : List ℕ) → AreBytes input → length (mended input) < 2 ^ 64
        → AreBut LAYERS input (mended input) }
    ensures layers { (input : List ℕ) → AreBytes input → length (mended input) < 2 ^ 64
        → (mended input ≡ input)
        ⊎ (fields_of (mended input) ≡ fields_with as_layer LAYERS (split input).fields) }
{}

/// Mending bytes twice is mending them once: the second time nothing is changed, and so nothing is
/// told. Nothing is told exactly where the bytes stay.
pub fn mended_again()
    ensures bytes { (input : List ℕ) → AreBytes input → mended (mended input) ≡ mended input }
    ensures changes { (input : List ℕ) → AreBytes input → changes_in (mended input) ≡ [] }
    ensures told { (input : List ℕ) → AreBytes input → mended input ≡ input
        → changes_in input ≡ [] }
    ensures untold { (input : List ℕ) → changes_in input ≡ [] → mended input ≡ input }
{}
