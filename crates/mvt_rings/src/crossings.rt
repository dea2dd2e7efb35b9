//! Why two rings are told to cross: a law about the definitions alone.
ghost use Rattle.std.specs.Prelude.{◌≡◌, true, List, Ok, Err};
ghost use Rattle.mvt_geometry.specs.declared.shape.Point.{Point};
ghost use Rattle.mvt_rings.specs.declared.holding.Crossing.{Crossing};
ghost use Rattle.mvt_rings.specs.declared.rings.Kept.{Kept};
ghost use Rattle.mvt_rings.specs.Crossings.{CrossingHolds};
ghost use Rattle.mvt_rings.specs.Mending.{begins_negative, kept_from, mended_rings};
ghost use Rattle.mvt_rings.specs.Rings.{rings_from};

/// Two rings are told to cross only where one may hold the other and its place isn't clear, or
/// where the least ring that holds one hasn't one holder less. Of rings that are told no two are
/// such.
pub fn crossing_holds()
    ensures holds { (rings : List (List Point)) (c : Crossing) → mended_rings rings ≡ Err c
        → CrossingHolds (rings_from 0 rings) c }
    ensures only { (rings : List (List Point)) (kept : List Kept) (c : Crossing)
        → begins_negative (kept_from 3 0 rings) ≡ true → mended_rings rings ≡ Ok kept
        → CrossingHolds (rings_from 0 rings) c → ⊥ }
{}
