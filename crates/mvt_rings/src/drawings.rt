//! What is filled by the directions of rings: a law about the definitions alone.
ghost use Rattle.std.specs.Prelude.{◌≡◌, ℕ, ◌+◌, ◌%◌, true, List, Ok, sum_by};
ghost use Rattle.mvt_geometry.specs.declared.shape.Point.{Point};
ghost use Rattle.mvt_rings.specs.declared.nesting.Spot.{Spot};
ghost use Rattle.mvt_rings.specs.declared.rings.Kept.{Kept};
ghost use Rattle.mvt_rings.specs.Counting.{holds};
ghost use Rattle.mvt_rings.specs.Drawings.{AreNestedAt, cut, filled};
ghost use Rattle.mvt_rings.specs.Mending.{begins_negative, kept_from, mended_rings};
ghost use Rattle.mvt_rings.specs.Rings.{rings_from};

/// Where the rings that contain a spot hold one another, the larger the smaller, both drawings
/// agree: of rings that are told as many interior as exterior ones contain the spot, or one less
/// just where even-odd counting had it inside.
pub fn both_drawings_agree()
    ensures { (parts : ℕ) (spot : Spot) (rings : List (List Point)) (kept : List Kept)
        → begins_negative (kept_from 3 0 rings) ≡ true → mended_rings rings ≡ Ok kept
        → AreNestedAt parts spot (rings_from 0 rings)
        → filled parts spot kept
        ≡ cut parts spot kept + sum_by (holds parts spot) rings % 2 }
{}
