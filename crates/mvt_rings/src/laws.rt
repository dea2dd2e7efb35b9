//! Laws about the definitions alone: functions without effect, whose contract is the law.
ghost use Rattle.std.specs.Prelude.{◌≡◌, ◌≢◌, ◌⊎◌, ◌==◌, ℕ, ◌+◌, ◌<◌, ◌≤◌, true, false, List, length, map, slice_index_or, sum_by, count_by, Ok, None, pos, neg_ℤ, ◌≤ℤ◌};
ghost use Rattle.std.specs.List.{AllByRecursion, filter};
ghost use Rattle.mvt_geometry.specs.declared.shape.Point.{Point};
ghost use Rattle.mvt_geometry.specs.Area.{area2};
ghost use Rattle.mvt_rings.specs.declared.boxes.Bounds.{Bounds};
ghost use Rattle.mvt_rings.specs.declared.holding.Holders.{Holders};
ghost use Rattle.mvt_rings.specs.declared.nesting.Edge.{Edge};
ghost use Rattle.mvt_rings.specs.declared.nesting.Spot.{Spot};
ghost use Rattle.mvt_rings.specs.declared.rings.Kept.{Kept};
ghost use Rattle.mvt_rings.specs.declared.rings.Ring.{Ring};
ghost use Rattle.mvt_rings.specs.Turning.{turned, as_exterior, as_interior};
ghost use Rattle.mvt_rings.specs.Nesting.{lies_at};
ghost use Rattle.mvt_rings.specs.Placing.{is_level_with};
ghost use Rattle.mvt_rings.specs.Rings.{rings_from, is_larger};
ghost use Rattle.mvt_rings.specs.Holding.{holders_of};
ghost use Rattle.mvt_rings.specs.Mending.{mended_rings, begins_negative, kept_from};
ghost use Rattle.mvt_rings.specs.Counting.{IsCount, holds};
ghost use Rattle.mvt_rings.specs.Origins.{ComesFrom};
ghost use Rattle.mvt_rings.specs.EvenOdd.{AreEvenOdd};
ghost use Rattle.mvt_rings.specs.Bands.{IsLevel};

/// A ring told in the other direction has the opposite area.
pub fn turned_area()
    ensures { (ring : List Point) → area2 (turned ring) ≡ neg_ℤ (area2 ring) }
{}

/// As an exterior one a ring has no negative area, and as an interior one no positive area.
pub fn directed_area()
    ensures exterior { (ring : List Point) → pos 0 ≤ℤ area2 (as_exterior ring) }
    ensures interior { (ring : List Point) → area2 (as_interior ring) ≤ℤ pos 0 }
{}

/// What can be counted of rings stays: its sum over all rings is the same after mending as before.
pub fn rings_stay()
    ensures { (count : List Point → ℕ) → IsCount count
        → (rings : List (List Point)) (kept : List Kept) → mended_rings rings ≡ Ok kept
        → sum_by count (map (λ k. k.points) kept) ≡ sum_by count rings }
{}

/// Every spot of the plane, also between whole points, lies in as many rings after mending as
/// before, so that even-odd counting draws the same.
pub fn even_odd_stays()
    ensures { (parts : ℕ) (spot : Spot) (rings : List (List Point)) (kept : List Kept)
        → mended_rings rings ≡ Ok kept
        → sum_by (holds parts spot) (map (λ k. k.points) kept) ≡ sum_by (holds parts spot) rings }
{}

/// Each ring that stays is one of those that stood there, told in one direction or the other,
/// without repeated points; none stays twice.
pub fn rings_come_from_rings()
    ensures origin { (rings : List (List Point)) (kept : List Kept) → mended_rings rings ≡ Ok kept
        → AllByRecursion (ComesFrom rings) kept }
    ensures once { (rings : List (List Point)) (kept : List Kept) → mended_rings rings ≡ Ok kept
        → (n : ℕ) → count_by (λ k. k.index == n) kept ≤ 1 }
{}

/// Where rings are told, their signs say even-odd: positive area where an even number of others
/// hold a ring, negative area where an odd number do; then the exterior ring before it is the least
/// of these.
pub fn signs_say_even_odd()
    ensures { (rings : List (List Point)) (kept : List Kept)
        → begins_negative (kept_from 3 0 rings) ≡ true → mended_rings rings ≡ Ok kept
        → (h : Holders) × (holders_of (rings_from 0 rings) ≡ Ok h) × AreEvenOdd h None kept }
{}

/// Of the edges of a ring those that are not level with a box tell nothing of a spot that is, also
/// of one that is up to a unit above or below it.
pub fn band_tells()
    ensures { (bounds : Bounds) (spot : Spot) → IsLevel bounds spot → (edges : List Edge)
        → lies_at 2 spot (filter (is_level_with bounds) edges) ≡ lies_at 2 spot edges }
{}

/// Which of two rings is larger is a strict total order: of two that differ in their index one is
/// larger, and rings have their places for indices.
pub fn larger_orders()
    ensures irreflexive { (r : Ring) → is_larger r r ≡ false }
    ensures transitive { (o p q : Ring) → is_larger o p ≡ true → is_larger p q ≡ true
        → is_larger o q ≡ true }
    ensures total { (o r : Ring) → o.index ≢ r.index
        → (is_larger o r ≡ true) ⊎ (is_larger r o ≡ true) }
    ensures numbered { (n : ℕ) (rings : List (List Point)) (i : ℕ) (d : Ring) → i < length rings
        → (slice_index_or (rings_from n rings) i d).index ≡ n + i }
{}

/// Each ring that stays has three points at least.
pub fn rings_are_long()
    ensures { (rings : List (List Point)) (kept : List Kept) → mended_rings rings ≡ Ok kept
        → AllByRecursion (λ k. 3 ≤ length k.points) kept }
{}

/// Where rings are told none of negative area comes first.
pub fn told_begins()
    ensures { (rings : List (List Point)) (kept : List Kept)
        → begins_negative (kept_from 3 0 rings) ≡ true → mended_rings rings ≡ Ok kept
        → begins_negative kept ≡ false }
{}
