//! Laws about the definitions alone: functions without effect, whose contract is the law.
ghost use Rattle.std.specs.Prelude.{◌≡◌, ◌<◌, ℕ, Bool, true, List, [], ◌∷◌, length, None, Some};
ghost use Rattle.std.specs.List.{AllByRecursion};
ghost use Rattle.mvt_geometry.specs.declared.shape.Geometry.{Geometry};
ghost use Rattle.mvt_geometry.specs.declared.shape.Kind.{Kind};
ghost use Rattle.mvt_geometry.specs.declared.shape.Point.{Point};
ghost use Rattle.mvt_geometry.specs.Drawing.{Draws, strokes};
ghost use Rattle.mvt_geometry.specs.Shape.{origin};
ghost use Rattle.mvt_geometry.specs.Table.{geometry_fault};
ghost use Rattle.mvt_mend.specs.Drawing.{can_draw_all, closing};
ghost use Rattle.mvt_mend.specs.Geometry.{mended_geometry, points_of};
ghost use Rattle.mvt_rings.specs.Mending.{mended_lines};
ghost use Rattle.mvt_mend.specs.Origins.{ComeFrom};
ghost use Rattle.mvt_mend.specs.Reading.{parts_in};
ghost use Rattle.mvt_mend.specs.Spelling.{has_rings, HasForm, IsMendedTo};
ghost use Rattle.mvt_mend.specs.declared.change.Unmended.TheVariants.{AnotherRule};
ghost use Rattle.mvt_mend.specs.Tiles.{cause_in, changes_in, mended};
ghost use Rattle.mvt_tile_value.specs.declared.tile.Tile.{Tile};
ghost use Rattle.mvt_tile_value.specs.Tiles.{IsTile};

use mvt_base::LIMIT;

/// Integers that draw a geometry stay.
pub fn drawn_stays()
    ensures { (kind : Kind) (ints : List ℕ) (g : Geometry) → Draws kind ints g
        → mended_geometry kind ints ≡ None }
{}

/// Nothing is changed of a tile that keeps every rule.
pub fn tile_stays()
    ensures changes { (input : List ℕ) (tile : Tile) → IsTile LIMIT input tile
        → changes_in input ≡ [] }
    ensures bytes { (input : List ℕ) (tile : Tile) → IsTile LIMIT input tile
        → mended input ≡ input }
{}

/// More bytes than the limit stay as they are.
pub fn long_stays()
    ensures { (input : List ℕ) → LIMIT < length input → mended input ≡ input }
{}

/// Of more bytes than the limit nothing more is told than that another rule is broken.
pub fn long_cause()
    ensures { (input : List ℕ) → LIMIT < length input → cause_in input ≡ AnotherRule }
{}

/// What stands in place of integers breaks no rule, or is none at all.
pub fn mended_is_faultless()
    ensures { (kind : Kind) (ints : List ℕ) (n : ℕ) (new : List ℕ)
        → mended_geometry kind ints ≡ Some (n ∷ new) → geometry_fault kind (n ∷ new) ≡ None }
{}

/// What stands in place of integers draws a geometry, or is none at all.
pub fn mended_draws()
    ensures { (kind : Kind) (ints : List ℕ) (n : ℕ) (new : List ℕ)
        → mended_geometry kind ints ≡ Some (n ∷ new) → (g : Geometry) × Draws kind (n ∷ new) g }
{}

/// Mending twice is mending once: what stands in place of integers stays.
pub fn mended_once()
    ensures { (kind : Kind) (ints new : List ℕ) → mended_geometry kind ints ≡ Some new
        → mended_geometry kind new ≡ None }
{}

/// Each line that remains has the points of a line of its own without the repeated ones, and the
/// lines remain in their order.
pub fn lines_come_from_lines()
    ensures { (lines : List (List Point)) → ComeFrom lines (points_of (mended_lines lines)) }
{}

/// What stands in place of integers spells lines or rings that come from those that they spell.
pub fn mended_comes_from_spelled()
    ensures { (kind : Kind) (ints new : List ℕ) → mended_geometry kind ints ≡ Some new
        → IsMendedTo (has_rings kind) ints new }
{}

/// Integers that spell lines or rings, whatever points these repeat, are read as just these.
pub fn spelled_is_read()
    ensures { (ring : Bool) (parts : List (List Point)) → 0 < length parts
        → can_draw_all origin parts ≡ true → AllByRecursion (HasForm ring) parts
        → parts_in ring (strokes (closing ring) origin parts) ≡ Some parts }
{}
