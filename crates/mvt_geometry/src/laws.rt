//! Laws about the definitions alone: functions without effect, whose contract is the law.
ghost use Rattle.std.specs.Prelude.{◌≡◌, ◌↔◌, ◌<◌, ◌^◌, ℕ, List, [], ◌∷◌, ◌++◌, Some, None};
ghost use Rattle.std.specs.List.{AllByRecursion};
ghost use Rattle.mvt_base.specs.Rules.{AreOrdered, IsLeast};
ghost use Rattle.mvt_geometry.specs.declared.shape.Kind.{Kind};
ghost use Rattle.mvt_geometry.specs.declared.shape.Geometry.{Geometry};
ghost use Rattle.mvt_geometry.specs.declared.shape.Point.{Point};
ghost use Rattle.mvt_geometry.specs.Parts.{AreStrokes, IsStrokeFrom, end_of};
ghost use Rattle.mvt_geometry.specs.Shape.{wide, narrow, origin, last_of};
ghost use Rattle.mvt_geometry.specs.Valid.{IsValid, IsValidNarrow};
ghost use Rattle.mvt_geometry.specs.Drawing.{drawn, Draws, DrawsOf, stroke, strokes};
ghost use Rattle.mvt_geometry.specs.Table.{IndexedCause, geometry_rules, geometry_fault};

/// Integers draw at most one geometry.
pub fn one_geometry()
    ensures { (kind : Kind) (ints : List ℕ) (g h : Geometry) → Draws kind ints g → Draws kind ints h
        → g ≡ h }
{}

/// Integers that draw a geometry have no fault.
pub fn drawn_is_faultless()
    ensures { (kind : Kind) (ints : List ℕ) (g : Geometry) → Draws kind ints g
        → geometry_fault kind ints ≡ None }
{}

/// Integers of 32 bits without a fault draw a geometry.
pub fn faultless_draws()
    ensures { (kind : Kind) (ints : List ℕ) → AllByRecursion (λ n. n < 2 ^ 32) ints
        → geometry_fault kind ints ≡ None → (g : Geometry) × Draws kind ints g }
{}

/// The fault is that of the broken rule of least rank.
pub fn fault_is_least()
    ensures { (kind : Kind) (ints : List ℕ) (fault : IndexedCause)
        → (geometry_fault kind ints ≡ Some fault) ↔ IsLeast (geometry_rules kind ints) fault }
{}

/// The table of rules is in order.
pub fn geometry_ordered()
    ensures { (kind : Kind) (ints : List ℕ) → AreOrdered (geometry_rules kind ints) }
{}

/// A valid geometry is drawn by integers of 32 bits.
pub fn drawn_small()
    ensures { (g : Geometry) → IsValid g → AllByRecursion (λ n. n < 2 ^ 32) (drawn g) }
{}

/// What is valid with positions in the narrow range, from -2^30 to 2^30 - 1, is valid.
pub fn old_geometries_stay()
    ensures { (g : Geometry) → IsValidNarrow g → IsValid g }
{}

/// What integers draw with positions in the narrow range, they draw.
pub fn narrow_is_wide()
    ensures { (kind : Kind) (ints : List ℕ) (g : Geometry)
        → DrawsOf narrow kind ints g → DrawsOf wide kind ints g }
{}

/// Lines or rings can be drawn one after another if each can be drawn from where the last one ends.
pub fn stroke_follows()
    ensures { (least : ℕ) (lines : List (List Point)) (line : List Point)
        → AreStrokes least (lines ++ line ∷ [])
        ↔ (AreStrokes least lines × IsStrokeFrom least (end_of lines) line) }
{}

/// Their integers are those of each, from where the last one ends.
pub fn strokes_follow()
    ensures { (end : List ℕ) (lines : List (List Point)) (line : List Point)
        → strokes end origin (lines ++ line ∷ [])
        ≡ strokes end origin lines ++ stroke end (end_of lines) line }
{}

/// The cursor then stands where the last one ends.
pub fn end_follows()
    ensures { (lines : List (List Point)) (line : List Point)
        → end_of (lines ++ line ∷ []) ≡ last_of (end_of lines) line }
{}
