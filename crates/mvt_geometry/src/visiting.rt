//! A geometry passed to a visitor point by point, without lists.
ghost use Rattle.std.specs.Prelude.{◌≡◌, ◌≢◌, pos, ◌||◌, ◌<◌, ◌≤◌, ◌*◌, ◌^◌, ℕ, true, List, [], ◌∷◌, ◌++◌, length, map, Some, IfOk, IfErr, OnOk};
ghost use Rattle.mvt_geometry.specs.declared.shape.Point.{Point};
ghost use Rattle.mvt_geometry.specs.declared.shape.Geometry.{Geometry};
ghost use Rattle.std.specs.Int.Signed.{lt_z};
ghost use Rattle.mvt_geometry.specs.Rings.{are_same};
ghost use Rattle.mvt_geometry.specs.Drawing.{Draws};
ghost use Rattle.mvt_geometry.specs.Table.{geometry_fault};
ghost use Rattle.mvt_geometry.specs.Reports.{Reports};
ghost use Rattle.mvt_geometry.specs.Visiting.{Part, EndsAs, HasDrawn};

use crate::fault::GeometryError;
use crate::integers::Listed;
use crate::judging::judge;
use crate::packed::tell_integers;
use crate::shape::{Kind, Point};
use std::alloc::AllocError;

/// An object that receives a geometry as it is read: each point of a part, and then the part's end.
/// A part is a line, a ring, or all points of a feature of points (Mapbox Vector Tile Specification
/// 2.1, 4.3.4).
pub trait GeometryVisitor: Drop {
    // Since it was in the first state it was told these parts, and these points of one to come.
    ghost has_parts: { Self → List Part → List Point → Self → Type 0 };

    // And of a geometry of unknown type these integers.
    ghost has_integers: { Self → List ℕ → Self → Type 0 };

    /// Takes the next point of a part.
    ///
    /// # Errors
    ///
    /// When memory runs out, as the other two.
    fn visit_point(&mut self, point: Point) -> Result<(), AllocError>
        ensures { (start : Self) (parts : List Part) (begun : List Point)
            → has_parts start parts begun self.old
            → OnOk result (has_parts start parts (begun ++ point ∷ []) self.new) };

    /// Ends a part that has this many points, and tells of a ring what is known of it. An exterior
    /// one begins a polygon.
    fn end_part(&mut self, points: usize, ring: Option<Ring>) -> Result<(), AllocError>
        ensures { (start : Self) (parts : List Part) (part : Part)
            → has_parts start parts part.points self.old → EndsAs part points ring
            → OnOk result (has_parts start (parts ++ part ∷ []) [] self.new) };

    /// Takes the integers of a geometry of unknown type.
    fn visit_integers(&mut self, integers: &[u32]) -> Result<(), AllocError>
        ensures { OnOk result (has_integers self.old integers.now self.new) };

    ghost begins: { (start : Self) → has_parts start [] [] start };
}

/// A visitor that keeps nothing.
#[derive(Drop)]
pub struct Ignore;

impl GeometryVisitor for Ignore {
    ghost has_parts = { λ _ _ _ _. Unit {0} };

    ghost has_integers = { λ _ _ _. Unit {0} };

    ghost begins = { λ _. tt };

    #[inline(always)]
    fn visit_point(&mut self, _: Point) -> Result<(), AllocError> {
        Ok(())
    }

    #[inline(always)]
    fn end_part(&mut self, _: usize, _: Option<Ring>) -> Result<(), AllocError> {
        Ok(())
    }

    #[inline(always)]
    fn visit_integers(&mut self, _: &[u32]) -> Result<(), AllocError> {
        Ok(())
    }
}

/// What is known of a ring at its end.
#[derive(Clone, Copy, Debug)]
pub struct Ring {
    pub exterior: bool,
    /// Twice its area by the surveyor's formula (4.3.4.4).
    pub twice_area: i128,
    /// Whether its last point is its first.
    pub is_closed: bool,
}

/// Passes the geometry of this type that the integers draw to a visitor.
///
/// All integers are judged first.
///
/// # Errors
///
/// As [`read_geometry`](crate::read_geometry).
pub fn draw_geometry<V: GeometryVisitor>(
    visitor: &mut V,
    kind: Kind,
    integers: &[u32],
) -> Result<(), GeometryError>
    ensures drawn { OnOk result ((g : Geometry) × Draws kind integers.now g
        × HasDrawn V.has_parts V.has_integers visitor.old visitor.new g) }
    ensures ok { OnOk result (geometry_fault kind integers.now ≡ None) }
    ensures err { IfErr result (λ e. Reports e (geometry_fault kind integers.now)) }
    ensures memory { result ≡ Err GeometryError.Memory → (g : Geometry)
        × Draws kind integers.now g }
    ensures untold { geometry_fault kind integers.now ≢ None → visitor.new ≡ visitor.old }
{
    judge(kind, integers)?;
    Ok(draw(visitor, kind, integers)?)
}

/// The same for integers that draw a geometry.
fn draw<V: GeometryVisitor>(visitor: &mut V, kind: Kind, integers: &[u32]) -> Result<(), AllocError>
    ensures { (g : Geometry) → Draws kind integers.now g
        → OnOk result (HasDrawn V.has_parts V.has_integers visitor.old visitor.new g) }
{
    if kind == Kind::Unknown {
        return visitor.visit_integers(integers);
    }
    if tell_integers(visitor, kind, Listed { integers })? {
        return Ok(());
    }
    // Integers that draw a geometry are told whole.
    Err(AllocError)
}

/// Whether a ring of this area, doubled, begins a polygon (4.3.4.4).
#[inline(always)]
pub(crate) fn begins_polygon(is_first: bool, area: i128) -> bool
    ensures { result ≡ (is_first || lt_z (pos 0) area) }
{
    is_first || area > 0
}

#[inline(always)]
pub(crate) fn is_same(p: Point, q: Point) -> bool
    ensures { result ≡ are_same (Some p) (Some q) }
{
    p.x == q.x && p.y == q.y
}
