//! Positions, however they are kept.
ghost use Rattle.std.specs.Prelude.{◌≡◌};
ghost use Rattle.mvt_geometry.specs.declared.shape.Point.{Point as APoint};

use crate::shape::Point;

/// A position in a tile, however it is kept.
pub trait Position {
    // The point that it is.
    ghost point_of: { Self → APoint };

    /// The position as a point.
    fn point(&self) -> Point
        ensures { result ≡ point_of self.now };
}

impl Position for Point {
    ghost point_of = { λ p. p };

    #[inline(always)]
    fn point(&self) -> Point {
        *self
    }
}
