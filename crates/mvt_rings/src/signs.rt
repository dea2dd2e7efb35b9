//! The sign of a ring's area (section 4.3.4.4).
ghost use Rattle.std.specs.Prelude.{◌≡◌};
ghost use Rattle.mvt_rings.specs.Signs.{is_positive as has_positive_area, is_negative as has_negative_area};

use mvt_geometry::{Point, twice_area};

/// Whether a ring has the area of an exterior one.
pub fn is_positive(ring: &[Point]) -> bool
    ensures { result ≡ has_positive_area ring.now }
{
    twice_area(ring) > 0
}

/// Whether a ring has the area of an interior one.
pub fn is_negative(ring: &[Point]) -> bool
    ensures { result ≡ has_negative_area ring.now }
{
    twice_area(ring) < 0
}
