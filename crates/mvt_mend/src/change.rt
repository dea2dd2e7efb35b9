//! What is changed of a tile that is mended, and why one isn't.
use mvt_rings::Crossing;

/// A change, with the places of what it speaks of: a layer, a feature, and a line or ring, all
/// counted from 0 in the tile as it stood. Layers of every version count, and rings through all
/// polygons of the feature.
#[derive(Clone, Copy, Debug, PartialEq, Eq)]
pub enum Change {
    /// A layer, a feature, and a ring that is told in the other direction.
    TurnedRing(usize, usize, usize),
    /// A layer, a feature, a line or ring, and how many points of it are left out: each equals the
    /// one before it, or stands at the end of a ring and equals its first.
    RepeatedPoint(usize, usize, usize, usize),
    /// A layer, a feature, a line or ring that is left out, and how many points it had.
    PartLeftOut(usize, usize, usize, usize),
    /// A layer, a feature that is left out, and how many points it had.
    FeatureLeftOut(usize, usize, usize),
    /// A layer, a feature, a ring, and its index among those that stay, where that isn't the number
    /// of rings before it that stay: an interior ring stands behind the exterior one that holds it.
    MovedRing(usize, usize, usize, usize),
}

/// Why a tile that breaks a rule isn't mended.
#[derive(Clone, Copy, Debug, PartialEq, Eq)]
pub enum Unmended {
    /// A layer, a feature, and two of its rings that cross by more than rounding explains.
    RingsCross(usize, usize, Crossing),
    /// Telling the rings of the tile takes more than [`MOST_STEPS`](crate::MOST_STEPS).
    TooManySteps,
    /// Another rule is broken too, or what it would become can't be written.
    AnotherRule,
}
