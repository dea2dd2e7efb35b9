//! What is noted of a tile that is accepted.

/// A note, with the places of what it speaks of, all counted from 0.
#[derive(Clone, Copy, Debug, PartialEq, Eq)]
pub enum Note {
    /// There is no item.
    NoLayers,
    /// A layer, and its version, which isn't 2.
    Foreign(usize, u32),
    /// A layer without features.
    NoFeatures(usize),
    /// A layer, a feature, and the first feature of the layer with the same id.
    RepeatedId(usize, usize, usize),
    /// A layer, a feature, and a ring without area.
    FlatRing(usize, usize, usize),
    /// A layer, a feature, and a ring whose last point equals its first.
    ClosedTwice(usize, usize, usize),
}
