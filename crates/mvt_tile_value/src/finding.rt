//! What viewers stumble over in a valid tile.

/// A finding, with the places of what it speaks of, all counted from 0.
///
/// The tile keeps every rule of the standard; docs/OTHER_PROGRAMS.md says what some viewers do with
/// it.
#[derive(Clone, Copy, Debug, PartialEq, Eq)]
pub enum Finding {
    /// A layer whose extent is 0.
    ZeroExtent(usize),
    /// A layer, and a feature of unknown type without integers.
    NoGeometry(usize, usize),
    /// A layer, and a feature of unknown type with integers.
    UnknownGeometry(usize, usize),
    /// A layer, a feature, and the x and the y of its first position that leaves 16 bits in
    /// 8192ths of the extent, rounded to the nearest, halves away from 0.
    FarPoint(usize, usize, i32, i32),
    /// A layer, and a feature whose id is beyond 2^53 - 1.
    LargeId(usize, usize),
    /// A layer, a feature, and an attribute whose int, uint or sint is beyond 2^53 - 1 to either
    /// side.
    LargeNumber(usize, usize, usize),
}
