//! Which rule a geometry breaks that no commands draw.

/// A rule of what commands draw (4.3).
///
/// All but the last two are those of [`GeometryCause`](mvt_geometry::GeometryCause): the integers
/// that the points would be spelled as, where 32 bits hold each, are refused for that cause. By the
/// last two the integers would be read, but as other polygons.
#[derive(Clone, Copy, Debug, PartialEq, Eq)]
pub enum DrawingRule {
    /// A line with fewer than two points, a ring with fewer than three, or no points; of a part.
    Count,
    /// A point of a line or ring is the one before it; at the point.
    ZeroSegment,
    /// A position is out of range; at the point.
    CoordinateRange,
    /// The first ring has negative area; of a part.
    FirstRing,
    /// There are no lines or rings; of the first part, which isn't there.
    EndsEarly,
    /// A step is beyond 2,147,483,647 to either side; at the point that it leads to.
    ParameterRange,
    /// A further exterior ring has no positive area; of a part.
    ExteriorRing,
    /// An interior ring has positive area; of a part.
    InteriorRing,
}

/// The first rule that a geometry breaks, in the order in which it would be drawn, and where.
#[derive(Clone, Copy, Debug, PartialEq, Eq)]
pub struct Undrawn {
    pub rule: DrawingRule,
    /// The index of the line or ring in its feature; 0 for points.
    pub part: usize,
    /// The index of the point in its part; `None` if the part as a whole breaks the rule.
    pub point: Option<usize>,
}
