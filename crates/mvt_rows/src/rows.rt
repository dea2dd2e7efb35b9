//! A tile as flat rows, which C reads as they are: each row refers to its parts by their place in
//! the list of their kind.

/// Where a part of a list stands: its first entry, and how many there are.
#[repr(C)]
#[derive(Clone, Copy, Debug, PartialEq, Eq)]
pub struct Span {
    pub start: u64,
    pub len: u64,
}

/// A layer. One of version 2 has a name, an extent, features, keys and values; one of another
/// version has its bytes. All other fields are 0.
#[repr(C)]
#[derive(Clone, Copy, Debug, PartialEq, Eq)]
pub struct LayerRow {
    pub version: u32,
    pub extent: u32,
    /// Of the texts.
    pub name: Span,
    pub features: Span,
    pub keys: Span,
    pub values: Span,
    /// Of the texts: the bytes of a layer of another version.
    pub bytes: Span,
}

/// A feature. Its tags are pairs of a key's and a value's index, counted from its layer's first.
#[repr(C)]
#[derive(Clone, Copy, Debug, PartialEq, Eq)]
pub struct FeatureRow {
    pub id: u64,
    /// 1 if it has an id, else 0.
    pub has_id: u32,
    /// 0 unknown, 1 points, 2 lines, 3 polygons (4.3.4).
    pub kind: u32,
    pub tags: Span,
    /// The points of a feature of points as one part, or its lines, or its rings.
    pub parts: Span,
    /// The integers of a geometry of unknown type.
    pub integers: Span,
}

/// A value. Its kind is the number of its field (4.1, message Value): 1 a text, 2 a float and 3 a
/// double by their bit patterns, 4 an int, 5 a uint, 6 a sint, 7 a bool. Negative numbers are in
/// two's complement.
#[repr(C)]
#[derive(Clone, Copy, Debug, PartialEq, Eq)]
pub struct ValueRow {
    pub kind: u32,
    pub bits: u64,
    /// Of the texts.
    pub text: Span,
}

/// A line, a ring, or all points of a feature of points. A ring closes from its last point to its
/// first.
#[repr(C)]
#[derive(Clone, Copy, Debug, PartialEq, Eq)]
pub struct PartRow {
    /// 1 if it is an exterior ring, which begins a polygon, else 0.
    pub exterior: u32,
    pub points: Span,
}

/// A position: x to the right, y down.
#[repr(C)]
#[derive(Clone, Copy, Debug, PartialEq, Eq)]
pub struct PointRow {
    pub x: i32,
    pub y: i32,
}

/// The rows of a tile, as lists that are lent, or that last until C frees them. An empty list
/// has nothing to be freed.
#[repr(C)]
#[derive(Clone, Copy, Debug)]
pub struct Rows<'a> {
    pub layers: &'a [LayerRow],
    pub features: &'a [FeatureRow],
    /// The names of keys, as parts of the texts.
    pub keys: &'a [Span],
    pub values: &'a [ValueRow],
    pub tags: &'a [u32],
    pub parts: &'a [PartRow],
    pub points: &'a [PointRow],
    pub integers: &'a [u32],
    pub texts: &'a [u8],
}
