//! The numbers of fields (Mapbox Vector Tile Specification 2.1, 4.1).

/// Of a feature (4.2).
pub mod feature {
    pub const ID: u32 = 1;

    pub const TAGS: u32 = 2;

    pub const TYPE: u32 = 3;

    pub const GEOMETRY: u32 = 4;
}

/// Of a value (4.1): one for each kind.
pub mod value {
    pub const STRING: u32 = 1;

    pub const FLOAT: u32 = 2;

    pub const DOUBLE: u32 = 3;

    pub const INT: u32 = 4;

    pub const UINT: u32 = 5;

    pub const SINT: u32 = 6;

    pub const BOOL: u32 = 7;
}
