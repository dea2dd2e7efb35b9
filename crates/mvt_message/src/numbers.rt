//! The numbers of fields, the version and the default extent (Mapbox Vector Tile Specification 2.1,
//! 4.1).

pub use mvt_feature::numbers::{feature, value};

/// The version of the layers that are read; another's layer is carried as its bytes.
pub(crate) const VERSION_2: u32 = 2;

/// The extent of a layer that names none.
pub(crate) const DEFAULT_EXTENT: u32 = 4096;

/// Of a layer (4.1).
pub mod layer {
    pub const NAME: u32 = 1;

    pub const FEATURES: u32 = 2;

    pub const KEYS: u32 = 3;

    pub const VALUES: u32 = 4;

    pub const EXTENT: u32 = 5;

    pub const VERSION: u32 = 15;
}
