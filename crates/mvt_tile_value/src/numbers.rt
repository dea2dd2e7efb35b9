//! The numbers of fields (Mapbox Vector Tile Specification 2.1, 4.1).

pub use mvt_message::numbers::{feature, layer, value};

/// Of a tile (4.1).
pub mod tile {
    pub const LAYERS: u32 = 3;
}
