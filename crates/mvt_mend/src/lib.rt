//! Tiles and geometries that break one of two rules, mended: a point that equals the one before it,
//! and a first ring of negative area (Mapbox Vector Tile Specification 2.1, 4.3.3.2 and 4.3.4.4).
#![tactic(auto)]

pub mod causes;
mod change;
mod drawing;
mod fates;
mod features;
mod geometry;
pub mod laws;
mod layers;
mod lines;
mod reading;
pub mod stays;
mod telling;
mod tile;
mod tiles;
pub mod whole;

pub use change::{Change, Unmended};
pub use geometry::{MOST_STEPS, mend_geometry};
pub use lines::{change_text, unmended_text};
pub use mvt_rings::{Crossing, Ended, Kept, MendedRings, mend_lines, mend_rings};
pub use tile::{MendError, MendedTile, mend_tile};
