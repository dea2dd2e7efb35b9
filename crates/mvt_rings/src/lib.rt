//! How the rings of a polygon lie in one another, and what they are by that: lines and rings
//! without repeated points, and rings each in the direction that it should have (Mapbox Vector Tile
//! Specification 2.1, 4.3.3.2 and 4.3.4.4).
#![tactic(auto)]

mod boxes;
mod clear;
pub mod crossings;
pub mod drawings;
mod holding;
mod homes;
pub mod laws;
mod mending;
mod nesting;
mod placing;
mod repeats;
mod rings;
mod signs;
mod steps;
mod turning;

pub use holding::Crossing;
pub use mending::{MendedRings, mend_lines, mend_rings};
pub use rings::Kept;
pub use signs::{is_negative, is_positive};
pub use steps::Ended;
