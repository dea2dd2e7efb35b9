//! Geometries and the integers that draw them (Mapbox Vector Tile Specification 2.1, section 4.3).
//!
//! [`read_geometry`] judges all integers in one pass before it builds anything, so that memory can
//! run out only for integers that draw a geometry; [`judge_geometry`] builds nothing, and
//! [`put_geometry`] gives the integers back.
#![tactic(auto)]

mod area;
mod command;
mod fault;
mod integers;
mod judging;
pub mod laws;
mod packed;
mod position;
mod reading;
mod shape;
mod strokes;
mod telling;
mod validity;
mod visiting;
mod writing;

pub use area::twice_area;
pub use fault::{GeometryCause, GeometryError};
pub use judging::judge_geometry;
pub use packed::draw_packed;
pub use position::Position;
pub use reading::read_geometry;
pub use shape::{Geometry, Kind, Point, Polygon, kind_of};
pub use strokes::{PartError, RingRole, append_integers, append_line, append_points, append_ring};
pub use telling::tell_geometry;
pub use validity::is_valid_geometry;
pub use visiting::{GeometryVisitor, Ignore, Ring, draw_geometry};
pub use writing::{append_geometry, put_geometry};
