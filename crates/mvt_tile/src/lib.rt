//! Mapbox vector tiles: reading, writing, streaming, extraction, notes, findings.
//!
//! It re-exports what a tile is made of, so a caller needs to name this crate alone.
#![tactic(auto)]

mod decoder;
mod extract_error;
mod extracting;
mod extraction;
mod fault;
mod judging;
mod keeping;
pub mod laws;
mod linting;
mod name_set;
mod named_layer;
mod names;
mod partial_tile;
mod reading;
mod rewriting;
mod round_trip;
mod surveying;
mod validity;
mod visiting;
mod visiting_decoder;
mod walking;

pub use decoder::{TileDecoder, decode};
pub use extract_error::ExtractError;
pub use extracting::{NamedLayers, extract_bytes, extract_tile};
pub use extraction::extract;
pub use fault::{DecodeError, Fault};
pub use judging::judge;
pub use linting::{lint_bytes, lint_tile};
pub use mvt_attrs::{Attribute, Value};
pub use mvt_base::{Items, LIMIT, Text};
pub use mvt_feature::{Cause, Feature};
pub use mvt_geometry::{Geometry, Kind, Point, Polygon};
pub use mvt_io::{Host, Sink, Source};
pub use mvt_message::{Item, Layer, PutError};
pub use mvt_tile_value::{
    Finding, Note, Survey, Tile, WriteError, encode, feature_count, lint, notes, numbers,
    write_tile,
};
pub use name_set::NameSet;
pub use named_layer::visit_named;
pub use reading::read_tile;
pub use rewriting::{rewrite, rewrite_tile};
pub use round_trip::write_and_read;
pub use surveying::survey_tile;
pub use validity::{first_invalid, is_valid, validate};
pub use visiting::{TileVisitor, visit_tile};
pub use visiting_decoder::VisitingDecoder;
