//! A tile as a value: its canonical bytes and how they are written, its notes, findings and
//! surveys. mvt_tile reads tiles, and re-exports what is here.
#![tactic(auto)]

mod beginning;
mod comparing;
mod encoding;
mod finding;
mod first_ids;
mod geometry_linting;
pub mod laws;
mod layer_linting;
mod layer_noting;
mod lint_builder;
mod linting;
mod note;
mod noting;
pub mod numbers;
mod ring_noting;
mod survey;
mod survey_builder;
mod tile;
mod write_error;
mod writing;

pub use encoding::{encode, encode_payload};
pub use finding::Finding;
pub use lint_builder::LintBuilder;
pub use linting::lint;
pub use note::Note;
pub use noting::notes;
pub use survey::Survey;
pub use survey_builder::{SurveyBuilder, feature_count};
pub use tile::Tile;
pub use write_error::WriteError;
pub use writing::write_tile;
