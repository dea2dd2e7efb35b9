//! Texts of tiles: JSON, pictures, the lines of top-level fields, faults, findings and reports.
#![tactic(auto)]

mod fault;
mod fields;
mod json_part;
mod kinds;
pub mod laws;
mod lint_lines;
mod numbers;
mod parts;
mod paths;
mod quoted;
mod report;
mod svg;
mod tile_json;
mod view_error;
mod xml;

pub use fault::fault_text;
pub use fields::{FieldsText, fields_text};
pub use kinds::{FindingKind, NoteKind};
pub use lint_lines::lint_text;
pub use quoted::push_quoted;
pub use report::{report_text, survey_text};
pub use svg::svg_text;
pub use tile_json::{json_of, json_text};
pub use view_error::ViewError;
