//! Where a fault stands in the bytes of a tile, and what it means in plain words.
#![tactic(auto)]

mod around;
mod brotli;
mod explaining;
mod field_rows;
mod integers;
pub mod laws;
mod locating;
mod lookalike;
mod message;
mod numbers;
mod pen;
mod place;
mod plain_text;
mod quoting;
mod sentences;
mod shown;
mod span;
mod target;

pub use around::{Around, look_around};
pub use explaining::explanation_text;
pub use field_rows::{Bounds, FieldRow};
pub use integers::Integer;
pub use locating::locate;
pub use lookalike::{Lookalike, looks_like};
pub use pen::{Role, Step};
pub use place::Place;
pub use quoting::shell_word;
pub use sentences::{cause_with_zero, sentence, sentence_with_zero};
