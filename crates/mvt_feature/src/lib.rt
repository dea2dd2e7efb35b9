//! The messages below a layer (Mapbox Vector Tile Specification 2.1, 4.1): values and features, and
//! why bytes aren't one.
#![tactic(auto)]

mod canonical_feature;
mod cause;
mod drawn_feature;
mod feature;
mod feature_fields;
pub mod laws;
mod message_error;
pub mod numbers;
mod parts;
mod reading;
mod rest_faults;
mod rewriting;
mod scratch;
mod usual;
mod validity;
mod value;
mod writing;

pub use canonical_feature::{CanonicalFeature, Unsure, is_canonical_value, judge_canonical};
pub use cause::Cause;
pub use drawn_feature::append_drawn_feature;
pub use feature::Feature;
pub use feature_fields::FeatureFields;
pub use message_error::MessageError;
pub use reading::{draw_feature, read_feature, read_feature_in};
pub use rest_faults::{fault_at, rest_fault};
pub use rewriting::{rewrite_feature, rewrite_usual_feature};
pub use scratch::Scratch;
pub use usual::{draw_usual_feature, judge_feature};
pub use validity::{is_valid_feature, validate_feature};
pub use value::{judge_value, read_value, read_value_ref, text_of, varint_of};
pub use writing::{append_feature, append_value, value_len};
