//! Promises of the calls below, each in a function of its own: its contract is a clause of the call
//! that keeps the promise, word for word, and its body is that call. Where a call didn't keep the
//! promise, its contract would let a wrong body here through; `must-fail/` has one for each.
#![tactic(auto)]

mod attributes;
mod features;
mod layers;
mod numbers;

pub use attributes::{place_value, resolve, tags_of};
pub use features::{append_drawn_feature, read_feature};
pub use layers::{layer_payload, read_item};
pub use numbers::unzigzag32;
