//! The words of the command `mvt`: what they ask for, which files they name, and why a line is
//! refused.
#![tactic(auto)]

pub mod laws;
mod words;

pub use words::{Asked, Refusal, arguments, read_words};
