//! The codec for C and the languages that call C: each call of `mvt.h`, as a static library.
//!
//! A call answers a status, and writes its result to a parameter only if the status is 0. The
//! result is memory of C's `malloc`, and lasts until C frees it.
#![tactic(auto)]

mod around;
mod building;
mod calls;
mod decoder;
mod fault;
mod lent;
mod mending;
mod names;
mod places;
mod reading;
mod refusal;
mod remarks;
mod texts;
mod writing;
