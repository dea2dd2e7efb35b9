//! What the crates of the codec share: the limit, texts and lists that contracts see by their
//! contents, and the words in which every crate states its rules (`specs/Rules.antt`).
#![tactic(auto)]

mod inline;
mod items;
pub mod laws;
mod text;

pub use items::Items;
pub use text::Text;

/// The most bytes of an input and of canonical bytes, and the most entries of a pool: 2^26.
pub const LIMIT: u64 = 67_108_864;

const _: () = prove!(LIMIT == 1 << 26);
