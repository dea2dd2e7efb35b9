//! Bytes and numbers, readers and writers, attributes and their pools, geometry.
pub(crate) mod attrs;
mod geometry;
mod io;
pub(crate) mod packed;
mod packed_tags;
mod pools;
mod used_tags;
pub(crate) mod uses;
mod wire;
