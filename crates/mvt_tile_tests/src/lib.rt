//! The tests of tiles: worked rows, each public call with ample memory, refused growths, and
//! devices that fail. They call what is public, as any other crate does.
#![tactic(auto)]

#[cfg(test)]
mod expect;
#[cfg(test)]
mod slow;
#[cfg(test)]
mod tile;
