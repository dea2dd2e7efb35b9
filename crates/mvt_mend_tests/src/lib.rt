//! The tests of mending: worked rows, each public call with ample memory, and refused growths. They
//! call what is public, as any other crate does.
#![tactic(auto)]

#[cfg(test)]
mod expect;
#[cfg(test)]
mod geometries;
#[cfg(test)]
mod refused;
#[cfg(test)]
mod rings;
#[cfg(test)]
mod support;
#[cfg(test)]
mod tiles;
