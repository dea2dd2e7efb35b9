//! The tests of features and layers: worked rows, each public call with ample memory, and refused
//! growths. They call what is public, as any other crate does.
#![tactic(auto)]

#[cfg(test)]
mod expect;
#[cfg(test)]
mod layer;
#[cfg(test)]
mod slow;
