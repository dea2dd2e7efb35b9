//! The tests of fields, readers and writers, attributes and geometry: worked rows, each public call
//! with ample memory, and refused growths. They call what is public, as any other crate does.
#![tactic(auto)]

#[cfg(test)]
mod codec;
#[cfg(test)]
mod expect;
#[cfg(test)]
mod slow;
