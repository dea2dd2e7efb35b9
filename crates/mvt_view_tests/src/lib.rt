//! The tests of texts, pictures, places and rows: worked rows, each public call with ample
//! memory, and refused growths. They call what is public, as any other crate does.
#![tactic(auto)]

#[cfg(test)]
mod around;
#[cfg(test)]
mod building;
#[cfg(test)]
mod drawing;
#[cfg(test)]
mod expect;
#[cfg(test)]
mod places;
#[cfg(test)]
mod rows;
#[cfg(test)]
mod shapes;
#[cfg(test)]
mod undrawn;
#[cfg(test)]
mod view;
#[cfg(test)]
mod visiting_rows;
