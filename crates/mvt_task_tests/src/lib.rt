//! The tests of tasks: replies over readers and writers in memory, devices that fail, files in
//! memory, and refused growths. They call what is public, as any other crate does.
#![tactic(auto)]

#[cfg(test)]
mod devices;
#[cfg(test)]
mod expect;
#[cfg(test)]
mod folders;
#[cfg(test)]
mod linting;
#[cfg(test)]
mod refused;
#[cfg(test)]
mod support;
