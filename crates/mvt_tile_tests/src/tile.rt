//! Known tiles and faults, pieces, devices, refused growths.
mod devices;
mod faults;
mod findings;
pub(crate) mod linting;
mod refused;
mod refused_rows;
pub(crate) mod rows;
pub(crate) mod sizes;
pub(crate) mod streams;
pub(crate) mod support;
mod surveys;
mod uses;
mod validity;
mod views;
mod whole;
