//! Tests that take eight seconds to minutes each while nothing is proved, so `tests/quick` leaves
//! them out: keys and values of any number, and each byte of drawings made another.
mod keys;
mod packed;
mod values;
