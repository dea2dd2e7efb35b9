//! Tests that take eight seconds to minutes each while nothing is proved, so `tests/quick` leaves
//! them out: sizes, every split into pieces, tiles by a seed, and 64 MiB.
mod limits;
mod linting;
mod making;
mod pieces;
mod rewriting;
mod sizes;
