//! What `bench/tile.sh` measures, as a static library for C and C++: whole tiles as values.
#![tactic(auto)]

mod tiles;
