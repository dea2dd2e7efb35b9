//! Four uses of `mvt_tile`, as a caller writes them: say why a stream is no tile, read a tile in
//! pieces, look into a tile, make one.
#![tactic(auto)]

mod counting;
mod making;
mod refusing;
mod streaming;

pub use counting::count_features;
pub use making::place_tile;
pub use refusing::first_fault;
pub use streaming::tile_of_pieces;
