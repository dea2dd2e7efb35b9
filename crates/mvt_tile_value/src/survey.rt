//! What a survey of a tile says.
use crate::note::Note;
use mvt_base::Items;

/// What a tile has, and what is noted of it.
#[derive(Debug, Drop, PartialEq, Eq)]
pub struct Survey {
    /// The layers of every version.
    pub layers: usize,
    /// The features of the layers of version 2.
    pub features: u128,
    /// Whether the tile's bytes are those that [`encode`](crate::encode) makes of it.
    pub is_canonical: bool,
    /// What [`notes`](crate::notes) answers.
    pub notes: Items<Note>,
}
