//! A tile.
use mvt_base::Items;
use mvt_message::Item;

/// A tile: its layers, those of other versions among them, in order.
#[derive(Debug, Drop, PartialEq, Eq)]
pub struct Tile {
    pub items: Items<Item>,
}
