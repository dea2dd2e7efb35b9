//! A visitor that keeps the items of a tile.
ghost use Rattle.std.specs.Prelude.{◌≡◌, []};

use crate::names::name_of;
use crate::visiting::TileVisitor;
use mvt_base::{Items, Text};
use mvt_message::{Item, MessageError, read_item};
use mvt_tile_value::Tile;
use std::alloc::Global;

/// The items of a tile so far.
#[derive(Drop)]
pub(crate) struct ItemKeeper {
    pub(crate) items: Vec<Item>,
}

impl ItemKeeper {
    /// No items yet. Takes no memory.
    pub(crate) fn new(alloc: Global) -> Self
        ensures { result.items.items ≡ [] }
    {
        ItemKeeper {
            items: Vec::new(alloc),
        }
    }

    /// The tile of the items.
    pub(crate) fn into_tile(self) -> Tile
        ensures { result ≡ record { items = self.items.items } }
    {
        let ItemKeeper { items } = self;
        Tile {
            items: Items::new(items),
        }
    }
}

impl TileVisitor for ItemKeeper {
    ghost use Rattle.std.specs.Prelude.{◌≡◌};

    ghost Given = { Unit {0} };

    ghost has_items = { λ _ _ keeper items. keeper.items.items ≡ items };

    /// Reads an item, and keeps it.
    fn visit_item(
        &mut self,
        alloc: Global,
        payload: &[u8],
        payload_at: u64,
        tag_at: u64,
    ) -> Result<Option<Text>, MessageError> {
        let item = read_item(alloc, payload, payload_at, tag_at)?;
        let name = name_of(alloc, &item)?;
        self.items.push(item)?;
        Ok(name)
    }
}
