//! Going over a tile: a visitor receives the payload of each item.
ghost use Rattle.std.specs.Prelude.{◌≡◌, ℕ, ◌+◌, ◌≤◌, List, [], ◌∷◌, ◌++◌, length, IfOk, IfErr};
ghost use Rattle.std.specs.Option.{option_to_list};
ghost use Rattle.mvt_base.specs.Reports.{Reports};
ghost use Rattle.mvt_feature.specs.Faults.{fault_of};
ghost use Rattle.mvt_message.specs.declared.item.Item.{Item};
ghost use Rattle.mvt_message.specs.ItemRules.{item_fault};
ghost use Rattle.mvt_message.specs.Items.{IsItem, names_in};
ghost use Rattle.mvt_message.specs.ValidItems.{ValidItem};
ghost use Rattle.mvt_tile_value.specs.declared.tile.Tile.{Tile};
ghost use Rattle.mvt_tile_value.specs.Tiles.{IsTile};
ghost use Rattle.mvt_tile_value.specs.ValidTiles.{Valid};
ghost use Rattle.mvt_tile.specs.Streams.{ReportsAtEnd};
ghost use Rattle.mvt_tile.specs.TileRules.{fault_within};
ghost use Rattle.mvt_tile.specs.Visiting.{payloads_in};

use crate::fault::DecodeError;
use crate::walking::walk_whole;
use mvt_base::{LIMIT, Text};
use mvt_message::MessageError;
use std::alloc::Global;

/// An object that receives the items of a tile, one after another. It judges each item as it takes
/// it, except for a repeated name.
pub trait TileVisitor: Drop {
    // What it was given beside the items.
    ghost Given: { Type 0 };

    // What it has of that when it took the items of these payloads.
    ghost has_items: { Given → List (List ℕ) → Self → List Item → Type 0 };

    /// Takes the item of a payload, and answers the name of the layer that it is. The payload's
    /// first byte and the tag of its field stand at these places.
    ///
    /// # Errors
    ///
    /// The first broken rule of the payload; out of memory.
    fn visit_item(
        &mut self,
        alloc: Global,
        payload: &[u8],
        payload_at: u64,
        tag_at: u64,
    ) -> Result<Option<Text>, MessageError>
        requires known { (given : Given) × (payloads : List (List ℕ)) × (items : List Item)
            × has_items given payloads self.old items × (length items ≤ LIMIT) }
        requires fits { payload_at + length payload.now ≤ LIMIT }
        ensures item { (given : Given) (payloads : List (List ℕ)) (items : List Item)
            → has_items given payloads self.old items
            → IfOk result (λ name. (item : Item) × IsItem payload.now item × ValidItem item
            × (names_in item ≡ option_to_list name)
            × has_items given (payloads ++ payload.now ∷ []) self.new (items ++ item ∷ [])) }
        ensures fault { IfErr result (λ error. Reports (fault_of error)
            (item_fault payload.now payload_at tag_at)) };
}

/// Passes the items of a tile to a visitor, and answers the visitor.
///
/// # Errors
///
/// The first fault, as [`decode`](crate::decode) reports it; out of memory. Never a failed read.
pub fn visit_tile<V: TileVisitor>(alloc: Global, visitor: V, bytes: &[u8]) -> Result<V, DecodeError>
    requires { (given : V.Given) × V.has_items given [] visitor [] }
    ensures tile { (given : V.Given) → V.has_items given [] visitor [] → IfOk result (λ visitor.
        (tile : Tile) × IsTile LIMIT bytes.now tile × Valid tile
        × V.has_items given (payloads_in bytes.now) visitor tile.items) }
    ensures fault { IfErr result (λ error. ReportsAtEnd error (fault_within LIMIT bytes.now)) }
{
    let taken = walk_whole(alloc, visitor, bytes)?;
    Ok(taken.visitor)
}
