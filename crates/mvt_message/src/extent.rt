//! The extent of a layer, of which nothing else is looked at.
ghost use Rattle.std.specs.Prelude.{◌≡◌};
ghost use Rattle.mvt_wire.specs.Field.{content_of};
ghost use Rattle.mvt_message.specs.declared.item.Item.TheVariants.{Layer};
ghost use Rattle.mvt_message.specs.declared.item.Layer.{Layer as ALayer};
ghost use Rattle.mvt_message.specs.Inner.{extent_after as the_extent_after};
ghost use Rattle.mvt_message.specs.Items.{IsItem};

use crate::numbers::{DEFAULT_EXTENT, layer};
use mvt_wire::{Field, Fields, Payload};

/// The extent of the layer of version 2 that a payload is, before its features are visited. It says
/// nothing of another payload.
pub fn extent_in(payload: &[u8]) -> u32
    ensures { (layer : ALayer) → IsItem payload.now (Layer layer) → result ≡ layer.extent }
{
    let mut extent = u64::from(DEFAULT_EXTENT);
    for field in Fields::new(payload) {
        if let Ok(field) = field {
            extent = extent_after(extent, &field);
        }
    }
    // That of a layer is within 32 bits.
    if extent < 1 << 32 {
        extent as u32
    } else {
        DEFAULT_EXTENT
    }
}

/// The last extent, with one more field.
fn extent_after(before: u64, field: &Field<'_>) -> u64
    ensures { result ≡ the_extent_after before field.now.number (content_of field.now.payload) }
{
    if field.number != layer::EXTENT {
        return before;
    }
    match field.payload {
        Payload::Varint(number) => number,
        Payload::Len(_) | Payload::I64(_) | Payload::I32(_) => u64::from(DEFAULT_EXTENT),
    }
}
