//! Writing a tile as its canonical bytes.
ghost use Rattle.std.specs.Prelude.{◌≡◌, ◌+◌, ◌<◌, ◌≤◌, ◌++◌, Some, length, map, IfOk, IfErr, IsErrOf, OnOk};
ghost use Rattle.std.specs.List.{AllByRecursion};
ghost use Rattle.mvt_io.specs.Transfers.{Wrote, WroteFront};
ghost use Rattle.mvt_wire.specs.Field.{bytes};
ghost use Rattle.mvt_wire.specs.Spelling.{short_field, spelled};
ghost use Rattle.mvt_message.specs.CanonicalItems.{canonical_item};
ghost use Rattle.mvt_message.specs.ValidItems.{ValidItem};
ghost use Rattle.mvt_tile_value.specs.declared.numbers.tile.TheConstants.{LAYERS};
ghost use Rattle.mvt_tile_value.specs.CanonicalTiles.{canonical, item_field};
ghost use Rattle.mvt_tile_value.specs.ValidTiles.{Valid};
ghost use Rattle.mvt_tile_value.specs.Writing.{kind_written};

use crate::numbers::tile;
use crate::tile::Tile;
use crate::write_error::WriteError;
use mvt_base::LIMIT;
use mvt_io::{Sink, write_all};
use mvt_message::{Item, PutError, item_len, put_item};
use mvt_wire::{field_len, put_field_head};
use std::alloc::Global;
use std::io::ErrorKind;

/// Writes the canonical bytes of a tile. First the lengths of all items are added up; then each
/// item is made and written. So each item is made twice, and only one is in memory at a time. The
/// writer isn't flushed. Texts cost twice what they cost in [`encode`](crate::encode).
///
/// # Errors
///
/// TooLarge if there are more bytes than the limit, before anything is written; a write that
/// failed; out of memory. The writer has then taken a front of the bytes.
pub fn write_tile<W: Sink>(alloc: Global, tile: &Tile, writer: &mut W) -> Result<(), WriteError>
    requires { Valid tile.now }
    ensures wrote { OnOk result
        (Wrote (W.state writer.old) (W.state writer.new) (canonical tile.now)) }
    ensures small { OnOk result (length (canonical tile.now) ≤ LIMIT) }
    ensures too_large { IsErrOf result WriteError.TooLarge
        → (LIMIT < length (canonical tile.now)) × (writer.new ≡ writer.old) }
    ensures stopped { IfErr result (λ error. WroteFront (W.state writer.old) (W.state writer.new)
        (canonical tile.now) (kind_written error)) }
{
    let items = tile.items.as_slice();
    items_len(alloc, items)?;
    write_items(alloc, items, writer)
}

/// How many canonical bytes items have.
fn items_len(alloc: Global, items: &[Item]) -> Result<u64, PutError>
    requires { AllByRecursion ValidItem items.now }
    ensures len { IfOk result (λ len. len ≡ length (spelled (map item_field items.now))) }
    ensures small { IfOk result (λ len. len ≤ LIMIT) }
    ensures too_large { IsErrOf result PutError.TooLarge
        → LIMIT < length (spelled (map item_field items.now)) }
{
    let mut total = 0;
    for item in items {
        total += layer_len(alloc, item)?;
        if total > LIMIT {
            return Err(PutError::TooLarge);
        }
    }
    Ok(total)
}

/// How many bytes the field of an item has.
fn layer_len(alloc: Global, item: &Item) -> Result<u64, PutError>
    requires { ValidItem item.now }
    ensures len { IfOk result (λ len. len ≡ length
        (short_field LAYERS (bytes (canonical_item item.now)))) }
    ensures most { IfOk result (λ len. len ≤ LIMIT + 20) }
    ensures too_large { IsErrOf result PutError.TooLarge
        → LIMIT < length (canonical_item item.now) }
{
    let len = item_len(alloc, item)?;
    Ok(field_len(tile::LAYERS, len))
}

/// Writes items one after another.
fn write_items<W: Sink>(alloc: Global, items: &[Item], writer: &mut W) -> Result<(), WriteError>
    requires valid { AllByRecursion ValidItem items.now }
    requires small { length (spelled (map item_field items.now)) ≤ LIMIT }
    ensures wrote { OnOk result (Wrote (W.state writer.old) (W.state writer.new)
        (spelled (map item_field items.now))) }
    ensures never { IsErrOf result WriteError.TooLarge → ⊥ }
    ensures stopped { IfErr result (λ error. WroteFront (W.state writer.old) (W.state writer.new)
        (spelled (map item_field items.now)) (kind_written error)) }
{
    for item in items {
        write_item(alloc, item, writer)?;
    }
    Ok(())
}

/// Makes the payload of an item, and writes its field.
#[tactic(auto, using(mvt_io::proofs::IoLaws::writes_add_up_none))]
fn write_item<W: Sink>(alloc: Global, item: &Item, writer: &mut W) -> Result<(), WriteError>
    requires valid { ValidItem item.now }
    requires small { length (canonical_item item.now) ≤ LIMIT }
    ensures wrote { OnOk result (Wrote (W.state writer.old) (W.state writer.new)
        (short_field LAYERS (bytes (canonical_item item.now)))) }
    ensures never { IsErrOf result WriteError.TooLarge → ⊥ }
    ensures stopped { IfErr result (λ error. WroteFront (W.state writer.old) (W.state writer.new)
        (short_field LAYERS (bytes (canonical_item item.now))) (kind_written error)) }
{
    let payload = put_item(alloc, item)?;
    let mut head = Vec::new(alloc);
    put_field_head(&mut head, tile::LAYERS, payload.len() as u64)?;
    match write_both(writer, head.as_slice(), payload.as_slice()) {
        Ok(()) => Ok(()),
        Err(kind) => Err(WriteError::Write(kind)),
    }
}

/// Writes what stands before a payload, and then the payload.
fn write_both<W: Sink>(writer: &mut W, head: &[u8], payload: &[u8]) -> Result<(), ErrorKind>
    ensures wrote { OnOk result
        (Wrote (W.state writer.old) (W.state writer.new) (head.now ++ payload.now)) }
    ensures stopped { IfErr result (λ kind. WroteFront (W.state writer.old) (W.state writer.new)
        (head.now ++ payload.now) (Some kind)) }
{
    write_all(writer, head)?;
    write_all(writer, payload)
}
