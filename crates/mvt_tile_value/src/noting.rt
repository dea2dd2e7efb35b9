//! The notes of a tile.
ghost use Rattle.std.specs.Prelude.{◌≡◌, ℕ, pos, ◌++◌, Option, Some, None, IfOk, OnOk, if◌then◌else◌};
ghost use Rattle.std.specs.Ordering.{int_eq};
ghost use Rattle.mvt_tile_value.specs.declared.note.Note.TheVariants.{ClosedTwice, FlatRing};
ghost use Rattle.std.specs.Option.{option_or};
ghost use Rattle.mvt_tile_value.specs.FirstIds.{AreFirst};
ghost use Rattle.mvt_tile_value.specs.Notes.{numbered, note_if as the_note_if, is_id, id_note, item_notes, notes_of};

use crate::first_ids::FirstIds;
use crate::layer_noting::noted_features;
use crate::note::Note;
use crate::tile::Tile;
use mvt_message::Item;
use std::alloc::{AllocError, Global};

/// What is noted of a tile, in the order of its layers, features and rings.
///
/// # Errors
///
/// When memory runs out.
pub fn notes(alloc: Global, tile: &Tile) -> Result<Vec<Note>, AllocError>
    ensures { IfOk result (λ notes. notes.items ≡ notes_of tile.now) }
{
    let items = tile.items.as_slice();
    let mut notes = Vec::new(alloc);
    note_if(&mut notes, items.is_empty(), Note::NoLayers)?;
    note_items(alloc, &mut notes, items)?;
    Ok(notes)
}

pub(crate) fn note_if(notes: &mut Vec<Note>, test: bool, note: Note) -> Result<(), AllocError>
    ensures { OnOk result (notes.new.items ≡ notes.old.items ++ the_note_if test note) }
{
    if test {
        notes.push(note)?;
    }
    Ok(())
}

fn note_items(alloc: Global, notes: &mut Vec<Note>, items: &[Item]) -> Result<(), AllocError>
    ensures { OnOk result (notes.new.items ≡ notes.old.items ++ numbered item_notes 0 items.now) }
{
    for (index, item) in items.iter().enumerate() {
        note_item(alloc, notes, index, item)?;
    }
    Ok(())
}

fn note_item(
    alloc: Global,
    notes: &mut Vec<Note>,
    index: usize,
    item: &Item,
) -> Result<(), AllocError>
    ensures { OnOk result (notes.new.items ≡ notes.old.items ++ item_notes index item.now) }
{
    match item {
        Item::Layer(layer) => {
            let noted = noted_features(alloc, index, layer.features.as_slice())?;
            noted.append_to(index, notes)
        }
        Item::Foreign { version, .. } => note_if(notes, true, Note::Foreign(index, *version)),
    }
}

/// Notes an id that an earlier feature has; the first feature of an id is kept.
pub(crate) fn note_id(
    notes: &mut Vec<Note>,
    ids: &mut FirstIds,
    layer: usize,
    feature: usize,
    id: Option<u64>,
) -> Result<(), AllocError>
    ensures notes { (first : ℕ → Option ℕ) → AreFirst ids.old first → OnOk result
        (notes.new.items ≡ notes.old.items ++ id_note layer feature first id) }
    ensures ids { (first : ℕ → Option ℕ) → AreFirst ids.old first → OnOk result
        (AreFirst ids.new (λ q. option_or (first q) (if is_id q id then Some feature else None))) }
{
    let Some(id) = id else {
        return Ok(());
    };
    if let Some(earlier) = ids.take(id, feature)? {
        notes.push(Note::RepeatedId(layer, feature, earlier))?;
    }
    Ok(())
}

/// Notes a ring that has this area, doubled, and whose last point is its first or isn't.
pub(crate) fn note_known_ring(
    notes: &mut Vec<Note>,
    layer: usize,
    feature: usize,
    number: usize,
    twice_area: i128,
    is_closed: bool,
) -> Result<(), AllocError>
    ensures { OnOk result (notes.new.items ≡ notes.old.items
        ++ (the_note_if (int_eq twice_area (pos 0)) (FlatRing layer feature number)
        ++ the_note_if is_closed (ClosedTwice layer feature number))) }
{
    note_if(
        notes,
        twice_area == 0,
        Note::FlatRing(layer, feature, number),
    )?;
    note_if(notes, is_closed, Note::ClosedTwice(layer, feature, number))
}
