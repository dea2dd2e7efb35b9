//! Tiles of a cache that is audited and mended: mostly small ones, of the sea and of coasts. A
//! third was rewritten before and is canonical, a third has layers of version 1, and of a third
//! each layer has lost a feature, whose keys and values it still has.

use crate::features::Shape;
use crate::layers::{Content, Form, Key, Past, make_cached_layer};
use crate::message::Message;
use crate::random::Random;
use crate::tiles::{COAST, CONTOURS, LAKES};
use std::alloc::{AllocError, Global};

const SEA: Form = Form {
    name: "water",
    shape: Shape::Rings(0),
    features: 1,
    points: 4,
    keys: &[Key {
        name: "class",
        content: Content::Text,
        values: 9,
    }],
};

const NAME: Key = Key {
    name: "name",
    content: Content::Text,
    values: 0,
};

const NAME_AR: Key = Key {
    name: "name:ar",
    content: Content::Text,
    values: 0,
};

const NAME_DE: Key = Key {
    name: "name:de",
    content: Content::Text,
    values: 0,
};

const NAME_EN: Key = Key {
    name: "name:en",
    content: Content::Text,
    values: 0,
};

const NAME_JA: Key = Key {
    name: "name:ja",
    content: Content::Text,
    values: 0,
};

const NAME_RU: Key = Key {
    name: "name:ru",
    content: Content::Text,
    values: 0,
};

const PLACES: Form = Form {
    name: "places",
    shape: Shape::Points,
    features: 40,
    points: 1,
    keys: &[NAME, NAME_AR, NAME_DE, NAME_EN, NAME_JA, NAME_RU],
};

fn make_tile(
    alloc: Global,
    random: &mut Random,
    forms: &[Form],
    past: Past,
) -> Result<Message, AllocError> {
    let mut tile = Message::new(alloc);
    for form in forms {
        let layer = make_cached_layer(alloc, random, *form, past)?;
        tile.put_message(3, &layer)?;
    }
    Ok(tile)
}

fn add_tiles(
    alloc: Global,
    random: &mut Random,
    forms: &[Form],
    count: u32,
    tiles: &mut Vec<Message>,
) -> Result<(), AllocError> {
    for _ in 0..count {
        for past in [Past::Rewritten, Past::Old, Past::Filtered] {
            tiles.push(make_tile(alloc, random, forms, past)?)?;
        }
    }
    Ok(())
}

/// Tiles of about a million bytes in all.
pub fn make_tiles(alloc: Global, random: &mut Random) -> Result<Vec<Message>, AllocError> {
    let mut tiles = Vec::new(alloc);
    add_tiles(alloc, random, &[SEA], 300, &mut tiles)?;
    add_tiles(alloc, random, &[COAST], 300, &mut tiles)?;
    add_tiles(alloc, random, &[LAKES, CONTOURS], 12, &mut tiles)?;
    add_tiles(alloc, random, &[SEA, PLACES, CONTOURS], 16, &mut tiles)?;
    Ok(tiles)
}
