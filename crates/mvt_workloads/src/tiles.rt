//! Tiles of real shapes and sizes: small ones with an outline or two, such as a cache of coasts
//! holds in thousands; tiles of some hundred lakes or contours; and tiles of a town with roads,
//! houses and places.

use crate::features::Shape;
use crate::layers::{Content, Form, Key, make_layer};
use crate::message::Message;
use crate::random::Random;
use std::alloc::{AllocError, Global};

const ID: Key = Key {
    name: "id",
    content: Content::Text,
    values: 0,
};

const LEVEL: Key = Key {
    name: "level",
    content: Content::Number,
    values: 4,
};

const CLASS: Key = Key {
    name: "class",
    content: Content::Text,
    values: 9,
};

const NAME: Key = Key {
    name: "name",
    content: Content::Text,
    values: 0,
};

const STREET: Key = Key {
    name: "name",
    content: Content::Text,
    values: 60,
};

const HEIGHT: Key = Key {
    name: "height",
    content: Content::Number,
    values: 30,
};

const ONE_WAY: Key = Key {
    name: "oneway",
    content: Content::Bool,
    values: 2,
};

const RANK: Key = Key {
    name: "rank",
    content: Content::Number,
    values: 12,
};

const AREA: Key = Key {
    name: "area",
    content: Content::Double,
    values: 0,
};

const OTHER_NAME: Key = Key {
    name: "name:en",
    content: Content::Text,
    values: 0,
};

pub const COAST: Form = Form {
    name: "coast",
    shape: Shape::Rings(0),
    features: 3,
    points: 24,
    keys: &[ID, LEVEL, AREA],
};

pub const LAKES: Form = Form {
    name: "lakes",
    shape: Shape::Rings(1),
    features: 110,
    points: 10,
    keys: &[ID, LEVEL, AREA],
};

pub const CONTOURS: Form = Form {
    name: "contours",
    shape: Shape::Line,
    features: 120,
    points: 14,
    keys: &[HEIGHT, LEVEL],
};

const TOWN: [Form; 6] = [
    Form {
        name: "water",
        shape: Shape::Rings(2),
        features: 8,
        points: 120,
        keys: &[CLASS],
    },
    Form {
        name: "landuse",
        shape: Shape::Rings(0),
        features: 50,
        points: 24,
        keys: &[CLASS, LEVEL],
    },
    Form {
        name: "roads",
        shape: Shape::Line,
        features: 260,
        points: 14,
        keys: &[CLASS, STREET, ONE_WAY, LEVEL],
    },
    Form {
        name: "buildings",
        shape: Shape::Rings(0),
        features: 600,
        points: 8,
        keys: &[HEIGHT],
    },
    Form {
        name: "places",
        shape: Shape::Points,
        features: 30,
        points: 1,
        keys: &[NAME, OTHER_NAME, CLASS, RANK],
    },
    Form {
        name: "poi",
        shape: Shape::Points,
        features: 120,
        points: 1,
        keys: &[NAME, CLASS, RANK, LEVEL],
    },
];

fn make_tile(alloc: Global, random: &mut Random, forms: &[Form]) -> Result<Message, AllocError> {
    let mut tile = Message::new(alloc);
    for form in forms {
        let layer = make_layer(alloc, random, *form)?;
        tile.put_message(3, &layer)?;
    }
    Ok(tile)
}

fn add_tiles(
    alloc: Global,
    random: &mut Random,
    forms: &[Form],
    count: u32,
    tiles: &mut Vec<Message>,
) -> Result<(), AllocError> {
    for _ in 0..count {
        tiles.push(make_tile(alloc, random, forms)?)?;
    }
    Ok(())
}

/// Tiles of about a million bytes in all.
pub fn make_tiles(alloc: Global, random: &mut Random) -> Result<Vec<Message>, AllocError> {
    let mut tiles = Vec::new(alloc);
    add_tiles(alloc, random, &[COAST], 400, &mut tiles)?;
    add_tiles(alloc, random, &[LAKES], 24, &mut tiles)?;
    add_tiles(alloc, random, &[CONTOURS], 40, &mut tiles)?;
    add_tiles(alloc, random, &TOWN, 16, &mut tiles)?;
    Ok(tiles)
}
