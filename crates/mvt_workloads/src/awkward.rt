//! Awkward tiles: valid, but not as producers write them. Each has a layer of thousands of texts of
//! its own, named in no order; a layer whose numbers are spelled longer than need be, in several
//! pieces, between fields that no reader knows; a layer of another version; and one long outline
//! with many holes.

use crate::features::{Shape, put_geometry};
use crate::layers::{Content, Form, Key, make_layer};
use crate::message::Message;
use crate::random::Random;
use std::alloc::{AllocError, Global};

const OUTLINE: Form = Form {
    name: "outline",
    shape: Shape::Rings(300),
    features: 2,
    points: 20_000,
    keys: &[Key {
        name: "id",
        content: Content::Number,
        values: 0,
    }],
};

/// A feature whose tags and geometry stand in two pieces each, with a field between that no reader
/// knows, and with its first tag spelled in two bytes.
fn make_odd_feature(
    alloc: Global,
    random: &mut Random,
    values: u32,
) -> Result<Message, AllocError> {
    let mut feature = Message::new(alloc);
    let mut part = Message::new(alloc);
    part.put_long_number(1)?;
    part.put_number(u64::from(random.within(0, values)))?;
    feature.put_message(2, &part)?;
    part.clear();
    put_geometry(&mut part, random, Shape::Line, 9)?;
    feature.put_uint(3, 1)?;
    feature.put_uint(19, random.next())?;
    feature.put_message(4, &part)?;
    feature.put_uint(2, 0)?;
    feature.put_uint(2, u64::from(random.within(0, values)))?;
    feature.put_uint(3, 2)?;
    for number in [9, 2, 4, 10, 2, 4] {
        feature.put_uint(4, number)?;
    }
    Ok(feature)
}

/// A layer of odd features and of texts, which come before the features.
fn make_odd_layer(
    alloc: Global,
    random: &mut Random,
    name: &str,
    count: u32,
) -> Result<Message, AllocError> {
    let mut layer = Message::new(alloc);
    layer.put_uint(15, 2)?;
    layer.put_bytes(3, b"name")?;
    layer.put_bytes(3, b"other")?;
    put_texts(&mut layer, random, count)?;
    layer.put_bytes(1, b"early")?;
    for _ in 0..count {
        let feature = make_odd_feature(alloc, random, count.saturating_sub(1))?;
        layer.put_message(2, &feature)?;
        layer.put_uint(20, 7)?;
    }
    layer.put_bytes(1, name.as_bytes())?;
    Ok(layer)
}

/// So many values, each a text of its own.
fn put_texts(layer: &mut Message, random: &mut Random, count: u32) -> Result<(), AllocError> {
    let mut value = layer.fresh();
    for _ in 0..count {
        value.clear();
        let mut text = layer.fresh();
        for _ in 0..12 {
            text.mark(3)?;
            text.put_raw(&[random.letter()])?;
        }
        value.put_message(1, &text)?;
        layer.put_message(4, &value)?;
    }
    Ok(())
}

/// A layer of version 1.
fn make_old_layer(alloc: Global, random: &mut Random) -> Result<Message, AllocError> {
    let mut layer = Message::new(alloc);
    layer.put_uint(15, 1)?;
    layer.put_bytes(1, b"old")?;
    for _ in 0..500 {
        layer.put_double(9, random.next())?;
    }
    Ok(layer)
}

fn make_tile(alloc: Global, random: &mut Random) -> Result<Message, AllocError> {
    let mut tile = Message::new(alloc);
    let texts = make_odd_layer(alloc, random, "texts", 6000)?;
    tile.put_message(3, &texts)?;
    tile.put_message(3, &make_old_layer(alloc, random)?)?;
    let outline = make_layer(alloc, random, OUTLINE)?;
    tile.put_message(3, &outline)?;
    let few = make_odd_layer(alloc, random, "few", 300)?;
    tile.put_message(3, &few)?;
    Ok(tile)
}

/// Two tiles, of about a million bytes in all.
pub fn make_tiles(alloc: Global, random: &mut Random) -> Result<Vec<Message>, AllocError> {
    let mut tiles = Vec::new(alloc);
    for _ in 0..2 {
        tiles.push(make_tile(alloc, random)?)?;
    }
    Ok(tiles)
}
