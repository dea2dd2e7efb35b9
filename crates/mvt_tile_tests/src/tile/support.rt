//! Tiles made by hand, and what several tests compare.
use crate::expect::{expect, expect_eq};
use mvt_attrs::{Attribute, Value};
use mvt_base::{Items, Text};
use mvt_geometry::{Geometry, Point};
use mvt_io::MemorySource;
use mvt_message::{Cause, Feature, Item, Layer};
use mvt_tile::{
    DecodeError, Fault, Note, Tile, TileDecoder, decode, encode, is_valid, judge, rewrite,
    rewrite_tile, survey_tile, validate,
};
use std::alloc::{AllocError, Global};
use std::process::Abort;

// More keys than are compared without memory.
pub(crate) const KEYS: [&str; 20] = [
    "a",
    "b",
    "c",
    "d",
    "e",
    "f",
    "g",
    "h",
    "i",
    "j",
    "k",
    "l",
    "m",
    "n",
    "o",
    "p",
    "q",
    "a text that is shared",
    "s",
    "t",
];

pub(crate) fn points(alloc: Global, places: &[(i32, i32)]) -> Result<Items<Point>, AllocError> {
    let mut points = Vec::with_capacity(alloc, places.len())?;
    for (x, y) in places {
        points.push(Point { x: *x, y: *y })?;
    }
    Ok(Items::new(points))
}

// Layer `a` with these features.
pub(crate) fn layer_a(alloc: Global, features: Vec<Feature>) -> Result<Tile, AllocError> {
    let layer = Layer {
        name: Text::from_str(alloc, "a")?,
        extent: 4096,
        features: Items::new(features),
    };
    let mut items = Vec::new(alloc);
    items.push(Item::Layer(layer))?;
    Ok(Tile {
        items: Items::new(items),
    })
}

// Layer `a` with one feature.
pub(crate) fn one_feature(
    alloc: Global,
    attributes: Vec<Attribute>,
    geometry: Geometry,
) -> Result<Tile, AllocError> {
    let mut features = Vec::new(alloc);
    features.push(Feature {
        id: None,
        attributes: Items::new(attributes),
        geometry,
    })?;
    layer_a(alloc, features)
}

// A point with these keys, whose values are true.
pub(crate) fn keyed(alloc: Global, keys: &[&str]) -> Result<Tile, AllocError> {
    let mut attributes = Vec::new(alloc);
    for key in keys {
        attributes.push(Attribute {
            key: Text::from_str(alloc, key)?,
            value: Value::Bool(true),
        })?;
    }
    let point = Geometry::Points(points(alloc, &[(25, 17)])?);
    one_feature(alloc, attributes, point)
}

// Layers of these names, without features.
pub(crate) fn named(alloc: Global, names: &[&str]) -> Result<Tile, AllocError> {
    let mut items = Vec::new(alloc);
    for name in names {
        items.push(Item::Layer(Layer {
            name: Text::from_str(alloc, name)?,
            extent: 4096,
            features: Items::new(Vec::new(alloc)),
        }))?;
    }
    Ok(Tile {
        items: Items::new(items),
    })
}

pub(crate) fn foreign_item(alloc: Global, version: u32, bytes: &[u8]) -> Result<Item, AllocError> {
    let bytes = Items::new(Vec::from_slice(alloc, bytes)?);
    Ok(Item::Foreign { version, bytes })
}

pub(crate) fn outer(at: u64, cause: Cause) -> DecodeError {
    DecodeError::Fault(Fault {
        layer: None,
        feature: None,
        at,
        cause,
    })
}

pub(crate) fn in_layer(layer: u32, at: u64, cause: Cause) -> DecodeError {
    DecodeError::Fault(Fault {
        layer: Some(layer),
        feature: None,
        at,
        cause,
    })
}

// One input after the other.
pub(crate) fn joined(alloc: Global, front: &[u8], back: &[u8]) -> Result<Vec<u8>, AllocError> {
    let mut bytes = Vec::from_slice(alloc, front)?;
    bytes.extend_from_slice(back)?;
    Ok(bytes)
}

pub(crate) fn names(alloc: Global, texts: &[&str]) -> Result<Vec<String>, AllocError> {
    let mut names = Vec::new(alloc);
    for text in texts {
        names.push(String::from_str(alloc, text)?)?;
    }
    Ok(names)
}

// The tile of an input, with memory that isn't refused.
pub(crate) fn tile_of(rt: &(impl Abort + AllocGlobal), input: &[u8]) -> Tile {
    decode(rt.alloc(), input).expect(rt, "a tile")
}

pub(crate) fn both_of(rt: &(impl Abort + AllocGlobal), front: &[u8], back: &[u8]) -> Vec<u8> {
    joined(rt.alloc(), front, back).expect(rt, "bytes")
}

// Feeds an input byte by byte, up to the first error.
pub(crate) fn feed_bytes(decoder: &mut TileDecoder, input: &[u8]) -> Result<(), DecodeError> {
    for byte in input.chunks(1) {
        decoder.feed(byte)?;
    }
    Ok(())
}

// What comes of an input in pieces of one byte. An error stays.
pub(crate) fn fed(rt: &(impl Abort + AllocGlobal), input: &[u8]) -> Result<Tile, DecodeError> {
    let mut decoder = TileDecoder::new(rt.alloc());
    match feed_bytes(&mut decoder, input) {
        Ok(()) => decoder.finish(),
        Err(error) => {
            expect_failed(rt, decoder, input, error);
            Err(error)
        }
    }
}

// A decoder that has failed says so from then on.
pub(crate) fn expect_failed(
    rt: &impl Abort,
    mut decoder: TileDecoder,
    more: &[u8],
    error: DecodeError,
) {
    expect_eq!(rt; decoder.feed(more), Err(error));
    expect_eq!(rt; decoder.held(), 0);
    expect_eq!(rt; decoder.finish().err(), Some(error));
}

// The input is this tile, whole and byte by byte, and where it is only judged it has no fault; the
// tile is written as these bytes, and a survey tells whether the input is them.
pub(crate) fn expect_tile(
    rt: &(impl Abort + AllocGlobal),
    input: &[u8],
    tile: &Tile,
    canonical: &[u8],
) {
    let read = tile_of(rt, input);
    expect!(rt; read == *tile);
    expect_written(rt, &read, canonical);
    drop(read);
    let read = fed(rt, input).expect(rt, "a tile by bytes");
    expect!(rt; read == *tile);
    drop(read);
    expect_eq!(rt; judge(rt.alloc(), input), Ok(()));
    expect_surveyed(rt, input, tile.items.as_slice().len(), input == canonical);
    expect_rewritten(rt, input, canonical);
}

// A tile that was read is valid, and written as these bytes; a survey tells them from longer ones.
fn expect_written(rt: &(impl Abort + AllocGlobal), tile: &Tile, canonical: &[u8]) {
    expect!(rt; is_valid(tile));
    expect_eq!(rt; validate(rt.alloc(), tile), Ok(true));
    let written = encode(rt.alloc(), tile).expect(rt, "bytes");
    expect_eq!(rt; written.as_slice(), canonical);
    drop(written);
    let layers = tile.items.as_slice().len();
    expect_surveyed(rt, canonical, layers, true);
    let longer = both_of(rt, canonical, b"\x20\x05");
    expect_surveyed(rt, &longer, layers, false);
    drop(longer);
}

// The number of items in an input, and whether the input is what its tile is written as.
fn expect_surveyed(
    rt: &(impl Abort + AllocGlobal),
    input: &[u8],
    layers: usize,
    is_canonical: bool,
) {
    let survey = survey_tile(rt.alloc(), input).expect(rt, "a survey");
    expect_eq!(rt; survey.layers, layers);
    expect_eq!(rt; survey.is_canonical, is_canonical, "of {input:?}");
    drop(survey);
}

// A survey of an input: its layers and features, whether it is canonical, and the notes.
pub(crate) fn expect_survey(
    rt: &(impl Abort + AllocGlobal),
    input: &[u8],
    counts: (usize, u128),
    is_canonical: bool,
    notes: &[Note],
) {
    let survey = survey_tile(rt.alloc(), input).expect(rt, "a survey");
    expect_eq!(rt; survey.layers, counts.0);
    expect_eq!(rt; survey.features, counts.1);
    expect_eq!(rt; survey.is_canonical, is_canonical);
    expect_eq!(rt; survey.notes.as_slice(), notes);
    drop(survey);
}

// The canonical bytes of a tile, by its bytes, and by a reader of them that gives seven at a time.
fn expect_rewritten(rt: &(impl Abort + AllocGlobal), input: &[u8], canonical: &[u8]) {
    let made = rewrite(rt.alloc(), input).expect(rt, "bytes");
    expect_eq!(rt; made.as_deref(), Some(canonical), "of {input:?}");
    drop(made);
    let mut reader = reader_of(rt, input, 7, u64::MAX);
    let made = rewrite_tile(rt.alloc(), &mut reader).expect(rt, "bytes");
    drop(reader);
    expect_eq!(rt; made.as_deref(), Some(canonical), "of {input:?} by a reader");
    drop(made);
}

// A reader of these bytes, so many at a time, which fails from one of its reads on.
pub(crate) fn reader_of(
    rt: &(impl Abort + AllocGlobal),
    input: &[u8],
    step: usize,
    fails_from: u64,
) -> MemorySource {
    let bytes = Vec::from_slice(rt.alloc(), input).expect(rt, "bytes");
    MemorySource::new(bytes, step.max(1), fails_from)
}

// The input has this fault, whole, byte by byte, and where it is only judged, surveyed or
// rewritten.
pub(crate) fn expect_fault(rt: &(impl Abort + AllocGlobal), input: &[u8], error: DecodeError) {
    let alloc = rt.alloc();
    expect_eq!(rt; decode(alloc, input).err(), Some(error), "of {input:?}");
    expect_eq!(rt; fed(rt, input).err(), Some(error), "of {input:?} by bytes");
    expect_eq!(rt; judge(alloc, input), Err(error), "of {input:?} judged");
    let surveyed = survey_tile(alloc, input).err();
    expect_eq!(rt; surveyed, Some(error), "of {input:?} surveyed");
    expect_eq!(rt; rewrite(alloc, input).err(), Some(error), "of {input:?} rewritten");
}
