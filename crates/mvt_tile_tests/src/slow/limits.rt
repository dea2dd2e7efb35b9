//! Inputs and tiles of 64 MiB.
use crate::expect::{expect, expect_eq};
use crate::tile::support::{feed_bytes, foreign_item, layer_a, outer, points, tile_of};
use mvt_attrs::{Attribute, Value};
use mvt_base::{Items, LIMIT, Text};
use mvt_geometry::Geometry;
use mvt_io::MemorySink;
use mvt_message::{Cause, Feature, Item, is_valid_item, item_len, put_item};
use mvt_tile::{
    DecodeError, Note, PutError, Tile, TileDecoder, WriteError, decode, encode, is_valid, judge,
    notes, rewrite, write_tile,
};
use std::process::Abort;
use std::str;

// The limit, of which the check is to know nothing here: it would count so far.
fn limit() -> usize {
    LIMIT as usize
}

// The front, and this byte up to the limit.
fn filled(rt: &(impl Abort + AllocGlobal), front: &[u8], byte: u8) -> Vec<u8> {
    let mut bytes = Vec::from_slice(rt.alloc(), front).expect(rt, "bytes");
    bytes
        .resize(limit(), byte)
        .expect(rt, "as many bytes as the limit");
    bytes
}

// An input that is as long as the limit, byte by byte: so many bytes are held, and one byte more is
// refused.
fn expect_fed(rt: &(impl Abort + AllocGlobal), input: &[u8], held: usize, error: DecodeError) {
    let mut decoder = TileDecoder::new(rt.alloc());
    expect_eq!(rt; feed_bytes(&mut decoder, input), Ok(()));
    expect_eq!(rt; decoder.held(), held);
    expect_eq!(rt; decoder.feed(b"\x00"), Err(error));
    expect_eq!(rt; decoder.held(), 0);
    expect_eq!(rt; decoder.finish().err(), Some(error));
}

// What an input is refused for, read or judged.
fn expect_refused(rt: &(impl Abort + AllocGlobal), input: &[u8], error: DecodeError) {
    expect_eq!(rt; decode(rt.alloc(), input).err(), Some(error));
    expect_eq!(rt; judge(rt.alloc(), input), Err(error));
}

// An unknown field of zero bytes that ends at the limit: a tile without items, but for a byte more.
#[test]
fn ends_at_the_limit(rt: HostRuntime) {
    let mut input = filled(&rt, b"\x0A\xFB\xFF\xFF\x1F", 0);
    let tile = tile_of(&rt, &input);
    expect!(rt; tile.items.as_slice().is_empty());
    drop(tile);
    expect_eq!(rt; judge(rt.alloc(), &input), Ok(()));
    let error = outer(67_108_864, Cause::TooLarge);
    expect_fed(&rt, &input, 0, error);
    input.push(0).expect(&rt, "a byte");
    expect_refused(&rt, &input, error);
    drop(input);
}

// A field that isn't finished at the limit: all is held, and one byte more is refused.
fn expect_endless(rt: &(impl Abort + AllocGlobal), front: &[u8]) {
    let mut input = filled(rt, front, 0);
    expect_refused(rt, &input, outer(0, Cause::Truncated));
    let error = outer(0, Cause::TooLarge);
    expect_fed(rt, &input, limit(), error);
    input.push(0).expect(rt, "a byte");
    expect_refused(rt, &input, error);
    drop(input);
}

// Payloads of one byte too many, and of 2^63 bytes.
#[test]
fn goes_on_after_the_limit(rt: HostRuntime) {
    expect_endless(&rt, b"\x0A\xFC\xFF\xFF\x1F");
    expect_endless(&rt, b"\x0A\x80\x80\x80\x80\x80\x80\x80\x80\x80\x01");
}

// The payload of the tile's only item is within the limit, though the tile isn't.
fn expect_payload(rt: &(impl Abort + AllocGlobal), tile: &Tile) {
    for item in tile.items.as_slice() {
        expect!(rt; is_valid_item(item));
        expect_eq!(rt; item_len(rt.alloc(), item), Ok(67_108_862));
        let payload = put_item(rt.alloc(), item).expect(rt, "a payload");
        expect_eq!(rt; payload.len(), 67_108_862);
        drop(payload);
    }
}

// A tile is refused before the first write, and its only note is this.
fn expect_unwritten(rt: &(impl Abort + AllocGlobal), tile: &Tile, note: Note) {
    expect!(rt; is_valid(tile));
    expect_eq!(rt; encode(rt.alloc(), tile).err(), Some(PutError::TooLarge));
    let mut writer = MemorySink::new(rt.alloc(), 100, 100, u64::MAX, false).expect(rt, "a writer");
    let done = write_tile(rt.alloc(), tile, &mut writer);
    expect_eq!(rt; done, Err(WriteError::TooLarge));
    expect_eq!(rt; writer.calls(), 0);
    drop(writer);
    let found = notes(rt.alloc(), tile).expect(rt, "notes");
    expect_eq!(rt; found.as_slice(), [note].as_slice());
    drop(found);
}

// A layer with a long name, whose extent isn't there: canonical bytes have it, and are too many.
#[test]
fn is_too_large_to_write(rt: HostRuntime) {
    let front = b"\x1A\xFB\xFF\xFF\x1F\x78\x02\x0A\xF4\xFF\xFF\x1F";
    let input = filled(&rt, front, b'a');
    let tile = tile_of(&rt, &input);
    expect_payload(&rt, &tile);
    expect_unwritten(&rt, &tile, Note::NoFeatures(0));
    drop(tile);
    expect_eq!(rt; rewrite(rt.alloc(), &input), Ok(None));
    drop(input);
}

// A feature of one point, whose only value is this text.
fn with_text(rt: &(impl Abort + AllocGlobal), text: &Text) -> Feature {
    let attribute = Attribute {
        key: Text::from_str(rt.alloc(), "k").expect(rt, "a key"),
        value: Value::Text(text.copy(rt.alloc()).expect(rt, "a text")),
    };
    Feature {
        id: None,
        attributes: Items::new(vec![in rt.alloc(); attribute].expect(rt, "attributes")),
        geometry: Geometry::Points(points(rt.alloc(), &[(1, 1)]).expect(rt, "a point")),
    }
}

fn text_of(rt: &(impl Abort + AllocGlobal), bytes: &[u8]) -> Text {
    let text = str::from_utf8(bytes).ok().unwrap_or_default();
    Text::from_str(rt.alloc(), text).expect(rt, "a text")
}

fn features_with(rt: &(impl Abort + AllocGlobal), text: &Text, count: usize) -> Vec<Feature> {
    let mut features = Vec::new(rt.alloc());
    for _ in 0..count {
        features.push(with_text(rt, text)).expect(rt, "a feature");
    }
    features
}

// Seventy features that share a text of 1 MiB, and an item of another version.
fn sharing(rt: &(impl Abort + AllocGlobal)) -> Tile {
    let mut bytes = Vec::new(rt.alloc());
    bytes.resize(limit() / 64, b'a').expect(rt, "bytes");
    let text = text_of(rt, &bytes);
    drop(bytes);
    let features = features_with(rt, &text, 70);
    drop(text);
    let mut items = layer_a(rt.alloc(), features)
        .expect(rt, "a layer")
        .items
        .into_vec();
    let foreign = foreign_item(rt.alloc(), 1, b"\x78\x01\x0A\x01b").expect(rt, "an item");
    items.push(foreign).expect(rt, "two items");
    Tile {
        items: Items::new(items),
    }
}

fn expect_lengths(rt: &(impl Abort + AllocGlobal), tile: &Tile) {
    for item in tile.items.as_slice() {
        let len = match item {
            Item::Layer(_) => 1_049_505,
            Item::Foreign { .. } => 5,
        };
        expect!(rt; is_valid_item(item));
        expect_eq!(rt; item_len(rt.alloc(), item), Ok(len));
    }
}

fn expect_read(rt: &(impl Abort + AllocGlobal), input: &[u8], tile: &Tile) {
    let read = tile_of(rt, input);
    expect!(rt; read == *tile);
    drop(read);
}

// Texts are beyond the limit if each counts for itself, and the bytes are within it, since the text
// stands once: 13 a feature, 1,048,584 of the text, 11 of the rest and 4 in front; then 7 of the
// other item.
#[test]
fn writes_a_shared_text_once(rt: HostRuntime) {
    let tile = sharing(&rt);
    expect!(rt; is_valid(&tile));
    let made = MemorySink::new(rt.alloc(), 1_049_516, limit(), u64::MAX, false);
    let mut writer = made.expect(&rt, "a writer");
    expect_eq!(rt; write_tile(rt.alloc(), &tile, &mut writer), Ok(()));
    expect_eq!(rt; writer.taken().len(), 1_049_516);
    expect_lengths(&rt, &tile);
    expect_read(&rt, writer.taken(), &tile);
    drop(writer);
    drop(tile);
}
