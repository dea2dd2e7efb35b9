//! Tiles of the sizes at which code could turn: none, one and two of a kind, around each bound up
//! to which entries are compared one by one, and many. With ample memory each call answers.
use super::support::{expect_tile, layer_a, names, one_feature, points, reader_of};
use crate::expect::{expect, expect_eq};
use mvt_attrs::{Attribute, Value};
use mvt_base::{Items, Text};
use mvt_geometry::{Geometry, Point, Polygon};
use mvt_io::MemorySink;
use mvt_message::{Feature, Item, Layer};
use mvt_tile::{
    NamedLayers, Tile, encode, extract, extract_bytes, extract_tile, is_valid, notes, read_tile,
    write_tile,
};
use std::process::Abort;

pub(crate) const COUNTS: [u32; 15] = [0, 1, 2, 7, 8, 9, 16, 17, 32, 33, 34, 48, 49, 100, 1000];

// A tile, which is let go, is written and read by each call.
pub(crate) fn expect_answers(rt: &(impl Abort + AllocGlobal), tile: Tile) {
    expect!(rt; is_valid(&tile));
    let bytes = encode(rt.alloc(), &tile).expect(rt, "bytes");
    expect_tile(rt, &bytes, &tile, &bytes);
    expect_streams(rt, &bytes, &tile);
    expect_all_layers(rt, &bytes, &tile);
    drop(bytes);
    expect!(rt; notes(rt.alloc(), &tile).is_ok());
    expect_no_layers(rt, &tile);
    drop(tile);
}

// A reader of the bytes gives the tile, and a writer takes them.
fn expect_streams(rt: &(impl Abort + AllocGlobal), bytes: &[u8], tile: &Tile) {
    let mut reader = reader_of(rt, bytes, 7, u64::MAX);
    let read = read_tile(rt.alloc(), &mut reader).expect(rt, "a tile");
    drop(reader);
    expect!(rt; read == *tile);
    drop(read);
    expect!(rt; is_valid(tile));
    let made = MemorySink::new(rt.alloc(), bytes.len(), 7, u64::MAX, false);
    let mut writer = made.expect(rt, "a writer");
    expect_eq!(rt; write_tile(rt.alloc(), tile, &mut writer), Ok(()));
    expect_eq!(rt; writer.taken(), bytes);
    drop(writer);
}

// None of its layers are wanted.
fn expect_no_layers(rt: &(impl Abort + AllocGlobal), tile: &Tile) {
    let names = names(rt.alloc(), &[]).expect(rt, "names");
    let picked = extract(rt.alloc(), tile, &names).expect(rt, "no layers");
    drop(names);
    expect!(rt; picked.items.as_slice().is_empty());
    drop(picked);
}

// All its layers are wanted, by their names: of the tile, of its bytes and of a reader of these.
fn expect_all_layers(rt: &(impl Abort + AllocGlobal), bytes: &[u8], tile: &Tile) {
    let names = names_in(rt, tile);
    let picked = extract(rt.alloc(), tile, &names).expect(rt, "layers");
    expect!(rt; picked == *tile);
    drop(picked);
    let made = extract_bytes(rt.alloc(), bytes, &names).expect(rt, "layers");
    expect_layers(rt, made, bytes);
    let mut reader = reader_of(rt, bytes, 7, u64::MAX);
    let made = extract_tile(rt.alloc(), &names, &mut reader).expect(rt, "layers");
    drop(reader);
    drop(names);
    expect_layers(rt, made, bytes);
}

// The names of a tile whose items are layers.
fn names_in(rt: &(impl Abort + AllocGlobal), tile: &Tile) -> Vec<String> {
    let mut names = Vec::new(rt.alloc());
    for item in tile.items.as_slice() {
        if let Item::Layer(layer) = item {
            let name = String::from_str(rt.alloc(), layer.name.as_str()).expect(rt, "a name");
            names.push(name).expect(rt, "names");
        }
    }
    names
}

fn expect_layers(rt: &impl Abort, made: NamedLayers, bytes: &[u8]) {
    match made {
        NamedLayers::Bytes(layers) => {
            expect_eq!(rt; layers.as_slice(), bytes);
            drop(layers);
        }
        NamedLayers::Missing(_) | NamedLayers::TooLarge => expect!(rt; false),
    }
}

fn point(rt: &(impl Abort + AllocGlobal)) -> Geometry {
    Geometry::Points(points(rt.alloc(), &[(25, 17)]).expect(rt, "a point"))
}

// A text that begins with a number, and is so many bytes long or longer.
pub(crate) fn text_of(rt: &(impl Abort + AllocGlobal), number: u32, len: u32) -> Text {
    let mut text = format!(in rt.alloc(); "{number}").expect(rt, "a text");
    for _ in 0..len {
        text.push_str("x").expect(rt, "a text");
    }
    Text::from_string(text).expect(rt, "a text")
}

// A feature with so many attributes, each with a key and a value of its own.
pub(crate) fn keyed(rt: &(impl Abort + AllocGlobal), count: u32) -> Feature {
    let mut attributes = Vec::new(rt.alloc());
    for number in 0..count {
        let key = text_of(rt, number, 0);
        let value = Value::Uint(u64::from(number));
        attributes
            .push(Attribute { key, value })
            .expect(rt, "an attribute");
    }
    Feature {
        id: Some(u64::from(count)),
        attributes: Items::new(attributes),
        geometry: point(rt),
    }
}

pub(crate) fn one_layer(rt: &(impl Abort + AllocGlobal), features: Vec<Feature>) -> Tile {
    layer_a(rt.alloc(), features).expect(rt, "a tile")
}

// Each feature has one attribute more than the one before.
fn features(rt: &(impl Abort + AllocGlobal), count: u32) -> Vec<Feature> {
    let mut features = Vec::new(rt.alloc());
    for number in 0..count {
        features.push(keyed(rt, number % 3)).expect(rt, "features");
    }
    features
}

#[test]
fn takes_any_number_of_features(rt: HostRuntime) {
    for count in COUNTS {
        expect_answers(&rt, one_layer(&rt, features(&rt, count)));
    }
}

// A layer without features.
pub(crate) fn layer(rt: &(impl Abort + AllocGlobal), name: Text, extent: u32) -> Item {
    Item::Layer(Layer {
        name,
        extent,
        features: Items::new(Vec::new(rt.alloc())),
    })
}

fn one_item(rt: &(impl Abort + AllocGlobal), item: Item) -> Tile {
    let items = vec![in rt.alloc(); item].expect(rt, "items");
    Tile {
        items: Items::new(items),
    }
}

#[test]
fn takes_any_extent(rt: HostRuntime) {
    for extent in [0, 1, 127, 128, 4095, 4096, 4097, u32::MAX] {
        expect_answers(&rt, one_item(&rt, layer(&rt, text_of(&rt, 0, 0), extent)));
    }
}

// A feature with a text for its value, in a layer of that name.
fn texts(rt: &(impl Abort + AllocGlobal), len: u32) -> Tile {
    let attribute = Attribute {
        key: text_of(rt, 1, len),
        value: Value::Text(text_of(rt, 2, len)),
    };
    let feature = Feature {
        id: Some(u64::MAX),
        attributes: Items::new(vec![in rt.alloc(); attribute].expect(rt, "attributes")),
        geometry: point(rt),
    };
    let features = vec![in rt.alloc(); feature].expect(rt, "features");
    one_item(
        rt,
        Item::Layer(Layer {
            name: text_of(rt, 3, len),
            extent: 4096,
            features: Items::new(features),
        }),
    )
}

#[test]
fn takes_texts_of_any_length(rt: HostRuntime) {
    for len in [0, 1, 12, 13, 14, 100, 126, 127, 1000] {
        expect_answers(&rt, texts(&rt, len));
    }
}

// So many points on a line that goes up and down.
fn zigzag(rt: &(impl Abort + AllocGlobal), count: u16) -> Items<Point> {
    let mut points = Vec::new(rt.alloc());
    for number in 0..count {
        let x = i32::from(number);
        points.push(Point { x, y: x % 2 }).expect(rt, "points");
    }
    Items::new(points)
}

fn lines(rt: &(impl Abort + AllocGlobal), count: u16) -> Items<Items<Point>> {
    let mut lines = Vec::new(rt.alloc());
    for _ in 0..count {
        lines.push(zigzag(rt, 2)).expect(rt, "lines");
    }
    Items::new(lines)
}

fn ring(rt: &(impl Abort + AllocGlobal), corners: &[(i32, i32)]) -> Items<Point> {
    points(rt.alloc(), corners).expect(rt, "a ring")
}

// A polygon with so many rings within its outer one.
fn holed(rt: &(impl Abort + AllocGlobal), count: u16) -> Polygon {
    let mut rest = Vec::new(rt.alloc());
    for _ in 0..count {
        let hole = ring(rt, &[(2, 2), (2, 8), (8, 8)]);
        rest.push(hole).expect(rt, "rings");
    }
    Polygon {
        outer: ring(rt, &[(0, 0), (10, 0), (10, 10), (0, 10)]),
        rest: Items::new(rest),
    }
}

fn polygons(rt: &(impl Abort + AllocGlobal), count: u16) -> Items<Polygon> {
    let mut polygons = Vec::new(rt.alloc());
    for number in 0..count {
        polygons.push(holed(rt, number % 3)).expect(rt, "polygons");
    }
    Items::new(polygons)
}

fn expect_drawn(rt: &(impl Abort + AllocGlobal), geometry: Geometry) {
    let made = one_feature(rt.alloc(), Vec::new(rt.alloc()), geometry);
    expect_answers(rt, made.expect(rt, "a tile"));
}

fn unknown(rt: &(impl Abort + AllocGlobal), count: u32) -> Geometry {
    let mut integers = Vec::new(rt.alloc());
    for number in 0..count {
        let integer = u32::MAX.wrapping_sub(number);
        integers.push(integer).expect(rt, "integers");
    }
    Geometry::Unknown(Items::new(integers))
}

#[test]
fn takes_geometry_of_any_size(rt: HostRuntime) {
    for count in COUNTS {
        expect_drawn(&rt, unknown(&rt, count));
    }
    for count in [1, 2, 3, 100, 1000] {
        expect_drawn(&rt, Geometry::Points(zigzag(&rt, count)));
        expect_drawn(&rt, Geometry::Lines(lines(&rt, count)));
        expect_drawn(&rt, Geometry::Polygons(polygons(&rt, count)));
    }
}

#[test]
fn takes_lines_and_rings_of_any_length(rt: HostRuntime) {
    for count in [2, 3, 100, 1000] {
        let lines = vec![in rt.alloc(); zigzag(&rt, count)].expect(&rt, "a line");
        expect_drawn(&rt, Geometry::Lines(Items::new(lines)));
        let polygons = vec![in rt.alloc(); holed(&rt, count)].expect(&rt, "a polygon");
        expect_drawn(&rt, Geometry::Polygons(Items::new(polygons)));
    }
}
