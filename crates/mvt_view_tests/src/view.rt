//! Tiles as JSON, the lines of fields, and the lines of faults.
use crate::expect::{expect, expect_eq};
use mvt_attrs::{Attribute, Value};
use mvt_base::{Items, LIMIT, Text};
use mvt_geometry::{Geometry, Point, Polygon};
use mvt_message::{Cause, Feature, Item, Layer};
use mvt_tile::{Fault, Finding, Tile};
use mvt_view::*;
use std::alloc::{AllocError, Global};
use std::process::Abort;

mod svg;

const ONE_POINT: &str = concat!(
    r#"{"layers":[{"extent":4096,"features":[{"attributes":[],"#,
    r#""geometry":{"points":[[25,17]]},"id":null}],"name":"a"}]}"#
);

const FLAT: &str = "ok layers 1 features 1 canonical yes\nnote FlatRing layer 0 feature 0 ring 2\n";

fn line(alloc: Global, points: &[(i32, i32)]) -> Result<Items<Point>, AllocError> {
    let mut line = Vec::new(alloc);
    for (x, y) in points {
        line.push(Point { x: *x, y: *y })?;
    }
    Ok(Items::new(line))
}

fn feature(alloc: Global, id: Option<u64>, geometry: Geometry) -> Feature {
    let attributes = Items::new(Vec::new(alloc));
    Feature {
        id,
        attributes,
        geometry,
    }
}

fn point(alloc: Global, id: Option<u64>) -> Result<Feature, AllocError> {
    let geometry = Geometry::Points(line(alloc, &[(25, 17)])?);
    Ok(feature(alloc, id, geometry))
}

// A tile of one layer.
fn tile_of(alloc: Global, name: &str, features: Vec<Feature>) -> Result<Tile, AllocError> {
    let layer = Layer {
        name: Text::from_str(alloc, name)?,
        extent: 4096,
        features: Items::new(features),
    };
    let items = Items::new(vec![in alloc; Item::Layer(layer)]?);
    Ok(Tile { items })
}

fn one_point(alloc: Global) -> Result<Tile, AllocError> {
    tile_of(alloc, "a", vec![in alloc; point(alloc, None)?]?)
}

// Layer `a` with one feature of this geometry.
fn drawn(alloc: Global, geometry: Geometry) -> Result<Tile, AllocError> {
    tile_of(alloc, "a", vec![in alloc; feature(alloc, None, geometry)]?)
}

// Two rings, of which the second has no area.
fn holes(alloc: Global) -> Result<Items<Items<Point>>, AllocError> {
    let hole = line(alloc, &[(2, 2), (2, 8), (8, 8)])?;
    let flat = line(alloc, &[(1, 1), (2, 2), (3, 3)])?;
    Ok(Items::new(vec![in alloc; hole, flat]?))
}

fn polygon(alloc: Global) -> Result<Polygon, AllocError> {
    let outer = line(alloc, &[(0, 0), (10, 0), (10, 10), (0, 10)])?;
    let rest = holes(alloc)?;
    Ok(Polygon { outer, rest })
}

// A ring with two others in it, of which the second has no area.
fn rings(alloc: Global) -> Result<Tile, AllocError> {
    let polygons = Items::new(vec![in alloc; polygon(alloc)?]?);
    drawn(alloc, Geometry::Polygons(polygons))
}

// With memory that isn't refused.
fn attribute(rt: &(impl Abort + AllocGlobal), key: &str, value: Value) -> Attribute {
    let key = Text::from_str(rt.alloc(), key).expect(rt, "a key");
    Attribute { key, value }
}

fn lines_of(rt: &(impl Abort + AllocGlobal), points: &[(i32, i32)]) -> Items<Point> {
    line(rt.alloc(), points).expect(rt, "points")
}

fn one_layer(rt: &(impl Abort + AllocGlobal), name: &str, features: Vec<Feature>) -> Tile {
    tile_of(rt.alloc(), name, features).expect(rt, "a tile")
}

fn one_feature(rt: &(impl Abort + AllocGlobal), name: &str, feature: Feature) -> Tile {
    let features = vec![in rt.alloc(); feature].expect(rt, "features");
    one_layer(rt, name, features)
}

// A value of each kind but text.
fn all_kinds(rt: &(impl Abort + AllocGlobal)) -> Tile {
    let values = [
        ("a", Value::Int(5)),
        ("b", Value::Uint(5)),
        ("c", Value::Sint(5)),
        ("d", Value::Float(2_147_483_648)),
        ("e", Value::Double(9_223_372_036_854_775_808)),
        ("f", Value::Bool(true)),
    ];
    let mut attributes = Vec::new(rt.alloc());
    for (key, value) in values {
        attributes
            .push(attribute(rt, key, value))
            .expect(rt, "an attribute");
    }
    let kinds = Feature {
        id: None,
        attributes: Items::new(attributes),
        geometry: Geometry::Unknown(Items::new(Vec::new(rt.alloc()))),
    };
    one_feature(rt, "a", kinds)
}

fn foreign(rt: &(impl Abort + AllocGlobal)) -> Tile {
    let bytes = Vec::from_slice(rt.alloc(), b"\x78\x01\x0A\x01\x61").expect(rt, "bytes");
    let item = Item::Foreign {
        version: 1,
        bytes: Items::new(bytes),
    };
    let items = Items::new(vec![in rt.alloc(); item].expect(rt, "items"));
    Tile { items }
}

fn point_tile(rt: &(impl Abort + AllocGlobal)) -> Tile {
    one_point(rt.alloc()).expect(rt, "a tile")
}

fn rings_tile(rt: &(impl Abort + AllocGlobal)) -> Tile {
    rings(rt.alloc()).expect(rt, "a tile")
}

fn foreign_and_point(rt: &(impl Abort + AllocGlobal)) -> Tile {
    let mut items = foreign(rt).items.into_vec();
    for item in point_tile(rt).items.into_vec() {
        items.push(item).expect(rt, "two items");
    }
    let items = Items::new(items);
    Tile { items }
}

fn empty(alloc: Global) -> Tile {
    let items = Items::new(Vec::new(alloc));
    Tile { items }
}

fn tree_text(alloc: Global, tile: &Tile) -> Result<String, ViewError> {
    let tree = json_of(alloc, tile)?;
    let text = tree.to_string(alloc);
    drop(tree);
    Ok(text?)
}

fn expect_text(rt: &impl Abort, found: Result<String, ViewError>, expected: &str) {
    let text = found.expect(rt, "a text");
    expect_eq!(rt; text.as_str(), expected);
    drop(text);
}

// The JSON of a tile, which is let go, is this text, piece by piece and by the tree.
fn expect_json(rt: &(impl Abort + AllocGlobal), tile: Tile, expected: &str) {
    expect_text(rt, json_text(rt.alloc(), &tile), expected);
    expect_text(rt, tree_text(rt.alloc(), &tile), expected);
    drop(tile);
}

#[test]
fn shows_tiles(rt: HostRuntime) {
    expect_json(&rt, empty(rt.alloc()), r#"{"layers":[]}"#);
    expect_json(&rt, point_tile(&rt), ONE_POINT);
    expect_json(
        &rt,
        rings_tile(&rt),
        concat!(
            r#"{"layers":[{"extent":4096,"features":[{"attributes":[],"geometry":{"polygons":[{"#,
            r#""outer":[[0,0],[10,0],[10,10],[0,10]],"#,
            r#""rest":[[[2,2],[2,8],[8,8]],[[1,1],[2,2],[3,3]]]}]},"id":null}],"name":"a"}]}"#
        ),
    );
    expect_json(
        &rt,
        all_kinds(&rt),
        concat!(
            r#"{"layers":[{"extent":4096,"features":[{"attributes":["#,
            r#"["a",{"int":5}],["b",{"uint":5}],["c",{"sint":5}],["d",{"float_bits":2147483648}],"#,
            r#"["e",{"double_bits":9223372036854775808}],["f",{"bool":true}]],"#,
            r#""geometry":{"unknown":[]},"id":null}],"name":"a"}]}"#
        ),
    );
    expect_json(
        &rt,
        foreign(&rt),
        r#"{"layers":[{"foreign":{"length":5,"version":1}}]}"#,
    );
}

// A feature with a text and a number at its end, which is drawn by a line to the ends of the range.
fn far_line(rt: &(impl Abort + AllocGlobal), text: &str) -> Feature {
    let value = Value::Text(Text::from_str(rt.alloc(), text).expect(rt, "a text"));
    let quoted = attribute(rt, "\"", value);
    let least = attribute(rt, "", Value::Sint(i64::MIN));
    let attributes = vec![in rt.alloc(); quoted, least].expect(rt, "attributes");
    let line = lines_of(rt, &[(-9, 2_147_483_647), (-2_147_483_647, 0)]);
    Feature {
        id: Some(u64::MAX),
        attributes: Items::new(attributes),
        geometry: Geometry::Lines(Items::new(vec![in rt.alloc(); line].expect(rt, "a line"))),
    }
}

// A text with quotes, control characters and characters beyond ASCII, and numbers at their ends.
// The expected text was made by Python: json.dumps(tile, ensure_ascii=False, sort_keys=True,
// separators=(",", ":")).
#[test]
fn shows_texts(rt: HostRuntime) {
    let name = "a\"b\\c/\n\r\t\u{8}\u{c}\u{1}\u{1f}\u{7f}\u{e9}\u{2028}\u{6f22}\u{1f600}";
    let tile = one_feature(&rt, name, far_line(&rt, name));
    let expected = concat!(
        r#"{"layers":[{"extent":4096,"features":[{"attributes":[["\"",{"string":"#,
        "\"a\\\"b\\\\c/\\n\\r\\t\\b\\f\\u0001\\u001f\u{7f}\u{e9}\u{2028}\u{6f22}\u{1f600}\"",
        r#"}],["",{"sint":-9223372036854775808}]],"#,
        r#""geometry":{"lines":[[[-9,2147483647],[-2147483647,0]]]},"#,
        r#""id":18446744073709551615}],"name":"#,
        "\"a\\\"b\\\\c/\\n\\r\\t\\b\\f\\u0001\\u001f\u{7f}\u{e9}\u{2028}\u{6f22}\u{1f600}\"",
        "}]}"
    );
    expect_json(&rt, tile, expected);
}

// A text of so many bytes, of which one is a mark.
fn marked(rt: &(impl Abort + AllocGlobal), len: usize, at: usize, mark: &str) -> String {
    let mut text = String::new(rt.alloc());
    for index in 0..len {
        let piece = if index == at { mark } else { "x" };
        text.push_str(piece).expect(rt, "a text");
    }
    text
}

// A layer whose name has a quotation mark there.
fn expect_marked(rt: &(impl Abort + AllocGlobal), len: usize, at: usize) {
    let name = marked(rt, len, at, "\"");
    let escaped = marked(rt, len, at, "\\\"");
    let expected = format!(in rt.alloc();
        "{{\"layers\":[{{\"extent\":4096,\"features\":[],\"name\":\"{}\"}}]}}",
        escaped.as_str()
    )
    .expect(rt, "a text");
    let tile = one_layer(rt, name.as_str(), Vec::new(rt.alloc()));
    expect_json(rt, tile, expected.as_str());
    drop(name);
    drop(escaped);
    drop(expected);
}

// 32 bytes are looked at together in a text of 256 and more.
#[test]
fn escapes_in_texts_of_any_length(rt: HostRuntime) {
    let places = [
        0, 1, 30, 31, 32, 33, 63, 64, 254, 255, 256, 286, 287, 288, 319,
    ];
    for at in places {
        expect_marked(&rt, at + 1, at);
        expect_marked(&rt, 255, at);
        expect_marked(&rt, 256, at);
        expect_marked(&rt, 320, at);
    }
}

const fn fault(layer: Option<u32>, feature: Option<u32>, at: u64, cause: Cause) -> Fault {
    Fault {
        layer,
        feature,
        at,
        cause,
    }
}

#[test]
fn reports_faults(rt: HostRuntime) {
    let faults = [
        (
            fault(Some(0), None, 14, Cause::ValueKind),
            "layer 0 feature - at 14: 11 ValueKind",
        ),
        (
            fault(Some(0), Some(0), 1, Cause::ParameterRange),
            "layer 0 feature 0 at 1: 26 ParameterRange",
        ),
        (
            fault(None, None, 67_108_864, Cause::TooLarge),
            "layer - feature - at 67108864: 25 TooLarge",
        ),
    ];
    for (fault, expected) in &faults {
        expect_text(&rt, fault_text(rt.alloc(), fault), expected);
    }
}

// A cause in feature 4 of layer 3, at 5.
fn expect_cause(rt: &(impl Abort + AllocGlobal), cause: Cause, expected: &str) {
    let text = fault_text(rt.alloc(), &fault(Some(3), Some(4), 5, cause)).expect(rt, "a text");
    let reported = text.as_str().strip_prefix("layer 3 feature 4 at 5: ");
    expect_eq!(rt; reported, Some(expected));
    drop(text);
}

#[test]
fn reports_causes(rt: HostRuntime) {
    let causes = [
        (Cause::Truncated, "1 Truncated"),
        (Cause::VarintRange, "2 VarintRange"),
        (Cause::FieldNumber, "3 FieldNumber"),
        (Cause::WireType, "4 WireType"),
        (Cause::WrongType, "5 WrongType"),
        (Cause::NumberRange, "6 NumberRange"),
        (Cause::NotUtf8, "7 NotUtf8"),
        (Cause::NoVersion, "8 NoVersion"),
        (Cause::NoName, "10 NoName"),
        (Cause::ValueKind, "11 ValueKind"),
        (Cause::GeomType, "12 GeomType"),
        (Cause::OddTags, "13 OddTags"),
        (Cause::KeyIndex, "14 KeyIndex"),
        (Cause::ValueIndex, "15 ValueIndex"),
        (Cause::RepeatedKey, "16 RepeatedKey"),
        (Cause::Command, "17 Command"),
        (Cause::Count, "18 Count"),
        (Cause::Parameters, "19 Parameters"),
        (Cause::ZeroSegment, "20 ZeroSegment"),
        (Cause::CoordinateRange, "21 CoordinateRange"),
        (Cause::FirstRing, "22 FirstRing"),
        (Cause::EndsEarly, "23 EndsEarly"),
        (Cause::RepeatedName, "24 RepeatedName"),
        (Cause::TooLarge, "25 TooLarge"),
        (Cause::ParameterRange, "26 ParameterRange"),
    ];
    for (cause, expected) in &causes {
        expect_cause(&rt, *cause, expected);
    }
}

fn expect_fields(rt: &(impl Abort + AllocGlobal), input: &[u8], lines: &str, fault: Option<Fault>) {
    let found = fields_text(rt.alloc(), input).expect(rt, "the lines of fields");
    expect_eq!(rt; found.lines.as_str(), lines);
    expect_eq!(rt; found.fault, fault);
    drop(found);
}

#[test]
fn lists_fields(rt: HostRuntime) {
    expect_fields(
        &rt,
        b"\x1A\x03\x0A\x01\x61\x20\x05",
        "0 3 len 3\n5 4 varint 5\n",
        None,
    );
    let fixed = b"\x0D\x01\x00\x00\x00\x09\x02\x00\x00\x00\x00\x00\x00\x00";
    expect_fields(&rt, fixed, "0 1 i32 1\n5 1 i64 2\n", None);
    expect_fields(&rt, b"", "", None);
    let broken: [(&[u8], &str, u64, Cause); 7] = [
        (b"\x1A", "", 0, Cause::Truncated),
        (b"\x20\x05\x1A", "0 4 varint 5\n", 2, Cause::Truncated),
        (
            b"\x20\x80\x80\x80\x80\x80\x80\x80\x80\x80\x02",
            "",
            0,
            Cause::VarintRange,
        ),
        (b"\x00\x00", "", 0, Cause::FieldNumber),
        (b"\x80\x80\x80\x80\x10\x00", "", 0, Cause::FieldNumber),
        (b"\x1B", "", 0, Cause::WireType),
        (b"\x1F\x8B", "", 0, Cause::WireType),
    ];
    for (input, lines, at, cause) in &broken {
        expect_fields(&rt, input, lines, Some(fault(None, None, *at, *cause)));
    }
}

// The limit of an input's length, as a number that the proofs don't count to.
fn limit() -> usize {
    LIMIT as usize
}

// One field of this head at the limit, and a byte after it.
fn past_limit(rt: &(impl Abort + AllocGlobal), head: &[u8]) -> Vec<u8> {
    let mut input = Vec::from_slice(rt.alloc(), head).expect(rt, "bytes");
    input
        .resize(limit().saturating_add(1), 0)
        .expect(rt, "more bytes than the limit");
    input
}

#[test]
fn lists_fields_up_to_the_limit(rt: HostRuntime) {
    let whole = past_limit(&rt, b"\x0A\xFB\xFF\xFF\x1F");
    let large = fault(None, None, 67_108_864, Cause::TooLarge);
    expect_fields(&rt, &whole, "0 1 len 67108859\n", Some(large));
    drop(whole);
    let cut = past_limit(&rt, b"\x0A\xFC\xFF\xFF\x1F");
    expect_fields(&rt, &cut, "", Some(fault(None, None, 0, Cause::TooLarge)));
    drop(cut);
}

// The report of a tile, which is let go.
fn expect_report(rt: &(impl Abort + AllocGlobal), tile: Tile, canonical: bool, expected: &str) {
    expect_text(rt, report_text(rt.alloc(), &tile, canonical), expected);
    drop(tile);
}

#[test]
fn reports_tiles(rt: HostRuntime) {
    let nothing = "ok layers 0 features 0 canonical yes\nnote NoLayers\n";
    expect_report(&rt, empty(rt.alloc()), true, nothing);
    let shown = "ok layers 1 features 1 canonical yes\n";
    expect_report(&rt, point_tile(&rt), true, shown);
    let otherwise = "ok layers 1 features 1 canonical no\n";
    expect_report(&rt, point_tile(&rt), false, otherwise);
    expect_report(&rt, rings_tile(&rt), true, FLAT);
    let other = "ok layers 1 features 0 canonical yes\nnote Foreign layer 0 version 1\n";
    expect_report(&rt, foreign(&rt), true, other);
    let both = "ok layers 2 features 1 canonical yes\nnote Foreign layer 0 version 1\n";
    expect_report(&rt, foreign_and_point(&rt), true, both);
    let bare = "ok layers 1 features 0 canonical yes\nnote NoFeatures layer 0\n";
    let no_features = one_layer(&rt, "a", Vec::new(rt.alloc()));
    expect_report(&rt, no_features, true, bare);
}

// Layer `a` with two points of the id 7.
fn same_ids(rt: &(impl Abort + AllocGlobal)) -> Tile {
    let one = point(rt.alloc(), Some(7)).expect(rt, "a feature");
    let two = point(rt.alloc(), Some(7)).expect(rt, "a feature");
    one_layer(
        rt,
        "a",
        vec![in rt.alloc(); one, two].expect(rt, "features"),
    )
}

// Layer `a` with a polygon whose only ring ends where it begins.
fn closed_ring(rt: &(impl Abort + AllocGlobal)) -> Tile {
    let ring = Polygon {
        outer: lines_of(rt, &[(0, 0), (4, 0), (0, 4), (0, 0)]),
        rest: Items::new(Vec::new(rt.alloc())),
    };
    let polygons = Items::new(vec![in rt.alloc(); ring].expect(rt, "a polygon"));
    drawn(rt.alloc(), Geometry::Polygons(polygons)).expect(rt, "a tile")
}

#[test]
fn reports_ids_and_rings(rt: HostRuntime) {
    let twice =
        "ok layers 1 features 2 canonical yes\nnote RepeatedId layer 0 feature 1 earlier 0\n";
    expect_report(&rt, same_ids(&rt), true, twice);
    let closed =
        "ok layers 1 features 1 canonical yes\nnote ClosedTwice layer 0 feature 0 ring 0\n";
    expect_report(&rt, closed_ring(&rt), true, closed);
}

// How often a text wanted memory; else it is the expected one.
fn wants(rt: &impl Abort, found: Result<String, ViewError>, expected: &str) -> u32 {
    match found {
        Ok(text) => {
            expect_eq!(rt; text.as_str(), expected);
            drop(text);
            0
        }
        Err(ViewError::Memory) => 1,
    }
}

#[test]
fn json_refused_memory(rt: HostRuntime) {
    let alloc = rt.alloc();
    let Ok(tile) = one_point(alloc) else {
        return;
    };
    let mut wanted: u32 = 0;
    for _ in 0..2 {
        wanted = wanted.saturating_add(wants(&rt, json_text(alloc, &tile), ONE_POINT));
        wanted = wanted.saturating_add(wants(&rt, tree_text(alloc, &tile), ONE_POINT));
    }
    drop(tile);
    expect!(rt; wanted <= 1);
}

#[test]
fn lines_refused_memory(rt: HostRuntime) {
    let alloc = rt.alloc();
    let kind = fault(Some(0), None, 14, Cause::ValueKind);
    let line = "layer 0 feature - at 14: 11 ValueKind";
    let mut wanted: u32 = 0;
    for _ in 0..2 {
        wanted = wanted.saturating_add(wants(&rt, fault_text(alloc, &kind), line));
    }
    expect!(rt; wanted <= 1);
}

fn are_fields_refused(
    rt: &(impl Abort + AllocGlobal),
    input: &[u8],
    lines: &str,
    fault: Option<Fault>,
) -> bool {
    match fields_text(rt.alloc(), input) {
        Ok(text) => {
            expect_eq!(rt; text.lines.as_str(), lines);
            expect_eq!(rt; text.fault, fault);
            drop(text);
            false
        }
        Err(ViewError::Memory) => true,
    }
}

#[test]
fn fields_refused_memory(rt: HostRuntime) {
    let cut = fault(None, None, 2, Cause::Truncated);
    let rows: [(&[u8], &str, Option<Fault>); 3] = [
        (
            b"\x1A\x03\x0A\x01\x61\x20\x05",
            "0 3 len 3\n5 4 varint 5\n",
            None,
        ),
        (b"\x20\x05\x1A", "0 4 varint 5\n", Some(cut)),
        (
            b"\x0D\x01\x00\x00\x00\x09\x02\x00\x00\x00\x00\x00\x00\x00",
            "0 1 i32 1\n5 1 i64 2\n",
            None,
        ),
    ];
    let mut wanted: u32 = 0;
    for (input, lines, fault) in &rows {
        for _ in 0..2 {
            let is_refused = are_fields_refused(&rt, input, lines, *fault);
            wanted = wanted.saturating_add(u32::from(is_refused));
        }
    }
    expect!(rt; wanted <= 1);
}

const FINDINGS: [Finding; 6] = [
    Finding::ZeroExtent(0),
    Finding::NoGeometry(1, 2),
    Finding::UnknownGeometry(3, 4),
    Finding::FarPoint(0, 3, 20_000, -7),
    Finding::LargeId(5, 6),
    Finding::LargeNumber(7, 8, 9),
];

const FOUND: &str = concat!(
    "lint ZeroExtent layer 0\n",
    "lint NoGeometry layer 1 feature 2\n",
    "lint UnknownGeometry layer 3 feature 4\n",
    "lint FarPoint layer 0 feature 3 position 20000 -7\n",
    "lint LargeId layer 5 feature 6\n",
    "lint LargeNumber layer 7 feature 8 attribute 9\n"
);

#[test]
fn tells_findings(rt: HostRuntime) {
    expect_text(&rt, lint_text(rt.alloc(), &[]), "");
    expect_text(&rt, lint_text(rt.alloc(), &FINDINGS), FOUND);
}

#[test]
fn findings_refused_memory(rt: HostRuntime) {
    let alloc = rt.alloc();
    let mut wanted: u32 = 0;
    for _ in 0..2 {
        wanted = wanted.saturating_add(wants(&rt, lint_text(alloc, &FINDINGS), FOUND));
    }
    expect!(rt; wanted <= 1);
}

#[test]
fn report_refused_memory(rt: HostRuntime) {
    let alloc = rt.alloc();
    let Ok(tile) = rings(alloc) else {
        return;
    };
    let mut wanted: u32 = 0;
    for _ in 0..2 {
        wanted = wanted.saturating_add(wants(&rt, report_text(alloc, &tile, true), FLAT));
    }
    drop(tile);
    expect!(rt; wanted <= 1);
}
