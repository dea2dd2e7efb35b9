//! Pictures of tiles, with texts written from their definition.
use super::*;

const HEAD: &str = concat!(
    r#"<svg xmlns="http://www.w3.org/2000/svg" viewBox="0 0 1 1">"#,
    "\n<style>path{fill:none;stroke:currentColor;stroke-width:.2%;",
    "stroke-linecap:round;stroke-linejoin:round}.points{stroke-width:1%}",
    ".polygons{fill:currentColor;fill-opacity:.2;fill-rule:evenodd}</style>\n"
);

const POINT: &str = concat!(
    r##"<svg color="#0072b2" viewBox="0 0 4096 4096"><title>a</title>"##,
    "\n",
    r#"<path class="points" d="M25 17h0"><title>{"attributes":[],"id":null}</title></path>"#,
    "\n</svg>\n</svg>"
);

// The picture of a tile, which is let go, is the head followed by this text.
fn expect_svg(rt: &(impl Abort + AllocGlobal), tile: Tile, expected: &str) {
    let text = svg_text(rt.alloc(), &tile).expect(rt, "a picture");
    drop(tile);
    expect_eq!(rt; text.as_str().strip_prefix(HEAD), Some(expected));
    drop(text);
}

#[test]
fn draws_tiles(rt: HostRuntime) {
    expect_svg(&rt, empty(rt.alloc()), "</svg>");
    expect_svg(&rt, foreign(&rt), "</svg>");
    expect_svg(&rt, point_tile(&rt), POINT);
    expect_svg(
        &rt,
        rings_tile(&rt),
        concat!(
            r##"<svg color="#0072b2" viewBox="0 0 4096 4096"><title>a</title>"##,
            "\n",
            r#"<path class="polygons" d="M0 0L10 0L10 10L0 10zM2 2L2 8L8 8zM1 1L2 2L3 3z">"#,
            r#"<title>{"attributes":[],"id":null}</title></path>"#,
            "\n</svg>\n</svg>"
        ),
    );
    expect_svg(
        &rt,
        all_kinds(&rt),
        concat!(
            r##"<svg color="#0072b2" viewBox="0 0 4096 4096"><title>a</title>"##,
            "\n",
            r#"<path class="unknown" d=""><title>{"attributes":["#,
            r#"["a",{"int":5}],["b",{"uint":5}],["c",{"sint":5}],["d",{"float_bits":2147483648}],"#,
            r#"["e",{"double_bits":9223372036854775808}],["f",{"bool":true}]],"#,
            r#""id":null}</title></path>"#,
            "\n</svg>\n</svg>"
        ),
    );
}

// The layer after one of another version has the second colour.
#[test]
fn draws_layers_by_index(rt: HostRuntime) {
    expect_svg(
        &rt,
        foreign_and_point(&rt),
        concat!(
            r##"<svg color="#d55e00" viewBox="0 0 4096 4096"><title>a</title>"##,
            "\n",
            r#"<path class="points" d="M25 17h0">"#,
            r#"<title>{"attributes":[],"id":null}</title></path>"#,
            "\n</svg>\n</svg>"
        ),
    );
}

// A layer without features.
fn bare_layer(rt: &(impl Abort + AllocGlobal), name: &str, extent: u32) -> Item {
    Item::Layer(Layer {
        name: Text::from_str(rt.alloc(), name).expect(rt, "a name"),
        extent,
        features: Items::new(Vec::new(rt.alloc())),
    })
}

// What is drawn of such a layer in a colour, which goes after the others.
fn append_layer(
    rt: &(impl Abort + AllocGlobal),
    drawn: &mut String,
    name: &str,
    colour: &str,
    extent: u32,
) {
    let layer = format!(in rt.alloc();
        "<svg color=\"#{colour}\" viewBox=\"0 0 {extent} {extent}\"><title>{name}</title>\n</svg>\n"
    ).expect(rt, "a text");
    drawn.push_str(layer.as_str()).expect(rt, "a text");
    drop(layer);
}

// Nine layers without features, of extents 1 to 9: the ninth has the colour of the first.
#[test]
fn draws_nine_layers(rt: HostRuntime) {
    let names = ["a", "b", "c", "d", "e", "f", "g", "h", "i"];
    let colours = [
        "0072b2", "d55e00", "009e73", "cc79a7", "e69f00", "56b4e9", "000000", "f0e442", "0072b2",
    ];
    let mut items = Vec::new(rt.alloc());
    let mut expected = String::new(rt.alloc());
    let mut extent: u32 = 0;
    for (name, colour) in names.iter().zip(&colours) {
        extent = extent.saturating_add(1);
        items
            .push(bare_layer(&rt, name, extent))
            .expect(&rt, "layers");
        append_layer(&rt, &mut expected, name, colour, extent);
    }
    expected.push_str("</svg>").expect(&rt, "a text");
    let items = Items::new(items);
    expect_svg(&rt, Tile { items }, expected.as_str());
    drop(expected);
}

// A feature with this text, drawn by two lines.
fn two_lines(rt: &(impl Abort + AllocGlobal), text: &str) -> Feature {
    let value = Value::Text(Text::from_str(rt.alloc(), text).expect(rt, "a text"));
    let titled = attribute(rt, "</title>", value);
    let attributes = vec![in rt.alloc(); titled].expect(rt, "attributes");
    let far = lines_of(rt, &[(-9, 2_147_483_647), (-2_147_483_647, 0), (5, 5)]);
    let near = lines_of(rt, &[(1, 2), (3, 4)]);
    let lines = vec![in rt.alloc(); far, near].expect(rt, "lines");
    Feature {
        id: Some(u64::MAX),
        attributes: Items::new(attributes),
        geometry: Geometry::Lines(Items::new(lines)),
    }
}

// Texts that XML doesn't take as they are: its marks, a carriage return, and characters that it
// hasn't. In JSON those below U+0020 are spelled.
#[test]
fn draws_texts(rt: HostRuntime) {
    let name = concat!(
        "a<b>&\"'\r\n\t\u{0}\u{8}\u{1f}\u{7f}\u{e9}",
        "\u{d7ff}\u{e000}\u{fffd}\u{fffe}\u{ffff}\u{10000}]]>"
    );
    let expected = concat!(
        r##"<svg color="#0072b2" viewBox="0 0 4096 4096"><title>"##,
        "a&lt;b&gt;&amp;\"'&#13;\n\t\u{fffd}\u{fffd}\u{fffd}\u{7f}\u{e9}",
        "\u{d7ff}\u{e000}\u{fffd}\u{fffd}\u{fffd}\u{10000}]]&gt;",
        "</title>\n",
        r#"<path class="lines" d="M-9 2147483647L-2147483647 0L5 5M1 2L3 4">"#,
        r#"<title>{"attributes":[["&lt;/title&gt;",{"string":"#,
        "\"a&lt;b&gt;&amp;\\\"'\\r\\n\\t\\u0000\\b\\u001f\u{7f}\u{e9}",
        "\u{d7ff}\u{e000}\u{fffd}\u{fffd}\u{fffd}\u{10000}]]&gt;\"",
        r#"}]],"id":18446744073709551615}</title></path>"#,
        "\n</svg>\n</svg>"
    );
    let tile = one_feature(&rt, name, two_lines(&rt, name));
    expect_svg(&rt, tile, expected);
}

fn is_svg_refused(rt: &(impl Abort + AllocGlobal), tile: &Tile) -> bool {
    match svg_text(rt.alloc(), tile) {
        Ok(text) => {
            expect_eq!(rt; text.as_str().strip_prefix(HEAD), Some(POINT));
            drop(text);
            false
        }
        Err(ViewError::Memory) => true,
    }
}

#[test]
fn svg_refused_memory(rt: HostRuntime) {
    let Ok(tile) = one_point(rt.alloc()) else {
        return;
    };
    let mut wanted: u32 = 0;
    for _ in 0..2 {
        wanted = wanted.saturating_add(u32::from(is_svg_refused(&rt, &tile)));
    }
    drop(tile);
    expect!(rt; wanted <= 1);
}
