//! A layer of 64 MiB, whose test takes most of a minute while nothing is proved, so `tests/quick`
//! leaves it out.
use crate::expect::{expect, expect_eq};
use mvt_base::{Items, Text};
use mvt_message::{Item, Layer, is_valid_item, item_len, put_item};
use std::process::Abort;

fn append(rt: &impl Abort, name: &mut String, piece: &str, count: u32) {
    for _piece in 0..count {
        name.push_str(piece).expect(rt, "a name");
    }
}

fn name_of_the_most_bytes(rt: &(impl Abort + AllocGlobal)) -> String {
    let mut piece = String::new(rt.alloc());
    append(rt, &mut piece, "a", 4096);
    let mut name = String::with_capacity(rt.alloc(), 67_108_852).expect(rt, "a name");
    append(rt, &mut name, piece.as_str(), 16_383);
    append(rt, &mut name, "a", 4084);
    drop(piece);
    name
}

// A name of 67,108,852 bytes leaves just room for the layer without its tag and length.
#[test]
fn writes_a_large_layer(rt: HostRuntime) {
    let item = Item::Layer(Layer {
        name: Text::from_string(name_of_the_most_bytes(&rt)).expect(&rt, "a name"),
        extent: 4096,
        features: Items::new(Vec::new(rt.alloc())),
    });
    expect!(rt; is_valid_item(&item));
    expect_eq!(rt; item_len(rt.alloc(), &item), Ok(67_108_862));
    let bytes = put_item(rt.alloc(), &item).expect(&rt, "bytes");
    drop(item);
    expect_eq!(rt; bytes.len(), 67_108_862);
    expect_eq!(rt; bytes.first(), Some(&0x78));
    expect_eq!(rt; bytes.last(), Some(&0x20));
    drop(bytes);
}
