//! Layers whose values are added at once, beside the same whose values are added one by one.
use crate::expect::expect_eq;
use mvt_attrs::Value;
use mvt_base::Text;
use mvt_feature::Scratch;
use mvt_geometry::Kind;
use mvt_message::*;
use mvt_wire::PackedNumbers;
use std::alloc::{AllocError, Global};

// How the values of a layer are added.
#[derive(Clone, Copy, Drop)]
enum Way {
    OneByOne,
    All,
}

// So many values, of which so many are different.
fn values(alloc: Global, size: u8, different: u8) -> Result<Vec<Value>, AllocError> {
    let mut values = Vec::new(alloc);
    for index in 0..size {
        let number = index % different.max(1);
        if number % 2 == 0 {
            values.push(Value::Uint(u64::from(number)))?;
        } else {
            let text = format!(in alloc; "a value of some length {number}")?;
            values.push(Value::Text(Text::from_string(text)?))?;
        }
    }
    Ok(values)
}

fn add<'a>(
    alloc: Global,
    writer: &mut LayerWriter<'a>,
    values: &'a [Value],
    way: Way,
) -> Result<(), AllocError> {
    let mut all = Vec::new(alloc);
    for value in values {
        match way {
            Way::OneByOne => writer.take_values(vec![in alloc; value.lent()]?)?,
            Way::All => all.push(value.lent())?,
        }
    }
    writer.take_values(all)
}

// The integers of the point (25,17).
fn drawing(alloc: Global) -> Result<PackedNumbers, AllocError> {
    let mut integers = PackedNumbers::new(alloc);
    for integer in [9, 50, 34] {
        integers.push(integer)?;
    }
    Ok(integers)
}

// The payload of a layer with one key and so many values, whose features use these.
fn payload(
    alloc: Global,
    size: u8,
    different: u8,
    used: &[u32],
    way: Way,
) -> Result<Option<Vec<u8>>, AllocError> {
    let integers = drawing(alloc)?;
    let values = values(alloc, size, different)?;
    let mut writer = LayerWriter::new(alloc);
    add(alloc, &mut writer, &values, way)?;
    writer.add_keys(&["key"])?;
    let mut scratch = Scratch::new(alloc);
    for value in used {
        let tags = [0, *value];
        writer.add_drawn_feature(None, &tags, Kind::Point, &integers, &mut scratch)?;
    }
    writer.payload(alloc, "layer", 4096)
}

// The length of the payload of so many values, where all ways make the same one.
fn length_in_all_ways(alloc: Global, size: u8, different: u8, used: &[u32]) -> Option<usize> {
    let one = payload(alloc, size, different, used, Way::OneByOne).ok()??;
    let all = payload(alloc, size, different, used, Way::All).ok()??;
    if one == all { Some(one.len()) } else { None }
}

// How many values there are, how many of them are different, and how long the payload is: version
// and name take 9 bytes, each of the five features 13, key and extent 8, and each value that is
// used 4, or 4 more than its text.
const CASES: [(u8, u8, usize); 6] = [
    (7, 7, 118),
    (8, 7, 118),
    (9, 9, 122),
    (9, 8, 118),
    (40, 3, 114),
    (100, 100, 147),
];

#[test]
fn layers_are_the_same_in_all_ways(rt: HostRuntime) {
    for (size, different, length) in CASES {
        let used = [6, 0, 1, u32::from(size).saturating_sub(1), 6];
        let found = length_in_all_ways(rt.alloc(), size, different, &used);
        expect_eq!(rt; found, Some(length), "of {size}, {different} different");
    }
}
