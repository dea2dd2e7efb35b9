//! Tiles by a seed: layers whose fields stand in the orders that programs write, with bytes
//! changed.
ghost use Rattle.std.specs.Prelude.{◌<◌};

use std::alloc::{AllocError, Global};

// SplitMix64, by Steele, Lea and Flood, "Fast splittable pseudorandom number generators".
#[derive(Drop)]
pub(crate) struct Random {
    state: u64,
}

impl Random {
    pub(crate) fn new(seed: u64) -> Self {
        Random { state: seed }
    }

    fn next(&mut self) -> u64 {
        self.state = self.state.wrapping_add(0x9e37_79b9_7f4a_7c15);
        let first = (self.state ^ (self.state >> 30)).wrapping_mul(0xbf58_476d_1ce4_e5b9);
        let second = (first ^ (first >> 27)).wrapping_mul(0x94d0_49bb_1331_11eb);
        second ^ (second >> 31)
    }

    // A number of this many.
    pub(crate) fn below(&mut self, count: u8) -> u8
        ensures { result < 255 }
    {
        (self.next() % u64::from(count.max(1))) as u8
    }
}

// The numbers of a layer's fields and of a feature's, in the order in which they stand.
pub(crate) struct Order {
    layer: [u8; 6],
    feature: [u8; 4],
}

pub(crate) const CANONICAL: Order = Order {
    layer: [15, 1, 2, 3, 4, 5],
    feature: [1, 2, 3, 4],
};

// GDAL, PostGIS, tilemaker and MapServer.
pub(crate) const VERSION_LAST: Order = Order {
    layer: [1, 2, 3, 4, 5, 15],
    feature: [1, 2, 3, 4],
};

// vt-pbf and planetiler.
pub(crate) const EXTENT_IN_FRONT: Order = Order {
    layer: [15, 1, 5, 2, 3, 4],
    feature: [1, 2, 3, 4],
};

// No program that is known.
pub(crate) const EXTENT_FIRST: Order = Order {
    layer: [5, 1, 2, 3, 4, 15],
    feature: [1, 2, 3, 4],
};

// Tippecanoe.
pub(crate) const FEATURES_LAST: Order = Order {
    layer: [15, 1, 5, 3, 4, 2],
    feature: [3, 2, 1, 4],
};

// vtzero.
pub(crate) const TAGS_LAST: Order = Order {
    layer: [15, 1, 5, 2, 3, 4],
    feature: [1, 3, 4, 2],
};

// Appends a field of bytes, fewer than 16,384.
fn put_bytes(out: &mut Vec<u8>, tag: u8, bytes: &[u8]) -> Result<(), AllocError> {
    let len = bytes.len();
    out.push(tag)?;
    if len >= 128 {
        out.push((len % 128) as u8 | 128)?;
        out.push((len / 128 % 128) as u8)?;
    } else {
        out.push(len as u8)?;
    }
    out.extend_from_slice(bytes)
}

// How many keys and values a layer's features use.
#[derive(Clone, Copy)]
struct Used {
    keys: u8,
    values: u8,
}

// One of the entries that are used, or the next of at most so many.
fn entry(random: &mut Random, used: &mut u8, most: u8) -> u8 {
    let index = random.below(used.saturating_add(1)).min(most);
    if index == *used {
        *used = used.saturating_add(1);
    }
    index
}

// Tags of up to two attributes, in order of first use. Behind one feature in twelve stands a value
// that may be unused.
fn make_tags(alloc: Global, random: &mut Random, used: &mut Used) -> Result<Vec<u8>, AllocError> {
    let mut tags = Vec::new(alloc);
    for _ in 0..random.below(3) {
        let key = entry(random, &mut used.keys, 3);
        if tags.first() != Some(&key) {
            tags.push(key)?;
            tags.push(entry(random, &mut used.values, 9))?;
        }
    }
    if random.below(12) == 0 {
        used.values = used.values.saturating_add(1);
    }
    Ok(tags)
}

// The integers of a point, a line or a ring.
fn integers(kind: u8) -> &'static [u8] {
    match kind {
        1 => &[9, 50, 34],
        2 => &[9, 4, 4, 18, 0, 16, 16, 0],
        _ => &[9, 0, 0, 26, 8, 0, 0, 8, 7, 0, 15],
    }
}

fn make_feature(
    alloc: Global,
    random: &mut Random,
    order: &Order,
    used: &mut Used,
) -> Result<Vec<u8>, AllocError> {
    let tags = make_tags(alloc, random, used)?;
    let kind = 1 + random.below(3);
    let has_id = random.below(2) == 0;
    let mut feature = Vec::new(alloc);
    for number in &order.feature {
        match *number {
            1 if has_id => feature.extend_from_slice(&[8, random.below(128)])?,
            2 if !tags.is_empty() => put_bytes(&mut feature, 0x12, &tags)?,
            3 => feature.extend_from_slice(&[0x18, kind])?,
            4 => put_bytes(&mut feature, 0x22, integers(kind))?,
            _ => {}
        }
    }
    Ok(feature)
}

fn make_features(
    alloc: Global,
    random: &mut Random,
    order: &Order,
    used: &mut Used,
) -> Result<Vec<u8>, AllocError> {
    let mut features = Vec::new(alloc);
    for _ in 0..random.below(5) {
        let feature = make_feature(alloc, random, order, used)?;
        put_bytes(&mut features, 0x12, &feature)?;
    }
    Ok(features)
}

// The keys or the values, one in eight times one more than are used.
fn put_entries(
    out: &mut Vec<u8>,
    random: &mut Random,
    used: u8,
    tag: u8,
    front: &[u8],
) -> Result<(), AllocError> {
    let more = if random.below(8) == 0 { 1 } else { 0 };
    for index in 0..used.saturating_add(more) {
        let len = front.len() as u64 % 100 + 1;
        out.extend_from_slice(&[tag, len as u8])?;
        out.extend_from_slice(front)?;
        out.push(97 + index % 26)?;
    }
    Ok(())
}

fn make_layer(
    alloc: Global,
    random: &mut Random,
    order: &Order,
    name: u8,
) -> Result<Vec<u8>, AllocError> {
    let mut used = Used { keys: 0, values: 0 };
    let features = make_features(alloc, random, order, &mut used)?;
    let mut layer = Vec::new(alloc);
    for number in &order.layer {
        match *number {
            1 => layer.extend_from_slice(&[0x0A, 1, name])?,
            2 => layer.extend_from_slice(&features)?,
            3 => put_entries(&mut layer, random, used.keys, 0x1A, &[])?,
            4 => put_entries(&mut layer, random, used.values, 0x22, &[0x20])?,
            5 => layer.extend_from_slice(&[0x28, 0x80, 0x20])?,
            _ => layer.extend_from_slice(&[0x78, 2])?,
        }
    }
    Ok(layer)
}

// A tile of up to three layers.
pub(crate) fn make_tile(
    alloc: Global,
    random: &mut Random,
    order: &Order,
) -> Result<Vec<u8>, AllocError> {
    let mut tile = Vec::new(alloc);
    for index in 0..1 + random.below(3) {
        let layer = make_layer(alloc, random, order, b'a' + index % 26)?;
        put_bytes(&mut tile, 0x1A, &layer)?;
    }
    Ok(tile)
}

// The bytes with one of them changed in one of five ways: a bit of it, all of it, to a number of a
// byte more, left out, or with another byte before it.
pub(crate) fn changed(
    alloc: Global,
    random: &mut Random,
    bytes: &[u8],
) -> Result<Vec<u8>, AllocError> {
    let at = (random.next() % (bytes.len() as u64 % (1 << 32)).max(1)) as usize;
    let way = random.below(5);
    let other = random.below(255);
    let mut found = Vec::new(alloc);
    for (index, byte) in bytes.iter().enumerate() {
        if index != at {
            found.push(*byte)?;
            continue;
        }
        match way {
            0 => found.push(*byte ^ (1 << (other % 8)))?,
            1 => found.push(other)?,
            2 => found.extend_from_slice(&[*byte | 128, 0])?,
            3 => {}
            _ => found.extend_from_slice(&[other, *byte])?,
        }
    }
    Ok(found)
}
