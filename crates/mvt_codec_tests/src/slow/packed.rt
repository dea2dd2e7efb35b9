//! Geometries told from packed bytes of which each is made another, beside the same told from a
//! list of their integers.
use crate::codec::packed::expect_same;
use mvt_geometry::Kind;
use mvt_wire::PackedNumbers;
use std::process::Abort;

const KINDS: [Kind; 3] = [Kind::Point, Kind::LineString, Kind::Polygon];

/// Two points, a line of long steps that comes to the range's very end, two lines, a polygon with a
/// hole and one without an area.
const DRAWINGS: [&[u32]; 5] = [
    &[17, 10, 14, 3, 9],
    &[9, 200, 70_000, 18, 3_000_000, 4_294_897_294, 1, 0],
    &[9, 4, 4, 18, 0, 16, 16, 0, 9, 17, 17, 10, 4, 8],
    &[
        9, 0, 0, 26, 20, 0, 0, 20, 19, 0, 15, 9, 4, 15, 26, 0, 4, 4, 0, 0, 3, 15,
    ],
    &[9, 130, 2, 18, 2, 2, 2, 2, 15],
];

/// The same for each front of the bytes, and of the bytes with each byte made another.
fn expect_same_around(rt: &(impl Abort + AllocGlobal), kind: Kind, bytes: &[u8]) {
    for len in 0..bytes.len() {
        expect_same(rt, kind, &bytes[..len]);
    }
    let mut changed = Vec::from_slice(rt.alloc(), bytes).expect(rt, "bytes");
    for (index, byte) in bytes.iter().enumerate() {
        for other in 0..=u8::MAX {
            if let Some(place) = changed.get_mut(index) {
                *place = other;
            }
            expect_same(rt, kind, &changed);
        }
        if let Some(place) = changed.get_mut(index) {
            *place = *byte;
        }
    }
    drop(changed);
}

#[test]
fn packed_bytes_are_told_as_their_integers(rt: HostRuntime) {
    for drawing in DRAWINGS {
        let mut numbers = PackedNumbers::new(rt.alloc());
        for integer in drawing {
            numbers.push(*integer).expect(&rt, "a number");
        }
        for kind in KINDS {
            expect_same(&rt, kind, numbers.as_bytes());
            expect_same_around(&rt, kind, numbers.as_bytes());
        }
        drop(numbers);
    }
}
