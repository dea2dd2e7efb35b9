//! Growths refused in mending: an error, and nothing else.
use crate::expect::{expect, expect_eq};
use mvt_geometry::Kind;
use mvt_mend::mend_geometry;
use std::process::Abort;

// A line of a point twice and another, and a square told in the other direction with a hole in it.
const LINE: [u32; 8] = [9, 2, 2, 18, 0, 0, 2, 2];

const MENDED_LINE: [u32; 6] = [9, 2, 2, 10, 2, 2];

const SQUARE: [u32; 20] = [
    9, 0, 0, 26, 0, 20, 20, 0, 0, 19, 15, 9, 15, 4, 18, 12, 0, 0, 12, 15,
];

const MENDED_SQUARE: [u32; 20] = [
    9, 0, 0, 26, 20, 0, 0, 20, 19, 0, 15, 9, 4, 15, 18, 12, 12, 0, 11, 15,
];

// How often a growth was refused: never or once.
fn refusals(rt: &(impl Abort + AllocGlobal), kind: Kind, integers: &[u32], expected: &[u32]) -> u8 {
    let Ok(mended) = mend_geometry(rt.alloc(), kind, integers) else {
        return 1;
    };
    expect_eq!(rt; mended.as_ref().map(|v| v.as_slice()), Some(expected));
    drop(mended);
    0
}

#[test]
fn refused_growths(rt: HostRuntime) {
    let mut refused = 0u8;
    for _turn in 0..2 {
        let line = refusals(&rt, Kind::LineString, &LINE, &MENDED_LINE);
        let square = refusals(&rt, Kind::Polygon, &SQUARE, &MENDED_SQUARE);
        refused = refused.saturating_add(line).saturating_add(square);
    }
    expect!(rt; refused < 2);
}
