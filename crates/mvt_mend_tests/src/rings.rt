//! Lines and rings mended as points, and the bound of nesting.
use crate::expect::{expect, expect_eq};
use crate::support::{Line, lines};
use mvt_base::Items;
use mvt_mend::{Ended, Kept, MendedRings, mend_lines, mend_rings};
use std::process::Abort;

const OUTER: Line<'static> = &[(0, 0), (0, 10), (10, 10), (10, 0)];

const INNER: Line<'static> = &[(2, 2), (8, 2), (8, 8)];

fn expect_kept(rt: &(impl Abort + AllocGlobal), found: Items<Kept>, expected: &[Line]) {
    let wanted = lines(rt, expected);
    expect_eq!(rt; found.as_slice().len(), expected.len());
    for (kept, points) in found.as_slice().iter().zip(wanted.as_slice()) {
        expect!(rt; kept.points == *points);
    }
    drop(wanted);
    drop(found);
}

#[test]
fn mends_points_of_lines(rt: HostRuntime) {
    let parts = lines(&rt, &[&[(1, 1), (1, 1)], &[(2, 2), (2, 2), (3, 3)], &[]]);
    let mended = mend_lines(rt.alloc(), parts.as_slice()).expect(&rt, "lines");
    expect_kept(&rt, mended, &[&[(2, 2), (3, 3)]]);
    drop(parts);
}

// Two rings, four edges of the outer, and 18 for each of three points and the two edges that are
// level with them: 116 steps.
#[test]
fn mends_points_of_rings(rt: HostRuntime) {
    let parts = lines(&rt, &[OUTER, INNER]);
    let mended = mend_rings(rt.alloc(), parts.as_slice(), 116).expect(&rt, "rings");
    expect_eq!(rt; mended.left, 0);
    let MendedRings { rings, left: _ } = mended;
    let rings = rings.expect(&rt, "no crossing");
    expect_kept(
        &rt,
        rings,
        &[
            &[(0, 0), (10, 0), (10, 10), (0, 10)],
            &[(2, 2), (8, 8), (8, 2)],
        ],
    );
    let Err(ended) = mend_rings(rt.alloc(), parts.as_slice(), 115) else {
        panic!(rt; "fewer steps");
    };
    expect_eq!(rt; ended, Ended::Steps);
    drop(parts);
}
