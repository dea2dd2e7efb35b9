//! Geometries mended, by their integers.
use crate::support::{Line, expect_kept, expect_mended, expect_parts_kept};
use mvt_geometry::Kind;

// Repeated points go, and lines that are left with one.
#[test]
fn mends_lines(rt: HostRuntime) {
    let rows: [(&[Line], &[Line]); 6] = [
        (&[&[(0, 0), (0, 0), (4, 4)]], &[&[(0, 0), (4, 4)]]),
        (
            &[&[(1, 2), (3, 4), (3, 4), (3, 4), (1, 2), (1, 2)]],
            &[&[(1, 2), (3, 4), (1, 2)]],
        ),
        (
            &[&[(1, 1), (1, 1)], &[(2, 2), (3, 3)]],
            &[&[(2, 2), (3, 3)]],
        ),
        (
            &[&[(2, 2), (3, 3)], &[(7, 7), (7, 7)], &[(5, 5), (6, 6)]],
            &[&[(2, 2), (3, 3)], &[(5, 5), (6, 6)]],
        ),
        (&[&[(1, 1), (1, 1), (1, 1)]], &[]),
        (&[&[(4, 4), (4, 4)], &[(5, 5), (5, 5)]], &[]),
    ];
    for (parts, expected) in rows {
        expect_mended(&rt, Kind::LineString, parts, expected);
    }
}

const SQUARE: Line<'static> = &[(0, 0), (10, 0), (10, 10), (0, 10)];

const TURNED_SQUARE: Line<'static> = &[(0, 0), (0, 10), (10, 10), (10, 0)];

const HOLE: Line<'static> = &[(2, 2), (2, 8), (8, 8), (8, 2)];

const TURNED_HOLE: Line<'static> = &[(2, 2), (8, 2), (8, 8), (2, 8)];

const ISLAND: Line<'static> = &[(20, 0), (25, 0), (25, 5), (20, 5)];

const TURNED_ISLAND: Line<'static> = &[(20, 0), (20, 5), (25, 5), (25, 0)];

// Repeated points in rings, and rings that are left with two: none goes with another.
#[test]
fn mends_short_rings(rt: HostRuntime) {
    let pond: Line = &[(3, 3), (3, 5), (5, 5), (5, 3)];
    let rows: [(&[Line], &[Line]); 5] = [
        (
            &[&[(0, 0), (10, 0), (10, 0), (10, 10), (0, 10), (0, 10)]],
            &[SQUARE],
        ),
        (&[SQUARE, &[(3, 3), (4, 4), (4, 4)], HOLE], &[SQUARE, HOLE]),
        (
            &[
                &[(0, 0), (0, 0), (1, 1)],
                HOLE,
                &[(1, 1), (2, 2), (3, 3)],
                ISLAND,
                pond,
            ],
            &[TURNED_HOLE, &[(1, 1), (2, 2), (3, 3)], pond, ISLAND],
        ),
        (&[&[(0, 0), (0, 0), (1, 1)], HOLE], &[TURNED_HOLE]),
        (&[&[(5, 5), (5, 5), (5, 5)]], &[]),
    ];
    for (parts, expected) in rows {
        expect_mended(&rt, Kind::Polygon, parts, expected);
    }
}

// Where the first ring has negative area, all are told by what holds them.
#[test]
fn mends_turned_rings(rt: HostRuntime) {
    let rows: [(&[Line], &[Line]); 7] = [
        (&[TURNED_SQUARE], &[SQUARE]),
        (&[TURNED_SQUARE, TURNED_HOLE], &[SQUARE, HOLE]),
        (&[TURNED_SQUARE, HOLE], &[SQUARE, HOLE]),
        (&[TURNED_SQUARE, TURNED_ISLAND], &[SQUARE, ISLAND]),
        (
            &[TURNED_SQUARE, TURNED_ISLAND, HOLE],
            &[SQUARE, HOLE, ISLAND],
        ),
        (
            &[TURNED_SQUARE, &[(1, 1), (2, 2), (3, 3)], TURNED_HOLE],
            &[SQUARE, &[(1, 1), (2, 2), (3, 3)], HOLE],
        ),
        (
            &[&[(0, 0), (0, 10), (0, 10), (10, 10), (10, 0), (0, 0), (0, 0)]],
            &[SQUARE],
        ),
    ];
    for (parts, expected) in rows {
        expect_mended(&rt, Kind::Polygon, parts, expected);
    }
}

// One ring holds another with all its points and middles, on its edge too, but for a unit.
#[test]
fn tells_what_lies_inside(rt: HostRuntime) {
    let notched: Line = &[(0, 0), (0, 10), (10, 10), (10, 0), (5, 5)];
    let turned: Line = &[(0, 0), (5, 5), (10, 0), (10, 10), (0, 10)];
    let rows: [(&[Line], &[Line]); 4] = [
        (
            &[TURNED_SQUARE, &[(0, 0), (5, 0), (5, 5)]],
            &[SQUARE, &[(0, 0), (5, 5), (5, 0)]],
        ),
        (
            &[TURNED_SQUARE, &[(9, 9), (12, 9), (9, 12)]],
            &[SQUARE, &[(9, 9), (12, 9), (9, 12)]],
        ),
        (
            &[notched, &[(1, 8), (9, 8), (5, 5)]],
            &[turned, &[(1, 8), (9, 8), (5, 5)]],
        ),
        (
            &[notched, &[(2, 6), (8, 6), (8, 9), (2, 9)]],
            &[turned, &[(2, 6), (2, 9), (8, 9), (8, 6)]],
        ),
    ];
    for (parts, expected) in rows {
        expect_mended(&rt, Kind::Polygon, parts, expected);
    }
    expect_parts_kept(&rt, Kind::Polygon, &[notched, &[(1, 8), (9, 8), (5, 2)]]);
}

const LAND: Line<'static> = &[(0, 0), (100, 0), (100, 100), (0, 100)];

const TURNED_LAND: Line<'static> = &[(0, 0), (0, 100), (100, 100), (100, 0)];

const LAKE: Line<'static> = &[(20, 20), (20, 80), (80, 80), (80, 20)];

const TURNED_LAKE: Line<'static> = &[(20, 20), (80, 20), (80, 80), (20, 80)];

const ISLE: Line<'static> = &[(40, 40), (60, 40), (60, 60), (40, 60)];

const TURNED_ISLE: Line<'static> = &[(40, 40), (40, 60), (60, 60), (60, 40)];

// An island in a lake stays one, whatever directions were written; so do lakes behind a point that
// stands three times.
#[test]
fn mends_islands(rt: HostRuntime) {
    let told: &[Line] = &[LAND, LAKE, ISLE];
    let rows: [&[Line]; 4] = [
        &[TURNED_LAND, TURNED_LAKE, TURNED_ISLE],
        &[TURNED_LAND, LAKE, ISLE],
        &[TURNED_LAND, LAKE, TURNED_ISLE],
        &[TURNED_LAND, TURNED_LAKE, ISLE],
    ];
    for parts in rows {
        expect_mended(&rt, Kind::Polygon, parts, told);
    }
    expect_mended(
        &rt,
        Kind::Polygon,
        &[&[(5, 5), (5, 5), (5, 5)], TURNED_SQUARE, TURNED_ISLAND],
        &[SQUARE, ISLAND],
    );
}

// What rounding moved by a unit is told as if it hadn't: a lake over the shore, one whose points
// all lie on the tile's edge, a sliver, an atoll thinner than a unit, which comes first then.
#[test]
fn forgives_a_unit(rt: HostRuntime) {
    let over: Line = &[(50, -1), (55, -1), (55, 49), (50, 49)];
    let corner: Line = &[(100, 100), (100, 70), (80, 100)];
    let sliver: Line = &[(30, 0), (33, -1), (36, 0)];
    let outer: Line = &[(0, 0), (100, 0), (101, 50), (100, 100), (0, 100)];
    let rows: [(&[Line], &[Line]); 5] = [
        (
            &[TURNED_LAND, over, &[(10, 10), (20, 10), (20, 20), (10, 20)]],
            &[
                LAND,
                &[(50, -1), (50, 49), (55, 49), (55, -1)],
                &[(10, 10), (10, 20), (20, 20), (20, 10)],
            ],
        ),
        (&[TURNED_LAND, corner, LAKE], &[LAND, corner, LAKE]),
        (&[TURNED_LAND, sliver, TURNED_LAKE], &[LAND, LAKE, sliver]),
        (&[TURNED_LAND, outer], &[outer, TURNED_LAND]),
        (
            &[TURNED_LAND, &[(100, 0), (100, 90), (190, 90), (190, 0)]],
            &[LAND, &[(100, 0), (190, 0), (190, 90), (100, 90)]],
        ),
    ];
    for (parts, expected) in rows {
        expect_mended(&rt, Kind::Polygon, parts, expected);
    }
}

// Rings that cross by more than a unit stay: lands that overlap by half, a cross, one ring twice.
#[test]
fn keeps_crossing_rings(rt: HostRuntime) {
    let half: Line = &[(50, 0), (50, 90), (140, 90), (140, 0)];
    expect_parts_kept(&rt, Kind::Polygon, &[TURNED_LAND, half]);
    let across: Line = &[(0, 40), (0, 60), (100, 60), (100, 40)];
    let down: Line = &[(40, 0), (40, 90), (60, 90), (60, 0)];
    expect_parts_kept(&rt, Kind::Polygon, &[across, down]);
    expect_parts_kept(&rt, Kind::Polygon, &[TURNED_LAND, TURNED_LAND]);
}

// What draws a geometry stays, and so does what breaks another rule too or can't be drawn then.
#[test]
fn keeps_others(rt: HostRuntime) {
    expect_parts_kept(&rt, Kind::Polygon, &[SQUARE, HOLE, TURNED_ISLAND]);
    expect_parts_kept(&rt, Kind::LineString, &[SQUARE, HOLE]);
    let far = 2_147_483_647;
    let lines: [Line; 3] = [
        &[(-far, 0), (1 - far, 0)],
        &[(0, 0), (0, 0)],
        &[(far, 0), (0, 0)],
    ];
    expect_parts_kept(&rt, Kind::LineString, &lines);
    let rows: [(Kind, &[u32]); 14] = [
        (Kind::Unknown, &[9, 0, 0, 10, 0, 0]),
        (Kind::Point, &[9, 0, 0, 10, 0, 0]),
        (Kind::LineString, &[]),
        (Kind::Polygon, &[]),
        (Kind::LineString, &[9, 4, 4, 10, 0, 0, 9, 0, 0]),
        (Kind::LineString, &[9, 4, 4, 10, 0, 0, 15]),
        (Kind::LineString, &[9, 4, 4, 18, 0, 0]),
        (Kind::LineString, &[17, 4, 4, 10, 0, 0]),
        (Kind::LineString, &[9, 4, 4, 9, 0, 0]),
        (Kind::LineString, &[9, 4, 4, 2, 0, 0]),
        (Kind::LineString, &[9, 4, 4, 18, 0, 0, 4_294_967_295, 0]),
        (Kind::LineString, &[9, 4_294_967_294, 0, 18, 0, 0, 2, 0]),
        (Kind::Polygon, &[9, 0, 0, 10, 0, 0, 15]),
        (Kind::Polygon, &[9, 0, 0, 18, 0, 0, 2, 2]),
    ];
    for (kind, integers) in rows {
        expect_kept(&rt, kind, integers);
    }
}
