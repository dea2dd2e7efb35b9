//! Integers read and put back, their faults, areas and validity.
ghost use Rattle.mvt_geometry.specs.Valid.{IsValid};

use crate::expect::{expect, expect_eq};
use mvt_base::Items;
use mvt_geometry::*;
use mvt_wire::{PackedNumbers, read_packed};
use std::alloc::{AllocError, Global};
use std::process::Abort;

// The integers of a polygon with two interior rings, the second of them flat.
const HOLES: [u32; 29] = [
    9, 0, 0, 26, 20, 0, 0, 20, 19, 0, 15, 9, 4, 15, 18, 0, 12, 12, 0, 15, 9, 13, 13, 18, 2, 2, 2,
    2, 15,
];

const TWO_POLYGONS: [u32; 18] = [9, 0, 0, 18, 4, 0, 3, 4, 15, 9, 10, 6, 18, 4, 0, 3, 4, 15];

fn line(alloc: Global, points: &[(i32, i32)]) -> Result<Items<Point>, AllocError> {
    let mut line = Vec::new(alloc);
    for (x, y) in points {
        line.push(Point { x: *x, y: *y })?;
    }
    Ok(Items::new(line))
}

fn drawn_points(rt: &(impl Abort + AllocGlobal), points: &[(i32, i32)]) -> Geometry {
    Geometry::Points(line(rt.alloc(), points).expect(rt, "points"))
}

fn lines(rt: &(impl Abort + AllocGlobal), all: &[&[(i32, i32)]]) -> Items<Items<Point>> {
    let mut lines = Vec::new(rt.alloc());
    for points in all {
        let line = line(rt.alloc(), *points).expect(rt, "a line");
        lines.push(line).expect(rt, "a line");
    }
    Items::new(lines)
}

fn polygon(
    rt: &(impl Abort + AllocGlobal),
    outer: &[(i32, i32)],
    rest: &[&[(i32, i32)]],
) -> Polygon {
    let rest = lines(rt, rest);
    let outer = line(rt.alloc(), outer).expect(rt, "a ring");
    Polygon { outer, rest }
}

fn one_polygon(rt: &(impl Abort + AllocGlobal), polygon: Polygon) -> Geometry {
    let mut polygons = Vec::new(rt.alloc());
    polygons.push(polygon).expect(rt, "a polygon");
    Geometry::Polygons(Items::new(polygons))
}

fn unknown(rt: &(impl Abort + AllocGlobal), integers: &[u32]) -> Geometry {
    let integers = Vec::from_slice(rt.alloc(), integers).expect(rt, "integers");
    Geometry::Unknown(Items::new(integers))
}

fn expect_put(rt: &(impl Abort + AllocGlobal), read: &Geometry, integers: &[u32])
    requires { IsValid read.now }
{
    let put = put_geometry(rt.alloc(), read).expect(rt, "integers");
    expect_eq!(rt; put.as_slice(), integers);
    drop(put);
}

fn expect_appended(rt: &(impl Abort + AllocGlobal), read: &Geometry, integers: &[u32])
    requires { IsValid read.now }
{
    let mut appended = Vec::from_slice(rt.alloc(), &[7]).expect(rt, "a list");
    append_geometry(read, &mut appended).expect(rt, "integers");
    expect_eq!(rt; appended.split_first(), Some((&7, integers)));
    drop(appended);
}

fn expect_packed(rt: &(impl Abort + AllocGlobal), read: &Geometry, integers: &[u32])
    requires { IsValid read.now }
{
    let mut packed = PackedNumbers::new(rt.alloc());
    append_geometry(read, &mut packed).expect(rt, "integers");
    let unpacked = read_packed(rt.alloc(), packed.as_bytes()).expect(rt, "integers");
    expect_eq!(rt; unpacked.as_slice(), integers);
    drop(unpacked);
    drop(packed);
}

fn expect_copy(rt: &(impl Abort + AllocGlobal), read: &Geometry) {
    let copy = read.copy(rt.alloc()).expect(rt, "a copy");
    expect!(rt; copy == *read);
    drop(copy);
}

// The integers are read as the geometry, which is valid, is copied, and gives them back.
fn expect_round_trip(
    rt: &(impl Abort + AllocGlobal),
    kind: Kind,
    integers: &[u32],
    expected: Geometry,
) {
    let read = read_geometry(rt.alloc(), kind, integers).expect(rt, "a geometry");
    expect!(rt; read == expected);
    expect!(rt; kind_of(&read) == kind);
    expect!(rt; is_valid_geometry(&expected));
    drop(expected);
    expect_put(rt, &read, integers);
    expect_appended(rt, &read, integers);
    expect_packed(rt, &read, integers);
    expect_copy(rt, &read);
    drop(read);
}

#[test]
fn reads_points(rt: HostRuntime) {
    let rows: [(&[u32], &[(i32, i32)]); 6] = [
        (&[9, 50, 34], &[(25, 17)]),
        (&[17, 10, 14, 3, 9], &[(5, 7), (3, 2)]),
        (
            &[9, 2_147_483_646, 2_147_483_647],
            &[(1_073_741_823, -1_073_741_824)],
        ),
        (&[9, 2_147_483_648, 0], &[(1_073_741_824, 0)]),
        (&[9, 0, 2_147_483_648], &[(0, 1_073_741_824)]),
        (
            &[17, 4_294_967_294, 0, 4_294_967_293, 0],
            &[(2_147_483_647, 0), (0, 0)],
        ),
    ];
    for (integers, points) in rows {
        expect_round_trip(&rt, Kind::Point, integers, drawn_points(&rt, points));
    }
    let integers = [7, 7, 4_294_967_295];
    for kept in [integers.as_slice(), &[]] {
        expect_round_trip(&rt, Kind::Unknown, kept, unknown(&rt, kept));
    }
}

#[test]
fn reads_lines(rt: HostRuntime) {
    let rows: [(&[u32], &[&[(i32, i32)]]); 3] = [
        (
            &[9, 4, 4, 18, 0, 16, 16, 0],
            &[&[(2, 2), (2, 10), (10, 10)]],
        ),
        (
            &[9, 4, 4, 18, 0, 16, 16, 0, 9, 17, 17, 10, 4, 8],
            &[&[(2, 2), (2, 10), (10, 10)], &[(1, 1), (3, 5)]],
        ),
        (
            &[9, 0, 0, 10, 2, 0, 9, 0, 0, 10, 1, 0],
            &[&[(0, 0), (1, 0)], &[(1, 0), (0, 0)]],
        ),
    ];
    for (integers, all) in rows {
        let expected = Geometry::Lines(lines(&rt, all));
        expect_round_trip(&rt, Kind::LineString, integers, expected);
    }
}

#[test]
fn reads_polygons(rt: HostRuntime) {
    let rows: [(&[u32], &[(i32, i32)], &[&[(i32, i32)]]); 4] = [
        (
            &[9, 6, 12, 18, 10, 12, 24, 44, 15],
            &[(3, 6), (8, 12), (20, 34)],
            &[],
        ),
        (
            &HOLES,
            &[(0, 0), (10, 0), (10, 10), (0, 10)],
            &[&[(2, 2), (2, 8), (8, 8)], &[(1, 1), (2, 2), (3, 3)]],
        ),
        (
            &[9, 0, 0, 26, 8, 0, 7, 8, 0, 7, 15],
            &[(0, 0), (4, 0), (0, 4), (0, 0)],
            &[],
        ),
        (
            &[9, 0, 0, 18, 2, 0, 1, 0, 15],
            &[(0, 0), (1, 0), (0, 0)],
            &[],
        ),
    ];
    for (integers, outer, rest) in rows {
        let expected = one_polygon(&rt, polygon(&rt, outer, rest));
        expect_round_trip(&rt, Kind::Polygon, integers, expected);
    }
}

#[test]
fn reads_two_polygons(rt: HostRuntime) {
    let mut polygons = Vec::new(rt.alloc());
    for outer in [&[(0, 0), (2, 0), (0, 2)], &[(5, 5), (7, 5), (5, 7)]] {
        polygons
            .push(polygon(&rt, outer, &[]))
            .expect(&rt, "a polygon");
    }
    let expected = Geometry::Polygons(Items::new(polygons));
    expect_round_trip(&rt, Kind::Polygon, &TWO_POLYGONS, expected);
}

// Lists with the place and the cause of their faults.
fn expect_faults(rt: &(impl Abort + AllocGlobal)) {
    use GeometryCause::*;
    use Kind::{LineString, Point, Polygon};
    let rows: [(Kind, &[u32], usize, GeometryCause); 29] = [
        (Point, &[], 0, EndsEarly),
        (Point, &[9, 2, 2, 9, 2, 2], 3, Command),
        (LineString, &[9, 4, 4], 3, EndsEarly),
        (LineString, &[17, 2, 2, 2, 2, 10, 2, 2], 0, Count),
        (LineString, &[9, 2, 2, 2], 3, Count),
        (Polygon, &[9, 0, 0, 10, 2, 0, 15], 3, Count),
        (Polygon, &[9, 6, 12, 18, 10, 12, 24, 44], 8, EndsEarly),
        (Polygon, &[9, 6, 12, 18, 10, 12, 24, 44, 7], 8, Count),
        (Polygon, &[9, 6, 12, 18, 10, 12, 24, 44, 9], 8, Command),
        (LineString, &[9, 0, 0, 10, 0, 0], 4, ZeroSegment),
        (LineString, &[9, 4, 4, 18, 0, 0, 16, 0], 4, ZeroSegment),
        (LineString, &[9, 0], 0, Parameters),
        (LineString, &[9, 0, 0, 4_294_967_290, 2, 0], 3, Parameters),
        (Polygon, &[9, 0, 0, 4_294_967_290, 2, 0], 3, Parameters),
        (Point, &[4_294_967_289, 0, 0], 0, Parameters),
        (Polygon, &[9, 40, 68, 18, 23, 43, 9, 11, 15], 8, FirstRing),
        (Point, &[9, 4_294_967_295, 0], 1, ParameterRange),
        (
            Point,
            &[17, 4_294_967_294, 0, 4_294_967_295, 0],
            3,
            ParameterRange,
        ),
        (Point, &[17, 4_294_967_294, 0, 2, 0], 3, CoordinateRange),
        (
            Point,
            &[17, 4_294_967_294, 0, 2, 4_294_967_295],
            4,
            ParameterRange,
        ),
        (
            LineString,
            &[9, 0, 0, 10, 4_294_967_295, 0],
            4,
            ParameterRange,
        ),
        (
            LineString,
            &[9, 0, 0, 10, 0, 4_294_967_295],
            5,
            ParameterRange,
        ),
        (LineString, &[10, 2, 2], 0, Command),
        (Point, &[1], 0, Count),
        (Point, &[9], 0, Parameters),
        (LineString, &[9, 4, 4, 10, 0, 0], 4, ZeroSegment),
        (Point, &[17, 0, 4_294_967_294, 0, 2], 4, CoordinateRange),
        (Polygon, &[9, 40, 68, 18, 23, 43, 9, 11, 9], 8, Command),
        (Polygon, &[9, 40, 68, 18, 23, 43, 9, 11], 8, EndsEarly),
    ];
    for (kind, integers, index, cause) in rows {
        let error = read_geometry(rt.alloc(), kind, integers).err();
        expect_eq!(rt; error, Some(GeometryError::Fault { index, cause }));
    }
}

#[test]
fn reports_faults(rt: HostRuntime) {
    expect_faults(&rt);
}

// The points that were told, how many each part had, of a ring whether it was exterior, twice its
// area and whether its last point was its first, and integers.
#[derive(Drop)]
pub(crate) struct Told {
    pub(crate) points: Vec<(i32, i32)>,
    pub(crate) ends: Vec<(usize, Option<(bool, i128, bool)>)>,
    integers: Vec<u32>,
}

impl Told {
    pub(crate) fn new(alloc: Global) -> Self {
        Told {
            points: Vec::new(alloc),
            ends: Vec::new(alloc),
            integers: Vec::new(alloc),
        }
    }
}

impl GeometryVisitor for Told {
    ghost use Rattle.std.specs.Prelude.{⊤};

    ghost has_parts = { λ start parts begun now. ⊤ };

    ghost has_integers = { λ start integers now. ⊤ };

    ghost begins = { λ start. tt };

    fn visit_point(&mut self, point: Point) -> Result<(), AllocError> {
        self.points.push((point.x, point.y))?;
        Ok(())
    }

    fn end_part(&mut self, points: usize, ring: Option<Ring>) -> Result<(), AllocError> {
        self.ends.push((
            points,
            ring.map(|r| (r.exterior, r.twice_area, r.is_closed)),
        ))?;
        Ok(())
    }

    fn visit_integers(&mut self, integers: &[u32]) -> Result<(), AllocError> {
        self.integers.extend_from_slice(integers)
    }
}

fn expect_told(
    rt: &(impl Abort + AllocGlobal),
    kind: Kind,
    integers: &[u32],
    points: &[(i32, i32)],
    ends: &[(usize, Option<(bool, i128, bool)>)],
) {
    let mut told = Told::new(rt.alloc());
    draw_geometry(&mut told, kind, integers).expect(rt, "a geometry");
    expect_parts(rt, &told, points, ends);
    expect!(rt; told.integers.is_empty() || told.integers.as_slice() == integers);
    expect!(rt; told.integers.is_empty() != (kind == Kind::Unknown));
    drop(told);
    expect_value_told(rt, kind, integers, points, ends);
}

fn expect_parts(
    rt: &(impl Abort + AllocGlobal),
    told: &Told,
    points: &[(i32, i32)],
    ends: &[(usize, Option<(bool, i128, bool)>)],
) {
    expect!(rt; told.points.as_slice() == points);
    expect!(rt; told.ends.as_slice() == ends);
}

/// The same of the geometry as a value.
fn expect_value_told(
    rt: &(impl Abort + AllocGlobal),
    kind: Kind,
    integers: &[u32],
    points: &[(i32, i32)],
    ends: &[(usize, Option<(bool, i128, bool)>)],
) {
    let value = read_geometry(rt.alloc(), kind, integers).expect(rt, "a geometry");
    let mut told = Told::new(rt.alloc());
    tell_geometry(&mut told, &value).expect(rt, "memory");
    expect_parts(rt, &told, points, ends);
    expect!(rt; told.integers.is_empty() || told.integers.as_slice() == integers);
    drop(told);
    drop(value);
}

// The second and the third are the examples of the specification (4.3.5.4 and 4.3.5.6).
#[test]
fn tells_parts(rt: HostRuntime) {
    let points = [(5, 7), (3, 2)];
    let ends = [(2, None)];
    expect_told(&rt, Kind::Point, &[17, 10, 14, 3, 9], &points, &ends);
    let lines = [9, 4, 4, 18, 0, 16, 16, 0, 9, 17, 17, 10, 4, 8];
    let points = [(2, 2), (2, 10), (10, 10), (1, 1), (3, 5)];
    let ends = [(3, None), (2, None)];
    expect_told(&rt, Kind::LineString, &lines, &points, &ends);
    let polygons = [
        9, 0, 0, 26, 20, 0, 0, 20, 19, 0, 15, 9, 22, 2, 26, 18, 0, 0, 18, 17, 0, 15, 9, 4, 13, 26,
        0, 8, 8, 0, 0, 7, 15,
    ];
    let first = [(0, 0), (10, 0), (10, 10), (0, 10)];
    let others = [
        (11, 11),
        (20, 11),
        (20, 20),
        (11, 20),
        (13, 13),
        (13, 17),
        (17, 17),
        (17, 13),
    ];
    let mut points = Vec::from_slice(rt.alloc(), &first).expect(&rt, "points");
    points.extend_from_slice(&others).expect(&rt, "points");
    let ends = [
        (4, Some((true, 200, false))),
        (4, Some((true, 162, false))),
        (4, Some((false, -32, false))),
    ];
    expect_told(&rt, Kind::Polygon, &polygons, &points, &ends);
    let points = [(0, 0), (4, 0), (0, 4), (0, 0)];
    let closed = [9, 0, 0, 26, 8, 0, 7, 8, 0, 7, 15];
    let ends = [(4, Some((true, 16, true)))];
    expect_told(&rt, Kind::Polygon, &closed, &points, &ends);
    expect_told(&rt, Kind::Unknown, &[7, 7], &[], &[]);
}

fn expect_area(rt: &(impl Abort + AllocGlobal), points: &[(i32, i32)], twice: i128) {
    let line = line(rt.alloc(), points).expect(rt, "a line");
    expect_eq!(rt; twice_area(line.as_slice()), twice);
    drop(line);
}

fn expect_invalid(rt: &impl Abort, geometry: Geometry) {
    expect!(rt; !is_valid_geometry(&geometry));
    drop(geometry);
}

#[test]
fn measures_and_judges(rt: HostRuntime) {
    let rows: [(&[(i32, i32)], i128); 10] = [
        (&[], 0),
        (&[(3, 6), (8, 12), (20, 34)], 38),
        (&[(0, 0), (10, 0), (10, 10), (0, 10)], 200),
        (&[(2, 2), (2, 8), (8, 8)], -36),
        (&[(1, 1), (2, 2), (3, 3)], 0),
        (&[(5, 5), (7, 5), (5, 7)], 4),
        (&[(0, 0), (2, 0), (0, 2)], 4),
        (&[(20, 34), (8, 12), (3, 6)], -38),
        (&[(0, 0), (4, 0), (0, 4), (0, 0)], 16),
        (&[(0, 0), (1, 0), (0, 0)], 0),
    ];
    for (points, twice) in rows {
        expect_area(&rt, points, twice);
    }
    let far: [&[(i32, i32)]; 3] = [&[(2_147_483_647, 0), (-1, 0)], &[(-2_147_483_648, 0)], &[]];
    for points in far {
        expect_invalid(&rt, drawn_points(&rt, points));
    }
    expect_invalid(&rt, Geometry::Lines(lines(&rt, &[&[(1, 1), (1, 1)]])));
}

// The tests of refused growths pass too where one allocation, whichever, is refused: each call has
// two turns, of which one at most may want memory.

const TWO_LINES: [u32; 14] = [9, 4, 4, 18, 0, 16, 16, 0, 9, 17, 17, 10, 4, 8];

// Two lines, one polygon and two, far points, rings and holes, and integers of no known type.
const DRAWN: [(Kind, &[u32]); 9] = [
    (Kind::LineString, &TWO_LINES),
    (Kind::Polygon, &[9, 6, 12, 18, 10, 12, 24, 44, 15]),
    (Kind::Polygon, &TWO_POLYGONS),
    (Kind::Point, &[9, 2_147_483_646, 2_147_483_647]),
    (Kind::Point, &[9, 2_147_483_648, 0]),
    (Kind::Point, &[9, 0, 2_147_483_648]),
    (Kind::Point, &[17, 4_294_967_294, 0, 4_294_967_293, 0]),
    (Kind::Polygon, &HOLES),
    (Kind::Unknown, &[1, 2, 3]),
];

// Whether a list is refused memory; if not, it is read as what is valid, of this kind.
fn is_read_refused(rt: &(impl Abort + AllocGlobal), kind: Kind, integers: &[u32]) -> bool {
    match read_geometry(rt.alloc(), kind, integers) {
        Ok(read) => {
            expect!(rt; kind_of(&read) == kind && is_valid_geometry(&read));
            drop(read);
            false
        }
        Err(error) => {
            expect_eq!(rt; error, GeometryError::Memory);
            true
        }
    }
}

#[test]
fn refused_reads(rt: HostRuntime) {
    let mut refused = 0u8;
    for (kind, integers) in DRAWN {
        for _turn in 0..2 {
            refused = refused.saturating_add(u8::from(is_read_refused(&rt, kind, integers)));
        }
    }
    expect!(rt; refused < 2);
}

#[test]
fn refused_faults(rt: HostRuntime) {
    expect_faults(&rt);
    // None of those lists asks for memory: the first that is refused is asked for here.
    is_read_refused(&rt, Kind::Polygon, &HOLES);
}

fn is_put_refused(rt: &(impl Abort + AllocGlobal), read: &Geometry, integers: &[u32]) -> bool
    requires { IsValid read.now }
{
    match put_geometry(rt.alloc(), read) {
        Ok(put) => {
            expect_eq!(rt; put.as_slice(), integers);
            drop(put);
            false
        }
        Err(AllocError) => true,
    }
}

fn is_copy_refused(rt: &(impl Abort + AllocGlobal), read: &Geometry) -> bool {
    match read.copy(rt.alloc()) {
        Ok(copy) => {
            expect!(rt; copy == *read);
            drop(copy);
            false
        }
        Err(AllocError) => true,
    }
}

// How often a geometry was refused memory, which is read, put and copied.
fn refusals(rt: &(impl Abort + AllocGlobal), kind: Kind, integers: &[u32]) -> u8 {
    let Ok(read) = read_geometry(rt.alloc(), kind, integers) else {
        return 1;
    };
    let put = u8::from(is_put_refused(rt, &read, integers));
    let copied = u8::from(is_copy_refused(rt, &read));
    drop(read);
    put.saturating_add(copied)
}

#[test]
fn refused_puts_and_copies(rt: HostRuntime) {
    let mut refused = 0u8;
    for (kind, integers) in DRAWN {
        for _turn in 0..2 {
            refused = refused.saturating_add(refusals(&rt, kind, integers));
        }
    }
    expect!(rt; refused < 2);
}
