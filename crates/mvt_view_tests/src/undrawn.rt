//! Which rule a geometry of rows breaks, in which part and at which point. The integers are those
//! that the points would be spelled as (4.3.1 to 4.3.4), and reading refuses them for that cause.
use crate::expect::expect_eq;
use mvt_geometry::{GeometryCause, GeometryError, Kind, judge_geometry};
use mvt_rows::{
    DrawingRule, FeatureRow, LayerRow, PartRow, PointRow, Rows, RowsCause, RowsError, RowsFault,
    Span, Undrawn, rows_fault, write_rows,
};
use std::process::Abort;

const NOWHERE: Span = Span { start: 0, len: 0 };

struct Case {
    kind: u32,
    // Each line or ring: whether it is exterior, its first point and how many there are.
    parts: &'static [(u32, u64, u64)],
    points: &'static [(i32, i32)],
    integers: &'static [u32],
    // What reading says of the integers; nothing where it reads them as other polygons.
    cause: Option<GeometryCause>,
    rule: DrawingRule,
    part: usize,
    point: Option<usize>,
}

const CASES: [Case; 18] = [
    // No points: a MoveTo of count 0.
    Case {
        kind: 1,
        parts: &[(0, 0, 0)],
        points: &[],
        integers: &[1],
        cause: Some(GeometryCause::Count),
        rule: DrawingRule::Count,
        part: 0,
        point: None,
    },
    // Points, of which the second is too far from the first.
    Case {
        kind: 1,
        parts: &[(0, 0, 3)],
        points: &[(2147483647, 0), (-1, 0), (0, 0)],
        integers: &[25, 4294967294, 0, 4294967295, 0, 2, 0],
        cause: Some(GeometryCause::ParameterRange),
        rule: DrawingRule::ParameterRange,
        part: 0,
        point: Some(1),
    },
    // No lines.
    Case {
        kind: 2,
        parts: &[],
        points: &[],
        integers: &[],
        cause: Some(GeometryCause::EndsEarly),
        rule: DrawingRule::EndsEarly,
        part: 0,
        point: None,
    },
    // A line of one point: a LineTo of count 0.
    Case {
        kind: 2,
        parts: &[(0, 0, 1)],
        points: &[(1, 1)],
        integers: &[9, 2, 2, 2],
        cause: Some(GeometryCause::Count),
        rule: DrawingRule::Count,
        part: 0,
        point: None,
    },
    // A line of one point that is too far away: the step to it comes before the count.
    Case {
        kind: 2,
        parts: &[(0, 0, 1)],
        points: &[(0, i32::MIN)],
        integers: &[9, 0, 4294967295, 2],
        cause: Some(GeometryCause::ParameterRange),
        rule: DrawingRule::ParameterRange,
        part: 0,
        point: Some(0),
    },
    // A line that stays.
    Case {
        kind: 2,
        parts: &[(0, 0, 3)],
        points: &[(0, 0), (1, 1), (1, 1)],
        integers: &[9, 0, 0, 18, 2, 2, 0, 0],
        cause: Some(GeometryCause::ZeroSegment),
        rule: DrawingRule::ZeroSegment,
        part: 0,
        point: Some(2),
    },
    // A line may begin where the last one ended. The third of these stays.
    Case {
        kind: 2,
        parts: &[(0, 0, 2), (0, 1, 2), (0, 3, 4)],
        points: &[(0, 0), (1, 1), (2, 1), (2, 1), (2, 2), (3, 2), (3, 2)],
        integers: &[
            9, 0, 0, 10, 2, 2, 9, 0, 0, 10, 2, 0, 9, 0, 0, 26, 0, 2, 2, 0, 0, 0,
        ],
        cause: Some(GeometryCause::ZeroSegment),
        rule: DrawingRule::ZeroSegment,
        part: 2,
        point: Some(3),
    },
    // A position out of range.
    Case {
        kind: 2,
        parts: &[(0, 0, 2)],
        points: &[(-1, 0), (i32::MIN, 0)],
        integers: &[9, 1, 0, 10, 4294967293, 0],
        cause: Some(GeometryCause::CoordinateRange),
        rule: DrawingRule::CoordinateRange,
        part: 0,
        point: Some(1),
    },
    // A step out of range, and behind it a step to nowhere.
    Case {
        kind: 2,
        parts: &[(0, 0, 3)],
        points: &[(2147483647, 0), (-1, 0), (-1, 0)],
        integers: &[9, 4294967294, 0, 18, 4294967295, 0, 0, 0],
        cause: Some(GeometryCause::ParameterRange),
        rule: DrawingRule::ParameterRange,
        part: 0,
        point: Some(1),
    },
    // A step out of range between lines.
    Case {
        kind: 2,
        parts: &[(0, 0, 2), (0, 2, 2)],
        points: &[(0, 2147483646), (0, 2147483647), (0, -1), (1, 1)],
        integers: &[9, 0, 4294967292, 10, 0, 2, 9, 0, 4294967295, 10, 2, 4],
        cause: Some(GeometryCause::ParameterRange),
        rule: DrawingRule::ParameterRange,
        part: 1,
        point: Some(0),
    },
    // No rings.
    Case {
        kind: 3,
        parts: &[],
        points: &[],
        integers: &[],
        cause: Some(GeometryCause::EndsEarly),
        rule: DrawingRule::EndsEarly,
        part: 0,
        point: None,
    },
    // A ring of two points.
    Case {
        kind: 3,
        parts: &[(1, 0, 2)],
        points: &[(0, 0), (1, 1)],
        integers: &[9, 0, 0, 10, 2, 2, 15],
        cause: Some(GeometryCause::Count),
        rule: DrawingRule::Count,
        part: 0,
        point: None,
    },
    // A first ring of negative area.
    Case {
        kind: 3,
        parts: &[(1, 0, 3)],
        points: &[(0, 0), (1, 3), (3, 1)],
        integers: &[9, 0, 0, 18, 2, 6, 4, 3, 15],
        cause: Some(GeometryCause::FirstRing),
        rule: DrawingRule::FirstRing,
        part: 0,
        point: None,
    },
    // One that also stays: the steps come before the area.
    Case {
        kind: 3,
        parts: &[(1, 0, 4)],
        points: &[(0, 0), (1, 3), (3, 1), (3, 1)],
        integers: &[9, 0, 0, 26, 2, 6, 4, 3, 0, 0, 15],
        cause: Some(GeometryCause::ZeroSegment),
        rule: DrawingRule::ZeroSegment,
        part: 0,
        point: Some(3),
    },
    // A hole that stays, behind a ring.
    Case {
        kind: 3,
        parts: &[(1, 0, 4), (0, 4, 4)],
        points: &[
            (0, 0),
            (9, 0),
            (9, 9),
            (0, 9),
            (1, 1),
            (1, 1),
            (1, 5),
            (5, 5),
        ],
        integers: &[
            9, 0, 0, 26, 18, 0, 0, 18, 17, 0, 15, 9, 2, 15, 26, 0, 0, 0, 8, 8, 0, 15,
        ],
        cause: Some(GeometryCause::ZeroSegment),
        rule: DrawingRule::ZeroSegment,
        part: 1,
        point: Some(1),
    },
    // A hole of positive area, which would be read as a polygon.
    Case {
        kind: 3,
        parts: &[(1, 0, 4), (0, 0, 4)],
        points: &[(0, 0), (9, 0), (9, 9), (0, 9)],
        integers: &[
            9, 0, 0, 26, 18, 0, 0, 18, 17, 0, 15, 9, 0, 17, 26, 18, 0, 0, 18, 17, 0, 15,
        ],
        cause: None,
        rule: DrawingRule::InteriorRing,
        part: 1,
        point: None,
    },
    // A second polygon without area, which would be read as a hole.
    Case {
        kind: 3,
        parts: &[(1, 0, 4), (1, 4, 3)],
        points: &[(0, 0), (9, 0), (9, 9), (0, 9), (1, 1), (2, 2), (3, 3)],
        integers: &[
            9, 0, 0, 26, 18, 0, 0, 18, 17, 0, 15, 9, 2, 15, 18, 2, 2, 2, 2, 15,
        ],
        cause: None,
        rule: DrawingRule::ExteriorRing,
        part: 1,
        point: None,
    },
    // A third ring that is a polygon of negative area, behind a hole without area.
    Case {
        kind: 3,
        parts: &[(1, 0, 4), (0, 4, 3), (1, 7, 3)],
        points: &[
            (0, 0),
            (9, 0),
            (9, 9),
            (0, 9),
            (1, 1),
            (2, 2),
            (3, 3),
            (3, 3),
            (4, 6),
            (6, 4),
        ],
        integers: &[
            9, 0, 0, 26, 18, 0, 0, 18, 17, 0, 15, 9, 2, 15, 18, 2, 2, 2, 2, 15, 9, 0, 0, 18, 2, 6,
            4, 3, 15,
        ],
        cause: None,
        rule: DrawingRule::ExteriorRing,
        part: 2,
        point: None,
    },
];

fn kind_of(case: &Case) -> Kind {
    match case.kind {
        1 => Kind::Point,
        2 => Kind::LineString,
        _ => Kind::Polygon,
    }
}

fn parts_of(rt: &(impl Abort + AllocGlobal), case: &Case) -> Vec<PartRow> {
    let mut parts = Vec::new(rt.alloc());
    for (exterior, start, len) in case.parts {
        let points = Span {
            start: *start,
            len: *len,
        };
        let part = PartRow {
            exterior: *exterior,
            points,
        };
        parts.push(part).expect(rt, "a part");
    }
    parts
}

fn points_of(rt: &(impl Abort + AllocGlobal), case: &Case) -> Vec<PointRow> {
    let mut points = Vec::new(rt.alloc());
    for (x, y) in case.points {
        points.push(PointRow { x: *x, y: *y }).expect(rt, "a point");
    }
    points
}

fn fault_of(rt: &(impl Abort + AllocGlobal), case: &Case) -> Option<RowsFault> {
    let layer = LayerRow {
        version: 2,
        extent: 4096,
        name: Span { start: 0, len: 1 },
        features: Span { start: 0, len: 1 },
        keys: NOWHERE,
        values: NOWHERE,
        bytes: NOWHERE,
    };
    let feature = FeatureRow {
        id: 0,
        has_id: 0,
        kind: case.kind,
        tags: NOWHERE,
        parts: Span {
            start: 0,
            len: case.parts.len() as u64,
        },
        integers: NOWHERE,
    };
    let parts = parts_of(rt, case);
    let points = points_of(rt, case);
    let rows = Rows {
        layers: &[layer],
        features: &[feature],
        keys: &[],
        values: &[],
        tags: &[],
        parts: parts.as_slice(),
        points: points.as_slice(),
        integers: &[],
        texts: b"a",
    };
    let found = rows_fault(rt.alloc(), &rows).expect(rt, "a verdict");
    let error = write_rows(rt.alloc(), &rows).err();
    expect_eq!(rt; error, found.map(RowsError::NoTile));
    found
}

#[test]
fn tells_the_rule_the_part_and_the_point(rt: HostRuntime) {
    for case in &CASES {
        let undrawn = Undrawn {
            rule: case.rule,
            part: case.part,
            point: case.point,
        };
        let fault = RowsFault {
            layer: 0,
            feature: Some(0),
            cause: RowsCause::Drawing(undrawn),
        };
        expect_eq!(rt; fault_of(&rt, case), Some(fault));
    }
}

#[test]
fn tells_the_cause_of_reading(rt: HostRuntime) {
    for case in &CASES {
        let judged = match judge_geometry(kind_of(case), case.integers) {
            Ok(()) => None,
            Err(GeometryError::Fault { cause, .. }) => Some(cause),
            Err(GeometryError::Memory) => Some(GeometryCause::Parameters),
        };
        expect_eq!(rt; judged, case.cause);
    }
}
