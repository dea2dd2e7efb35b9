//! Rows whose geometries are at the limits of what can be drawn. What is written of them is the
//! encoded tile that they are.
use crate::expect::expect_eq;
use crate::shapes::geometry_of;
use mvt_base::{Items, Text};
use mvt_message::{Feature, Item, Layer};
use mvt_rows::{
    DrawingRule, FeatureRow, LayerRow, PartRow, PointRow, Rows, RowsCause, RowsError, RowsFault,
    Span, Undrawn, write_rows,
};
use mvt_tile::{Tile, encode, validate};
use std::alloc::Global;
use std::process::Abort;

const NOWHERE: Span = Span { start: 0, len: 0 };

const LAYER: LayerRow = LayerRow {
    version: 2,
    extent: 4096,
    name: Span { start: 0, len: 1 },
    features: Span { start: 0, len: 1 },
    keys: NOWHERE,
    values: NOWHERE,
    bytes: NOWHERE,
};

// Layer `a` without features.
const NONE: Rows = Rows {
    layers: &[LAYER],
    features: &[],
    keys: &[],
    values: &[],
    tags: &[],
    parts: &[],
    points: &[],
    integers: &[],
    texts: b"a",
};

const DRAWN: [Rows; 7] = [
    // A line from end to end of the range.
    Rows {
        features: &[FeatureRow {
            id: 0,
            has_id: 0,
            kind: 2,
            tags: NOWHERE,
            parts: Span { start: 0, len: 1 },
            integers: NOWHERE,
        }],
        parts: &[PartRow {
            exterior: 0,
            points: Span { start: 0, len: 3 },
        }],
        points: &[
            PointRow {
                x: 2147483647,
                y: -2147483647,
            },
            PointRow { x: 0, y: 0 },
            PointRow {
                x: -2147483647,
                y: 2147483647,
            },
        ],
        ..NONE
    },
    // Lines that share points.
    Rows {
        features: &[FeatureRow {
            id: 0,
            has_id: 0,
            kind: 2,
            tags: NOWHERE,
            parts: Span { start: 0, len: 3 },
            integers: NOWHERE,
        }],
        parts: &[
            PartRow {
                exterior: 0,
                points: Span { start: 0, len: 2 },
            },
            PartRow {
                exterior: 2,
                points: Span { start: 0, len: 2 },
            },
            PartRow {
                exterior: 9,
                points: Span { start: 1, len: 2 },
            },
        ],
        points: &[
            PointRow { x: 1, y: 1 },
            PointRow { x: 2, y: 2 },
            PointRow { x: 3, y: 3 },
        ],
        ..NONE
    },
    // A line that comes back.
    Rows {
        features: &[FeatureRow {
            id: 0,
            has_id: 0,
            kind: 2,
            tags: NOWHERE,
            parts: Span { start: 0, len: 1 },
            integers: NOWHERE,
        }],
        parts: &[PartRow {
            exterior: 0,
            points: Span { start: 0, len: 3 },
        }],
        points: &[
            PointRow { x: 1, y: 1 },
            PointRow { x: 2, y: 2 },
            PointRow { x: 1, y: 1 },
        ],
        ..NONE
    },
    // Points, two of them one.
    Rows {
        features: &[FeatureRow {
            id: 0,
            has_id: 0,
            kind: 1,
            tags: NOWHERE,
            parts: Span { start: 0, len: 1 },
            integers: NOWHERE,
        }],
        parts: &[PartRow {
            exterior: 7,
            points: Span { start: 0, len: 3 },
        }],
        points: &[
            PointRow { x: 0, y: 0 },
            PointRow { x: 0, y: 0 },
            PointRow {
                x: 2147483647,
                y: 2147483647,
            },
        ],
        ..NONE
    },
    // A first ring without area.
    Rows {
        features: &[FeatureRow {
            id: 0,
            has_id: 0,
            kind: 3,
            tags: NOWHERE,
            parts: Span { start: 0, len: 1 },
            integers: NOWHERE,
        }],
        parts: &[PartRow {
            exterior: 1,
            points: Span { start: 0, len: 3 },
        }],
        points: &[
            PointRow { x: 0, y: 0 },
            PointRow { x: 1, y: 1 },
            PointRow { x: 2, y: 2 },
        ],
        ..NONE
    },
    // Two polygons, one with a hole.
    Rows {
        features: &[FeatureRow {
            id: 0,
            has_id: 0,
            kind: 3,
            tags: NOWHERE,
            parts: Span { start: 0, len: 3 },
            integers: NOWHERE,
        }],
        parts: &[
            PartRow {
                exterior: 1,
                points: Span { start: 0, len: 4 },
            },
            PartRow {
                exterior: 0,
                points: Span { start: 4, len: 3 },
            },
            PartRow {
                exterior: 1,
                points: Span { start: 0, len: 4 },
            },
        ],
        points: &[
            PointRow { x: 0, y: 0 },
            PointRow { x: 9, y: 0 },
            PointRow { x: 9, y: 9 },
            PointRow { x: 0, y: 9 },
            PointRow { x: 1, y: 1 },
            PointRow { x: 1, y: 3 },
            PointRow { x: 3, y: 1 },
        ],
        ..NONE
    },
    // A hole without area.
    Rows {
        features: &[FeatureRow {
            id: 0,
            has_id: 0,
            kind: 3,
            tags: NOWHERE,
            parts: Span { start: 0, len: 2 },
            integers: NOWHERE,
        }],
        parts: &[
            PartRow {
                exterior: 1,
                points: Span { start: 0, len: 4 },
            },
            PartRow {
                exterior: 0,
                points: Span { start: 4, len: 3 },
            },
        ],
        points: &[
            PointRow { x: 0, y: 0 },
            PointRow { x: 9, y: 0 },
            PointRow { x: 9, y: 9 },
            PointRow { x: 0, y: 9 },
            PointRow { x: 1, y: 1 },
            PointRow { x: 2, y: 2 },
            PointRow { x: 3, y: 3 },
        ],
        ..NONE
    },
];

const NOT_DRAWN: [Rows; 21] = [
    // No lines.
    Rows {
        features: &[FeatureRow {
            id: 0,
            has_id: 0,
            kind: 2,
            tags: NOWHERE,
            parts: Span { start: 0, len: 0 },
            integers: NOWHERE,
        }],
        parts: &[],
        points: &[],
        ..NONE
    },
    // A line of one point.
    Rows {
        features: &[FeatureRow {
            id: 0,
            has_id: 0,
            kind: 2,
            tags: NOWHERE,
            parts: Span { start: 0, len: 1 },
            integers: NOWHERE,
        }],
        parts: &[PartRow {
            exterior: 0,
            points: Span { start: 0, len: 1 },
        }],
        points: &[PointRow { x: 1, y: 1 }],
        ..NONE
    },
    // A line without points.
    Rows {
        features: &[FeatureRow {
            id: 0,
            has_id: 0,
            kind: 2,
            tags: NOWHERE,
            parts: Span { start: 0, len: 2 },
            integers: NOWHERE,
        }],
        parts: &[
            PartRow {
                exterior: 0,
                points: Span { start: 0, len: 2 },
            },
            PartRow {
                exterior: 0,
                points: Span { start: 0, len: 0 },
            },
        ],
        points: &[PointRow { x: 0, y: 0 }, PointRow { x: 1, y: 1 }],
        ..NONE
    },
    // A line that stays.
    Rows {
        features: &[FeatureRow {
            id: 0,
            has_id: 0,
            kind: 2,
            tags: NOWHERE,
            parts: Span { start: 0, len: 1 },
            integers: NOWHERE,
        }],
        parts: &[PartRow {
            exterior: 0,
            points: Span { start: 0, len: 3 },
        }],
        points: &[
            PointRow { x: 0, y: 0 },
            PointRow { x: 1, y: 1 },
            PointRow { x: 1, y: 1 },
        ],
        ..NONE
    },
    // A point out of range.
    Rows {
        features: &[FeatureRow {
            id: 0,
            has_id: 0,
            kind: 2,
            tags: NOWHERE,
            parts: Span { start: 0, len: 1 },
            integers: NOWHERE,
        }],
        parts: &[PartRow {
            exterior: 0,
            points: Span { start: 0, len: 2 },
        }],
        points: &[PointRow { x: 0, y: 0 }, PointRow { x: i32::MIN, y: 0 }],
        ..NONE
    },
    // A step out of range.
    Rows {
        features: &[FeatureRow {
            id: 0,
            has_id: 0,
            kind: 2,
            tags: NOWHERE,
            parts: Span { start: 0, len: 1 },
            integers: NOWHERE,
        }],
        parts: &[PartRow {
            exterior: 0,
            points: Span { start: 0, len: 2 },
        }],
        points: &[
            PointRow {
                x: 2147483647,
                y: 0,
            },
            PointRow { x: -1, y: 0 },
        ],
        ..NONE
    },
    // A step out of range between lines.
    Rows {
        features: &[FeatureRow {
            id: 0,
            has_id: 0,
            kind: 2,
            tags: NOWHERE,
            parts: Span { start: 0, len: 2 },
            integers: NOWHERE,
        }],
        parts: &[
            PartRow {
                exterior: 0,
                points: Span { start: 0, len: 2 },
            },
            PartRow {
                exterior: 0,
                points: Span { start: 2, len: 2 },
            },
        ],
        points: &[
            PointRow {
                x: 0,
                y: 2147483646,
            },
            PointRow {
                x: 0,
                y: 2147483647,
            },
            PointRow { x: 0, y: -1 },
            PointRow { x: 1, y: 1 },
        ],
        ..NONE
    },
    // No points.
    Rows {
        features: &[FeatureRow {
            id: 0,
            has_id: 0,
            kind: 1,
            tags: NOWHERE,
            parts: Span { start: 0, len: 1 },
            integers: NOWHERE,
        }],
        parts: &[PartRow {
            exterior: 0,
            points: Span { start: 0, len: 0 },
        }],
        points: &[],
        ..NONE
    },
    // Points of two parts.
    Rows {
        features: &[FeatureRow {
            id: 0,
            has_id: 0,
            kind: 1,
            tags: NOWHERE,
            parts: Span { start: 0, len: 2 },
            integers: NOWHERE,
        }],
        parts: &[
            PartRow {
                exterior: 0,
                points: Span { start: 0, len: 1 },
            },
            PartRow {
                exterior: 0,
                points: Span { start: 0, len: 1 },
            },
        ],
        points: &[PointRow { x: 1, y: 1 }],
        ..NONE
    },
    // Points without a part.
    Rows {
        features: &[FeatureRow {
            id: 0,
            has_id: 0,
            kind: 1,
            tags: NOWHERE,
            parts: Span { start: 0, len: 0 },
            integers: NOWHERE,
        }],
        parts: &[],
        points: &[],
        ..NONE
    },
    // A point at the least number.
    Rows {
        features: &[FeatureRow {
            id: 0,
            has_id: 0,
            kind: 1,
            tags: NOWHERE,
            parts: Span { start: 0, len: 1 },
            integers: NOWHERE,
        }],
        parts: &[PartRow {
            exterior: 0,
            points: Span { start: 0, len: 1 },
        }],
        points: &[PointRow { x: 0, y: i32::MIN }],
        ..NONE
    },
    // No rings.
    Rows {
        features: &[FeatureRow {
            id: 0,
            has_id: 0,
            kind: 3,
            tags: NOWHERE,
            parts: Span { start: 0, len: 0 },
            integers: NOWHERE,
        }],
        parts: &[],
        points: &[],
        ..NONE
    },
    // A ring of two points.
    Rows {
        features: &[FeatureRow {
            id: 0,
            has_id: 0,
            kind: 3,
            tags: NOWHERE,
            parts: Span { start: 0, len: 1 },
            integers: NOWHERE,
        }],
        parts: &[PartRow {
            exterior: 1,
            points: Span { start: 0, len: 2 },
        }],
        points: &[PointRow { x: 0, y: 0 }, PointRow { x: 1, y: 1 }],
        ..NONE
    },
    // A first ring of negative area.
    Rows {
        features: &[FeatureRow {
            id: 0,
            has_id: 0,
            kind: 3,
            tags: NOWHERE,
            parts: Span { start: 0, len: 1 },
            integers: NOWHERE,
        }],
        parts: &[PartRow {
            exterior: 1,
            points: Span { start: 0, len: 3 },
        }],
        points: &[
            PointRow { x: 0, y: 0 },
            PointRow { x: 1, y: 3 },
            PointRow { x: 3, y: 1 },
        ],
        ..NONE
    },
    // A hole before all.
    Rows {
        features: &[FeatureRow {
            id: 0,
            has_id: 0,
            kind: 3,
            tags: NOWHERE,
            parts: Span { start: 0, len: 1 },
            integers: NOWHERE,
        }],
        parts: &[PartRow {
            exterior: 0,
            points: Span { start: 0, len: 3 },
        }],
        points: &[
            PointRow { x: 0, y: 0 },
            PointRow { x: 1, y: 3 },
            PointRow { x: 3, y: 1 },
        ],
        ..NONE
    },
    // A hole of positive area.
    Rows {
        features: &[FeatureRow {
            id: 0,
            has_id: 0,
            kind: 3,
            tags: NOWHERE,
            parts: Span { start: 0, len: 2 },
            integers: NOWHERE,
        }],
        parts: &[
            PartRow {
                exterior: 1,
                points: Span { start: 0, len: 4 },
            },
            PartRow {
                exterior: 0,
                points: Span { start: 0, len: 4 },
            },
        ],
        points: &[
            PointRow { x: 0, y: 0 },
            PointRow { x: 9, y: 0 },
            PointRow { x: 9, y: 9 },
            PointRow { x: 0, y: 9 },
        ],
        ..NONE
    },
    // A second polygon without area.
    Rows {
        features: &[FeatureRow {
            id: 0,
            has_id: 0,
            kind: 3,
            tags: NOWHERE,
            parts: Span { start: 0, len: 2 },
            integers: NOWHERE,
        }],
        parts: &[
            PartRow {
                exterior: 1,
                points: Span { start: 0, len: 4 },
            },
            PartRow {
                exterior: 1,
                points: Span { start: 4, len: 3 },
            },
        ],
        points: &[
            PointRow { x: 0, y: 0 },
            PointRow { x: 9, y: 0 },
            PointRow { x: 9, y: 9 },
            PointRow { x: 0, y: 9 },
            PointRow { x: 1, y: 1 },
            PointRow { x: 2, y: 2 },
            PointRow { x: 3, y: 3 },
        ],
        ..NONE
    },
    // A ring that is neither.
    Rows {
        features: &[FeatureRow {
            id: 0,
            has_id: 0,
            kind: 3,
            tags: NOWHERE,
            parts: Span { start: 0, len: 2 },
            integers: NOWHERE,
        }],
        parts: &[
            PartRow {
                exterior: 1,
                points: Span { start: 0, len: 4 },
            },
            PartRow {
                exterior: 2,
                points: Span { start: 0, len: 4 },
            },
        ],
        points: &[
            PointRow { x: 0, y: 0 },
            PointRow { x: 9, y: 0 },
            PointRow { x: 9, y: 9 },
            PointRow { x: 0, y: 9 },
        ],
        ..NONE
    },
    // A ring that stays.
    Rows {
        features: &[FeatureRow {
            id: 0,
            has_id: 0,
            kind: 3,
            tags: NOWHERE,
            parts: Span { start: 0, len: 1 },
            integers: NOWHERE,
        }],
        parts: &[PartRow {
            exterior: 1,
            points: Span { start: 0, len: 4 },
        }],
        points: &[
            PointRow { x: 0, y: 0 },
            PointRow { x: 9, y: 0 },
            PointRow { x: 9, y: 0 },
            PointRow { x: 9, y: 9 },
        ],
        ..NONE
    },
    // A kind that is none.
    Rows {
        features: &[FeatureRow {
            id: 0,
            has_id: 0,
            kind: 4,
            tags: NOWHERE,
            parts: Span { start: 0, len: 1 },
            integers: NOWHERE,
        }],
        parts: &[PartRow {
            exterior: 0,
            points: Span { start: 0, len: 1 },
        }],
        points: &[PointRow { x: 1, y: 1 }],
        ..NONE
    },
    // Points that are not there.
    Rows {
        features: &[FeatureRow {
            id: 0,
            has_id: 0,
            kind: 2,
            tags: NOWHERE,
            parts: Span { start: 0, len: 2 },
            integers: NOWHERE,
        }],
        parts: &[
            PartRow {
                exterior: 0,
                points: Span { start: 0, len: 2 },
            },
            PartRow {
                exterior: 0,
                points: Span { start: 1, len: 2 },
            },
        ],
        points: &[PointRow { x: 0, y: 0 }, PointRow { x: 1, y: 1 }],
        ..NONE
    },
];

// The tile that rows are: layer `a` with their one feature.
fn tile_of(alloc: Global, rows: &Rows) -> Option<Tile> {
    let row = rows.features.first()?;
    let feature = Feature {
        id: None,
        attributes: Items::new(Vec::new(alloc)),
        geometry: geometry_of(alloc, rows, row)?,
    };
    let layer = Layer {
        name: Text::from_str(alloc, "a").ok()?,
        extent: 4096,
        features: Items::new(vec![in alloc; feature].ok()?),
    };
    let items = Items::new(vec![in alloc; Item::Layer(layer)].ok()?);
    Some(Tile { items })
}

// The bytes of the tile that rows are, where it is valid.
fn encoded(rt: &(impl Abort + AllocGlobal), rows: &Rows) -> Option<Vec<u8>> {
    let tile = tile_of(rt.alloc(), rows)?;
    if validate(rt.alloc(), &tile).expect(rt, "an answer") {
        return Some(encode(rt.alloc(), &tile).expect(rt, "bytes"));
    }
    None
}

#[test]
fn writes_what_can_be_drawn(rt: HostRuntime) {
    for rows in &DRAWN {
        let written = write_rows(rt.alloc(), rows).ok();
        expect_eq!(rt; written.is_some(), true);
        expect_eq!(rt; written, encoded(&rt, rows));
    }
}

// Which rule each of these breaks, in which part and at which point; nothing where it has no
// geometry to be drawn.
const RULES: [Option<(DrawingRule, usize, Option<usize>)>; 21] = [
    Some((DrawingRule::EndsEarly, 0, None)),
    Some((DrawingRule::Count, 0, None)),
    Some((DrawingRule::Count, 1, None)),
    Some((DrawingRule::ZeroSegment, 0, Some(2))),
    Some((DrawingRule::ParameterRange, 0, Some(1))),
    Some((DrawingRule::ParameterRange, 0, Some(1))),
    Some((DrawingRule::ParameterRange, 1, Some(0))),
    Some((DrawingRule::Count, 0, None)),
    None,
    None,
    Some((DrawingRule::ParameterRange, 0, Some(0))),
    Some((DrawingRule::EndsEarly, 0, None)),
    Some((DrawingRule::Count, 0, None)),
    Some((DrawingRule::FirstRing, 0, None)),
    None,
    Some((DrawingRule::InteriorRing, 1, None)),
    Some((DrawingRule::ExteriorRing, 1, None)),
    None,
    Some((DrawingRule::ZeroSegment, 0, Some(2))),
    None,
    None,
];

// Why the feature of rows isn't drawn: it has no kind or no parts, or they break this rule.
fn cause_of(
    rt: &(impl Abort + AllocGlobal),
    rows: &Rows,
    rule: Option<(DrawingRule, usize, Option<usize>)>,
) -> RowsCause {
    let row = rows.features.first().expect(rt, "a feature");
    if row.kind > 3 {
        return RowsCause::Kind;
    }
    if geometry_of(rt.alloc(), rows, row).is_none() {
        return RowsCause::Geometry;
    }
    let (rule, part, point) = rule.expect(rt, "a rule");
    RowsCause::Drawing(Undrawn { rule, part, point })
}

#[test]
fn refuses_what_cannot_be_drawn(rt: HostRuntime) {
    for (rows, rule) in NOT_DRAWN.iter().zip(&RULES) {
        let fault = RowsFault {
            layer: 0,
            feature: Some(0),
            cause: cause_of(&rt, rows, *rule),
        };
        let error = write_rows(rt.alloc(), rows).err();
        expect_eq!(rt; error, Some(RowsError::NoTile(fault)));
        expect_eq!(rt; encoded(&rt, rows), None);
    }
}
