//! Geometries of rows as values, made apart from what writes rows.
use mvt_base::Items;
use mvt_geometry::{Geometry, Point, Polygon};
use mvt_rows::{FeatureRow, PartRow, Rows};
use std::alloc::Global;

// A line, a ring or the points of a feature, where all of its points are there.
fn line_of(alloc: Global, rows: &Rows, part: &PartRow) -> Option<Items<Point>> {
    let end = part.points.start.checked_add(part.points.len)?;
    let mut line = Vec::new(alloc);
    for row in rows.points.get(part.points.start as usize..end as usize)? {
        line.push(Point { x: row.x, y: row.y }).ok()?;
    }
    Some(Items::new(line))
}

fn lines_of(alloc: Global, rows: &Rows, parts: &[PartRow]) -> Option<Vec<Items<Point>>> {
    let mut lines = Vec::new(alloc);
    for part in parts {
        lines.push(line_of(alloc, rows, part)?).ok()?;
    }
    Some(lines)
}

// A ring more: an exterior one begins a polygon, another belongs to the last.
fn add_ring(
    alloc: Global,
    polygons: &mut Vec<Polygon>,
    ring: Items<Point>,
    exterior: u32,
) -> Option<()> {
    let rest = Items::new(Vec::new(alloc));
    let polygon = match exterior {
        1 => Polygon { outer: ring, rest },
        0 => {
            let Polygon { outer, rest } = polygons.pop()?;
            let mut rest = rest.into_vec();
            rest.push(ring).ok()?;
            let rest = Items::new(rest);
            Polygon { outer, rest }
        }
        _ => return None,
    };
    polygons.push(polygon).ok()
}

fn polygons_of(alloc: Global, rows: &Rows, parts: &[PartRow]) -> Option<Vec<Polygon>> {
    let mut polygons = Vec::new(alloc);
    for part in parts {
        let ring = line_of(alloc, rows, part)?;
        add_ring(alloc, &mut polygons, ring, part.exterior)?;
    }
    Some(polygons)
}

// The geometry that the row of a feature names, where it is one, whether or not it can be drawn.
pub(crate) fn geometry_of(alloc: Global, rows: &Rows, row: &FeatureRow) -> Option<Geometry> {
    let end = row.parts.start.checked_add(row.parts.len)?;
    let parts = rows.parts.get(row.parts.start as usize..end as usize)?;
    match row.kind {
        1 => match parts {
            [part] => Some(Geometry::Points(line_of(alloc, rows, part)?)),
            _ => None,
        },
        2 => Some(Geometry::Lines(Items::new(lines_of(alloc, rows, parts)?))),
        3 => Some(Geometry::Polygons(Items::new(polygons_of(alloc, rows, parts)?))),
        _ => None,
    }
}
