//! The path of a geometry, as an SVG element draws it.
ghost use Rattle.std.specs.Prelude.{◌≡◌, ◌++◌, OnOk, string_bytes};
ghost use Rattle.std.specs.List.{flat_map};
ghost use Rattle.mvt_view.specs.Svg.{dot_path, geometry_path, line_path, line_to, move_to, polygon_path, ring_path};

use crate::numbers::push_pair;
use mvt_base::Items;
use mvt_geometry::{Geometry, Point, Polygon};
use std::alloc::AllocError;

/// Appends the path of a geometry; nothing for one of unknown type.
pub(crate) fn push_geometry(text: &mut String, geometry: &Geometry) -> Result<(), AllocError>
    ensures { OnOk result (string_bytes text.new
        ≡ string_bytes text.old ++ geometry_path geometry.now) }
{
    match geometry {
        Geometry::Unknown(_) => Ok(()),
        Geometry::Points(points) => push_dots(text, points.as_slice()),
        Geometry::Lines(lines) => push_lines(text, lines.as_slice()),
        Geometry::Polygons(polygons) => push_polygons(text, polygons.as_slice()),
    }
}

fn push_dots(text: &mut String, points: &[Point]) -> Result<(), AllocError>
    ensures { OnOk result (string_bytes text.new
        ≡ string_bytes text.old ++ flat_map dot_path points.now) }
{
    for point in points {
        push_dot(text, *point)?;
    }
    Ok(())
}

#[tactic(auto, unfolding(crate::specs::Svg::dot_path))]
fn push_dot(text: &mut String, point: Point) -> Result<(), AllocError>
    ensures { OnOk result (string_bytes text.new ≡ string_bytes text.old ++ dot_path point) }
{
    push_move(text, point)?;
    text.push_str("h0")
}

fn push_lines(text: &mut String, lines: &[Items<Point>]) -> Result<(), AllocError>
    ensures { OnOk result (string_bytes text.new
        ≡ string_bytes text.old ++ flat_map line_path lines.now) }
{
    for line in lines {
        push_line(text, line.as_slice())?;
    }
    Ok(())
}

fn push_line(text: &mut String, points: &[Point]) -> Result<(), AllocError>
    ensures { OnOk result (string_bytes text.new ≡ string_bytes text.old ++ line_path points.now) }
{
    match points {
        [] => Ok(()),
        [first, rest @ ..] => {
            push_move(text, *first)?;
            push_strokes(text, rest)
        }
    }
}

fn push_strokes(text: &mut String, points: &[Point]) -> Result<(), AllocError>
    ensures { OnOk result (string_bytes text.new
        ≡ string_bytes text.old ++ flat_map line_to points.now) }
{
    for point in points {
        push_stroke(text, *point)?;
    }
    Ok(())
}

fn push_polygons(text: &mut String, polygons: &[Polygon]) -> Result<(), AllocError>
    ensures { OnOk result (string_bytes text.new
        ≡ string_bytes text.old ++ flat_map polygon_path polygons.now) }
{
    for polygon in polygons {
        push_polygon(text, polygon)?;
    }
    Ok(())
}

#[tactic(auto, unfolding(crate::specs::Svg::polygon_path))]
fn push_polygon(text: &mut String, polygon: &Polygon) -> Result<(), AllocError>
    ensures { OnOk result (string_bytes text.new
        ≡ string_bytes text.old ++ polygon_path polygon.now) }
{
    push_ring(text, polygon.outer.as_slice())?;
    push_rings(text, polygon.rest.as_slice())
}

fn push_rings(text: &mut String, rings: &[Items<Point>]) -> Result<(), AllocError>
    ensures { OnOk result (string_bytes text.new
        ≡ string_bytes text.old ++ flat_map ring_path rings.now) }
{
    for ring in rings {
        push_ring(text, ring.as_slice())?;
    }
    Ok(())
}

#[tactic(auto, unfolding(crate::specs::Svg::ring_path))]
fn push_ring(text: &mut String, points: &[Point]) -> Result<(), AllocError>
    ensures { OnOk result (string_bytes text.new ≡ string_bytes text.old ++ ring_path points.now) }
{
    push_line(text, points)?;
    text.push_str("z")
}

#[tactic(auto, unfolding(crate::specs::Svg::move_to))]
fn push_move(text: &mut String, point: Point) -> Result<(), AllocError>
    ensures { OnOk result (string_bytes text.new ≡ string_bytes text.old ++ move_to point) }
{
    push_pair(text, b'M', point.x, b' ', point.y)
}

#[tactic(auto, unfolding(crate::specs::Svg::line_to))]
fn push_stroke(text: &mut String, point: Point) -> Result<(), AllocError>
    ensures { OnOk result (string_bytes text.new ≡ string_bytes text.old ++ line_to point) }
{
    push_pair(text, b'L', point.x, b' ', point.y)
}
