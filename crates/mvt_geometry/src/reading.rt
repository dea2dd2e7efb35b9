//! Geometries from integers: judged first, and then built with exact room.
ghost use Rattle.std.specs.Prelude.{◌≡◌, ◌<◌, ◌⊎◌, ℕ, List, [], ◌∷◌, ◌++◌, length, IfOk, IfErr, OnOk};
ghost use Rattle.mvt_geometry.specs.Shape.{origin, last_of};
ghost use Rattle.mvt_geometry.specs.Drawing.{Draws};
ghost use Rattle.mvt_geometry.specs.Commands.{pairs_of, moved, positions};
ghost use Rattle.mvt_geometry.specs.Table.{geometry_fault};
ghost use Rattle.mvt_geometry.specs.Reports.{Reports};
ghost use Rattle.mvt_geometry.specs.Inner.Judging.{part_count};
ghost use Rattle.mvt_geometry.specs.Inner.Building.{ArePlaces, IsFront, SpellLines, SpellRings};
ghost use Rattle.mvt_geometry.specs.Inner.Grouping.{opened, polygons_of};

use crate::area::twice_area;
use crate::command::Command;
use crate::fault::GeometryError;
use crate::judging::{ORIGIN, judge, moved_by};
use crate::shape::{Geometry, Kind, Point, Polygon};
use mvt_base::Items;
use std::alloc::{AllocError, Global};
use std::mem;

/// The geometry of this type that the integers draw.
///
/// All integers are judged before anything grows, and each list of points is made with exact room.
///
/// # Errors
///
/// The first broken rule, whatever memory there is; or else that memory runs out.
pub fn read_geometry(alloc: Global, kind: Kind, integers: &[u32]) -> Result<Geometry, GeometryError>
    ensures drawn { IfOk result (λ g. Draws kind integers.now g) }
    ensures ok { OnOk result (geometry_fault kind integers.now ≡ None) }
    ensures err { IfErr result (λ e. Reports e (geometry_fault kind integers.now)) }
    ensures found { (g : Geometry) → Draws kind integers.now g
        → (result ≡ Ok g) ⊎ (result ≡ Err GeometryError.Memory) }
    ensures memory { result ≡ Err GeometryError.Memory → (g : Geometry)
        × Draws kind integers.now g }
{
    let count = judge(kind, integers)?;
    Ok(build(alloc, kind, integers, count)?)
}

/// The geometry, which has `count` lines or polygons where it has such parts.
fn build(alloc: Global, kind: Kind, integers: &[u32], count: usize) -> Result<Geometry, AllocError>
    requires { (g : Geometry) × Draws kind integers.now g × (count ≡ part_count g) }
    ensures { (g : Geometry) → Draws kind integers.now g → IfOk result (λ r. r ≡ g) }
{
    match kind {
        Kind::Unknown => {
            let integers = Vec::from_slice(alloc, integers)?;
            Ok(Geometry::Unknown(Items::new(integers)))
        }
        Kind::Point => {
            let parameters = &integers[1..];
            let mut points = Vec::with_capacity(alloc, parameters.len() / 2)?;
            push_path(&mut points, ORIGIN, parameters)?;
            Ok(Geometry::Points(Items::new(points)))
        }
        Kind::LineString => {
            let lines = build_lines(alloc, integers, count)?;
            Ok(Geometry::Lines(Items::new(lines)))
        }
        Kind::Polygon => {
            let polygons = build_polygons(alloc, integers, count)?;
            Ok(Geometry::Polygons(Items::new(polygons)))
        }
    }
}

fn build_lines(
    alloc: Global,
    integers: &[u32],
    count: usize,
) -> Result<Vec<Items<Point>>, AllocError>
    requires { (ls : List (List Point)) × SpellLines [] origin integers.now ls
        × (count ≡ length ls) }
    ensures { (ls : List (List Point)) → SpellLines [] origin integers.now ls
        → IfOk result (λ r. r.items ≡ ls) }
{
    let mut lines = Vec::with_capacity(alloc, count)?;
    let mut cursor = ORIGIN;
    let mut rest = integers;
    while !rest.is_empty() {
        let line = build_line(alloc, cursor, rest)?;
        lines.push(line.points)?;
        cursor = line.end;
        rest = line.after;
    }
    Ok(lines)
}

fn build_polygons(alloc: Global, integers: &[u32], count: usize) -> Result<Vec<Polygon>, AllocError>
    requires { (rings : List (List Point)) × SpellRings integers.now rings
        × (count ≡ length (polygons_of rings)) }
    ensures { (rings : List (List Point)) → SpellRings integers.now rings
        → IfOk result (λ r. r.items ≡ polygons_of rings) }
{
    let first = build_ring(alloc, ORIGIN, integers)?;
    let mut polygons = Vec::with_capacity(alloc, count)?;
    let mut current = Open {
        outer: first.points,
        inner: Vec::new(alloc),
    };
    let mut cursor = first.end;
    let mut rest = first.after;
    while !rest.is_empty() {
        let ring = build_ring(alloc, cursor, rest)?;
        add_ring(alloc, &mut polygons, &mut current, ring.points)?;
        cursor = ring.end;
        rest = ring.after;
    }
    polygons.push(current.closed())?;
    Ok(polygons)
}

/// The polygon to which an interior ring would belong.
#[derive(Debug, Drop)]
struct Open {
    outer: Items<Point>,
    inner: Vec<Items<Point>>,
}

impl Open {
    fn closed(self) -> Polygon
        ensures { result ≡ record { outer = self.outer; rest = self.inner.items } }
    {
        let Open { outer, inner } = self;
        Polygon {
            outer,
            rest: Items::new(inner),
        }
    }
}

/// Opens a polygon with a ring of positive area, or adds another ring to the open one.
fn add_ring(
    alloc: Global,
    polygons: &mut Vec<Polygon>,
    current: &mut Open,
    ring: Items<Point>,
) -> Result<(), AllocError>
    ensures { OnOk result ((rings : List (List Point))
        → polygons.new.items ++ opened current.new.outer current.new.inner.items rings
        ≡ polygons.old.items ++ opened current.old.outer current.old.inner.items (ring ∷ rings)) }
{
    if twice_area(ring.as_slice()) > 0 {
        let next = Open {
            outer: ring,
            inner: Vec::new(alloc),
        };
        polygons.push(mem::replace(current, next).closed())?;
    } else {
        current.inner.push(ring)?;
    }
    Ok(())
}

/// A line, its last point, and what stands after its pairs.
#[derive(Debug, Drop)]
struct Line<'a> {
    points: Items<Point>,
    end: Point,
    after: &'a [u32],
}

/// The line in front of the integers: one pair after a MoveTo, and those after a LineTo.
fn build_line<'a>(alloc: Global, from: Point, integers: &'a [u32]) -> Result<Line<'a>, AllocError>
    requires { (l : List Point) × (more : List ℕ) × IsFront from integers.now l more }
    ensures further { IfOk result (λ r. length r.after.now < length integers.now) }
    ensures line { (l : List Point) → (more : List ℕ) → IsFront from integers.now l more
        → IfOk result (λ r. (r.points ≡ l) × (r.end ≡ last_of from l) × (r.after.now ≡ more)) }
{
    let (head, tail) = integers.split_at(4);
    let count = Command::count_in(head[3]) as usize;
    let (pairs, after) = tail.split_at(2 * count);
    let mut points = Vec::with_capacity(alloc, count + 1)?;
    let first = push_path(&mut points, from, &head[1..3])?;
    let end = push_path(&mut points, first, pairs)?;
    let points = Items::new(points);
    Ok(Line { points, end, after })
}

/// The ring in front of the integers: a line, and its ClosePath.
fn build_ring<'a>(alloc: Global, from: Point, integers: &'a [u32]) -> Result<Line<'a>, AllocError>
    requires { (l : List Point) × (more : List ℕ) × IsFront from integers.now l (15 ∷ more) }
    ensures further { IfOk result (λ r. length r.after.now < length integers.now) }
    ensures line { (l : List Point) → (more : List ℕ) → IsFront from integers.now l (15 ∷ more)
        → IfOk result (λ r. (r.points ≡ l) × (r.end ≡ last_of from l) × (r.after.now ≡ more)) }
{
    let line = build_line(alloc, from, integers)?;
    let (_, after) = line.after.split_at(1);
    Ok(Line {
        points: line.points,
        end: line.end,
        after,
    })
}

/// Appends the points that pairs lead to, and answers the last.
fn push_path(points: &mut Vec<Point>, from: Point, parameters: &[u32]) -> Result<Point, AllocError>
    requires { ArePlaces (positions from (pairs_of parameters.now)) }
    ensures points { OnOk result (points.new.items ≡ points.old.items ++ positions from
        (pairs_of parameters.now)) }
    ensures last { IfOk result (λ last. last ≡ moved from (pairs_of parameters.now)) }
{
    let mut cursor = from;
    let mut rest = parameters;
    while let [dx, dy, others @ ..] = rest {
        cursor = moved_by(cursor, *dx, *dy);
        points.push(cursor)?;
        rest = others;
    }
    Ok(cursor)
}
