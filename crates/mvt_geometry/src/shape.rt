//! Points, polygons and geometries.
ghost use Rattle.std.specs.Prelude.{◌≡◌, IfOk};

use mvt_base::Items;
use std::alloc::{AllocError, Global};

/// A position in a tile: x to the right, y down.
#[derive(Clone, Copy, Debug, PartialEq, Eq)]
pub struct Point {
    pub x: i32,
    pub y: i32,
}

/// An exterior ring and its interior rings. The last point of a ring is joined to its first.
#[derive(Debug, Drop, PartialEq, Eq)]
pub struct Polygon {
    pub outer: Items<Point>,
    pub rest: Items<Items<Point>>,
}

/// What a feature shows.
#[derive(Debug, Drop, PartialEq, Eq)]
pub enum Geometry {
    /// The integers of a geometry of unknown type, which are carried as they stand.
    Unknown(Items<u32>),
    Points(Items<Point>),
    Lines(Items<Items<Point>>),
    Polygons(Items<Polygon>),
}

/// The type of a geometry, as a feature names it.
#[derive(Clone, Copy, Debug, PartialEq, Eq)]
pub enum Kind {
    Unknown,
    Point,
    LineString,
    Polygon,
}

ghost use Rattle.mvt_geometry.specs.Shape.{kind_of as the_kind_of};

/// The type that a feature with this geometry names.
pub fn kind_of(geometry: &Geometry) -> Kind
    ensures { result ≡ the_kind_of geometry.now }
{
    match geometry {
        Geometry::Unknown(_) => Kind::Unknown,
        Geometry::Points(_) => Kind::Point,
        Geometry::Lines(_) => Kind::LineString,
        Geometry::Polygons(_) => Kind::Polygon,
    }
}

impl Geometry {
    /// An equal geometry.
    ///
    /// # Errors
    ///
    /// When memory runs out.
    pub fn copy(&self, alloc: Global) -> Result<Self, AllocError>
        ensures { IfOk result (λ copy. copy ≡ self.now) }
    {
        match self {
            Geometry::Unknown(integers) => {
                let integers = Vec::from_slice(alloc, integers.as_slice())?;
                Ok(Geometry::Unknown(Items::new(integers)))
            }
            Geometry::Points(points) => Ok(Geometry::Points(copy_line(alloc, points)?)),
            Geometry::Lines(lines) => Ok(Geometry::Lines(copy_lines(alloc, lines)?)),
            Geometry::Polygons(polygons) => {
                Ok(Geometry::Polygons(copy_polygons(alloc, polygons)?))
            }
        }
    }
}

fn copy_line(alloc: Global, line: &Items<Point>) -> Result<Items<Point>, AllocError>
    ensures { IfOk result (λ copy. copy ≡ line.now) }
{
    let points = Vec::from_slice(alloc, line.as_slice())?;
    Ok(Items::new(points))
}

fn copy_lines(alloc: Global, lines: &Items<Items<Point>>) -> Result<Items<Items<Point>>, AllocError>
    ensures { IfOk result (λ copy. copy ≡ lines.now) }
{
    let lines = lines.as_slice();
    let mut copies = Vec::with_capacity(alloc, lines.len())?;
    for line in lines {
        copies.push(copy_line(alloc, line)?)?;
    }
    Ok(Items::new(copies))
}

fn copy_polygons(alloc: Global, polygons: &Items<Polygon>) -> Result<Items<Polygon>, AllocError>
    ensures { IfOk result (λ copy. copy ≡ polygons.now) }
{
    let polygons = polygons.as_slice();
    let mut copies = Vec::with_capacity(alloc, polygons.len())?;
    for polygon in polygons {
        let outer = copy_line(alloc, &polygon.outer)?;
        let rest = copy_lines(alloc, &polygon.rest)?;
        copies.push(Polygon { outer, rest })?;
    }
    Ok(Items::new(copies))
}
