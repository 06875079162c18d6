//! The seven kinds of geometries.

ghost use Rattle.std.specs.Prelude.{◌≡◌, IfOk};

use isp_base::Duplicate;
use sqlite_items::Items;
use std::alloc::{AllocError, Global};

/// A point of whole coordinates.
#[derive(Clone, Copy, PartialEq, Eq)]
pub struct Point {
    pub x: i32,
    pub y: i32,
}

/// The points of a line, of a ring, or points alone.
pub type Points = Items<Point>;

/// The rings of a polygon, its outer one first; or lines.
pub type Rings = Items<Points>;

/// Polygons, each by its rings.
pub type Polygons = Items<Rings>;

/// The members of a collection.
pub type Members = Items<Form>;

/// The seven kinds of geometries (OpenGIS Implementation Specification for Simple Features).
#[derive(Drop)]
pub enum Form {
    Point(Point),
    LineString(Points),
    Polygon(Rings),
    MultiPoint(Points),
    MultiLineString(Rings),
    MultiPolygon(Polygons),
    Collection(Members),
}

impl Duplicate for Point {
    fn copy(&self, _alloc: Global) -> Result<Point, AllocError> {
        Ok(*self)
    }
}

impl Duplicate for Form {
    fn copy(&self, alloc: Global) -> Result<Form, AllocError> {
        copied(alloc, self)
    }
}

fn copied(alloc: Global, form: &Form) -> Result<Form, AllocError>
    ensures { IfOk result (λ c. c ≡ form.now) }
{
    match form {
        Form::Point(point) => Ok(Form::Point(*point)),
        Form::LineString(points) => Ok(Form::LineString(points.copy(alloc)?)),
        Form::Polygon(rings) => Ok(Form::Polygon(rings.copy(alloc)?)),
        Form::MultiPoint(points) => Ok(Form::MultiPoint(points.copy(alloc)?)),
        Form::MultiLineString(lines) => Ok(Form::MultiLineString(lines.copy(alloc)?)),
        Form::MultiPolygon(polygons) => Ok(Form::MultiPolygon(polygons.copy(alloc)?)),
        Form::Collection(members) => {
            let mut copies = Items::new(alloc);
            for member in members.as_slice() {
                copies.push(copied(alloc, member)?)?;
            }
            Ok(Form::Collection(copies))
        }
    }
}
