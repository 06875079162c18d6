//! Reading geometries from bytes.

ghost use Rattle.std.specs.Prelude.{◌≡◌, ◌≢◌, IfOk, Err, OnOk, Option, List, ℕ, []};
ghost use Rattle.isp_geom.specs.Reading.{Gives, point_at, list_at, items_at, form_at, body_at, whole_at};
ghost use Rattle.isp_geom.specs.Rules.{IsGeometry};
ghost use Rattle.isp_geom.specs.Spelling.{spelling};
ghost use Rattle.isp_geom.specs.declared.error.GeomError.TheVariants.{NotGeometry};
ghost use Rattle.isp_geom.specs.declared.form.Form.{Form};

use crate::cursor::Cursor;
use crate::rules::LEVELS;
use crate::{Form, GeomError, Geometry, Members, Point, Points, Polygons, Rings};
use sqlite_items::Items;
use std::alloc::Global;

/// What is read from the front of bytes.
trait Read: Drop {
    ghost read_at: { List ℕ → Option (Self × List ℕ) };

    fn read(alloc: Global, from: &mut Cursor<'_>) -> Result<Self, GeomError>
        ensures { Gives result (read_at from.old) from.new };
}

impl Read for Point {
    ghost read_at = { point_at };

    fn read(_alloc: Global, from: &mut Cursor<'_>) -> Result<Point, GeomError> {
        match from.point() {
            Some(point) => Ok(point),
            None => Err(GeomError::NotGeometry),
        }
    }
}

impl<T: Read> Read for Items<T> {
    ghost read_at = { list_at T.read_at };

    #[tactic(auto, unfolding(crate::specs::Reading::list_at))]
    fn read(alloc: Global, from: &mut Cursor<'_>) -> Result<Items<T>, GeomError> {
        match from.count() {
            Some(count) => items(alloc, from, count),
            None => Err(GeomError::NotGeometry),
        }
    }
}

// So many values, one after another.
fn items<T: Read>(alloc: Global, from: &mut Cursor<'_>, count: u16) -> Result<Items<T>, GeomError>
    ensures { Gives result (items_at T.read_at count from.old) from.new }
{
    let mut found = Items::new(alloc);
    for _ in 0..count {
        found.push(T::read(alloc, from)?)?;
    }
    Ok(found)
}

// A form with at most so many levels.
#[cycle(forms)]
#[tactic(auto, unfolding(crate::specs::Reading::form_at))]
fn form(alloc: Global, from: &mut Cursor<'_>, levels: u8) -> Result<Form, GeomError>
    ensures { Gives result (form_at levels from.old) from.new }
{
    if levels == 0 {
        return Err(GeomError::NotGeometry);
    }
    let Some(kind) = from.byte() else {
        return Err(GeomError::NotGeometry);
    };
    if kind == 7 {
        let members = members(alloc, from, levels - 1)?;
        return Ok(Form::Collection(members));
    }
    body(alloc, from, kind)
}

// The body of a form that is no collection.
fn body(alloc: Global, from: &mut Cursor<'_>, kind: u8) -> Result<Form, GeomError>
    ensures { Gives result (body_at kind from.old) from.new }
{
    match kind {
        1 => Ok(Form::Point(Point::read(alloc, from)?)),
        2 => Ok(Form::LineString(Points::read(alloc, from)?)),
        3 => Ok(Form::Polygon(Rings::read(alloc, from)?)),
        4 => Ok(Form::MultiPoint(Points::read(alloc, from)?)),
        5 => Ok(Form::MultiLineString(Rings::read(alloc, from)?)),
        6 => Ok(Form::MultiPolygon(Polygons::read(alloc, from)?)),
        _ => Err(GeomError::NotGeometry),
    }
}

#[cycle(forms)]
#[tactic(auto, unfolding(crate::specs::Reading::list_at))]
fn members(alloc: Global, from: &mut Cursor<'_>, levels: u8) -> Result<Members, GeomError>
    ensures { Gives result (list_at (form_at levels) from.old) from.new }
{
    match from.count() {
        Some(count) => so_many(alloc, from, count, levels),
        None => Err(GeomError::NotGeometry),
    }
}

// So many members, one after another.
#[cycle(forms)]
fn so_many(
    alloc: Global,
    from: &mut Cursor<'_>,
    count: u16,
    levels: u8,
) -> Result<Members, GeomError>
    ensures { Gives result (items_at (form_at levels) count from.old) from.new }
{
    let mut found = Items::new(alloc);
    for _ in 0..count {
        found.push(form(alloc, from, levels)?)?;
    }
    Ok(found)
}

// The form that all of the bytes spell.
fn whole(alloc: Global, bytes: &[u8]) -> Result<Form, GeomError>
    ensures { Gives result (whole_at (form_at 9 bytes.now)) [] }
{
    let mut from = Cursor::new(bytes);
    let form = form(alloc, &mut from, LEVELS)?;
    if from.is_empty() {
        Ok(form)
    } else {
        Err(GeomError::NotGeometry)
    }
}

/// The geometry that the bytes spell, all of them. NotGeometry comes exactly where no geometry is spelled so, and
/// OutOfMemory is want of memory.
pub fn from_bytes(alloc: Global, bytes: &[u8]) -> Result<Geometry, GeomError>
    ensures found { IfOk result (λ g. IsGeometry g × (bytes.now ≡ spelling g)) }
    ensures again { (g : Form) → IsGeometry g → bytes.now ≡ spelling g → IfOk result (λ read. read ≡ g) }
    ensures refused { result ≡ Err NotGeometry → (g : Form) → IsGeometry g → bytes.now ≢ spelling g }
{
    let form = whole(alloc, bytes)?;
    match Geometry::new(form) {
        Some(geometry) => Ok(geometry),
        None => Err(GeomError::NotGeometry),
    }
}
