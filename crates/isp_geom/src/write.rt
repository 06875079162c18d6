//! The one spelling of a geometry.

ghost use Rattle.std.specs.Prelude.{◌≡◌, ◌++◌, OnOk, IfOk, List, ℕ, length, min, ◌+◌, ◌≤◌, ◌∷◌};
ghost use Rattle.isp_geom.specs.Spelling.{spelling, point, listed, coordinate};
ghost use Rattle.byteorder.specs.Endian.{big_bytes};
ghost use Rattle.std.specs.List.{flat_map};

use crate::{Form, Geometry, Point};
use byteorder::{BigEndian, ByteOrder};
use isp_base::Bytes;
use sqlite_items::Items;
use std::alloc::{AllocError, Global};

/// The one spelling of a geometry in bytes. The error is want of memory.
pub fn to_bytes(alloc: Global, geometry: &Geometry) -> Result<Bytes, AllocError>
    ensures { IfOk result (λ bytes. bytes ≡ spelling geometry.now) }
{
    let mut out = Vec::new(alloc);
    put_form(&mut out, geometry.form())?;
    Ok(Bytes::from_vec(out))
}

/// The length of the spelling in bytes, or 65,536 where that is less.
pub fn bytes_len(geometry: &Geometry) -> usize
    ensures { result ≡ min (length (spelling geometry.now)) 65536 }
{
    form_len(geometry.form())
}

// At most so many bytes are counted.
const MOST: usize = 65_536;

/// What is spelled in bytes.
trait Spell {
    ghost spelled: { Self → List ℕ };

    /// Adds the spelling at the end. The error is want of memory.
    fn put(&self, out: &mut Vec<u8>) -> Result<(), AllocError>
        ensures { OnOk result (out.new.items ≡ out.old.items ++ spelled self.now) };

    /// The length of the spelling, or 65,536 where that is less.
    fn spelled_len(&self) -> usize
        ensures { result ≡ min (length (spelled self.now)) 65536 };
}

impl Spell for Point {
    ghost spelled = { point };

    fn put(&self, out: &mut Vec<u8>) -> Result<(), AllocError> {
        put_pair(out, self.x, self.y)
    }

    fn spelled_len(&self) -> usize {
        8
    }
}

impl<T: Spell> Spell for Items<T> {
    ghost spelled = { listed T.spelled };

    fn put(&self, out: &mut Vec<u8>) -> Result<(), AllocError> {
        put_count(out, self.len())?;
        put_items(out, self.as_slice())?;
        Ok(())
    }

    fn spelled_len(&self) -> usize {
        items_len(self.as_slice())
    }
}

fn put_coordinate(out: &mut Vec<u8>, z: i32) -> Result<(), AllocError>
    ensures { OnOk result (out.new.items ≡ out.old.items ++ coordinate z) }
{
    let mut field = [0; 4];
    BigEndian::write_u32(&mut field, z.cast_unsigned());
    out.extend_from_slice(&field)?;
    Ok(())
}

fn put_pair(out: &mut Vec<u8>, x: i32, y: i32) -> Result<(), AllocError>
    ensures { OnOk result (out.new.items ≡ out.old.items ++ (coordinate x ++ coordinate y)) }
{
    put_coordinate(out, x)?;
    put_coordinate(out, y)?;
    Ok(())
}

// Two bytes for the number of members.
fn put_count(out: &mut Vec<u8>, count: usize) -> Result<(), AllocError>
    ensures { OnOk result (out.new.items ≡ out.old.items ++ big_bytes 2 count) }
{
    let mut field = [0; 2];
    BigEndian::write_u16(&mut field, (count % 65_536) as u16);
    out.extend_from_slice(&field)?;
    Ok(())
}

fn put_items<T: Spell>(out: &mut Vec<u8>, items: &[T]) -> Result<(), AllocError>
    ensures { OnOk result (out.new.items ≡ out.old.items ++ flat_map T.spelled items.now) }
{
    for item in items {
        item.put(out)?;
    }
    Ok(())
}

// The length of a list's spelling.
fn items_len<T: Spell>(items: &[T]) -> usize
    ensures { result ≡ min (length (listed T.spelled items.now)) 65536 }
{
    let mut len = 2;
    for item in items {
        len = capped(len, item.spelled_len());
    }
    len
}

// The sum, or 65,536 where that is less.
fn capped(a: usize, b: usize) -> usize
    requires { (a ≤ 65536) × (b ≤ 65536) }
    ensures { result ≡ min (a + b) 65536 }
{
    let sum = a + b;
    if sum < MOST { sum } else { MOST }
}

#[cycle(putting)]
#[tactic(auto, using(crate::proofs::Spellings::spellings))]
fn put_form(out: &mut Vec<u8>, form: &Form) -> Result<(), AllocError>
    ensures { OnOk result (out.new.items ≡ out.old.items ++ spelling form.now) }
{
    match form {
        Form::Point(point) => {
            put_kind(out, 1, point)?;
            Ok(())
        }
        Form::LineString(points) => {
            put_kind(out, 2, points)?;
            Ok(())
        }
        Form::Polygon(rings) => {
            put_kind(out, 3, rings)?;
            Ok(())
        }
        Form::MultiPoint(points) => {
            put_kind(out, 4, points)?;
            Ok(())
        }
        Form::MultiLineString(lines) => {
            put_kind(out, 5, lines)?;
            Ok(())
        }
        Form::MultiPolygon(polygons) => {
            put_kind(out, 6, polygons)?;
            Ok(())
        }
        Form::Collection(members) => {
            out.push(7)?;
            put_count(out, members.len())?;
            put_members(out, members.as_slice())?;
            Ok(())
        }
    }
}

#[cycle(putting)]
fn put_members(out: &mut Vec<u8>, members: &[Form]) -> Result<(), AllocError>
    ensures { OnOk result (out.new.items ≡ out.old.items ++ flat_map spelling members.now) }
{
    for member in members {
        put_form(out, member)?;
    }
    Ok(())
}

// The byte of a kind, and the body.
fn put_kind<T: Spell>(out: &mut Vec<u8>, kind: u8, body: &T) -> Result<(), AllocError>
    ensures { OnOk result (out.new.items ≡ out.old.items ++ kind ∷ T.spelled body.now) }
{
    out.push(kind)?;
    body.put(out)?;
    Ok(())
}

// The length of a form's spelling, or 65,536 where that is less.
#[cycle(lengths)]
#[tactic(auto, using(crate::proofs::Spellings::spellings))]
fn form_len(form: &Form) -> usize
    ensures { result ≡ min (length (spelling form.now)) 65536 }
{
    match form {
        Form::Point(point) => capped(1, point.spelled_len()),
        Form::LineString(points) => capped(1, points.spelled_len()),
        Form::Polygon(rings) => capped(1, rings.spelled_len()),
        Form::MultiPoint(points) => capped(1, points.spelled_len()),
        Form::MultiLineString(lines) => capped(1, lines.spelled_len()),
        Form::MultiPolygon(polygons) => capped(1, polygons.spelled_len()),
        Form::Collection(members) => capped(1, members_len(members.as_slice())),
    }
}

#[cycle(lengths)]
fn members_len(members: &[Form]) -> usize
    ensures { result ≡ min (length (listed spelling members.now)) 65536 }
{
    let mut len = 2;
    for member in members {
        len = capped(len, form_len(member));
    }
    len
}
