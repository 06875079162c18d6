//! Printing geometries as well-known text.

ghost use Rattle.std.specs.Prelude.{◌≡◌, ◌++◌, [], ◌∷◌, OnOk, IfOk, List, ℕ};
ghost use Rattle.std.specs.Fmt.{signed_decimal};
ghost use Rattle.isp_wkt.specs.Printed.{pair, enclosed, listed, marked, printed};
ghost use Rattle.isp_wkt.specs.Words.{word};
ghost use Rattle.isp_wkt.specs.Grammar.{IsText};
ghost use Rattle.isp_wkt.specs.declared.kind.Kind.TheVariants as kind;

use crate::kind::{Kind, word};
use isp_base::Bytes;
use isp_geom::{Form, Geometry, Point};
use itoa::Buffer;
use sqlite_items::Items;
use std::alloc::{AllocError, Global};

/// The geometry's canonical text: words in upper case, no blanks but one between the coordinates of a point, and
/// parentheses round each point of a MULTIPOINT. The error is want of memory.
pub fn print(alloc: Global, geometry: &Geometry) -> Result<Bytes, AllocError>
    ensures printed { IfOk result (λ text. text ≡ printed geometry.now) }
    ensures means { IfOk result (λ text. IsText geometry.now text) }
{
    let mut out = Vec::new(alloc);
    print_form(&mut out, geometry.form())?;
    Ok(Bytes::from_vec(out))
}

/// What is printed.
trait Text {
    ghost text: { Self → List ℕ };

    /// Adds the text at the end. The error is want of memory.
    fn print(&self, out: &mut Vec<u8>) -> Result<(), AllocError>
        ensures { OnOk result (out.new.items ≡ out.old.items ++ text self.now) };
}

impl Text for Point {
    ghost text = { pair };

    fn print(&self, out: &mut Vec<u8>) -> Result<(), AllocError> {
        print_pair(out, self.x, self.y)
    }
}

impl<T: Text> Text for Items<T> {
    ghost text = { listed T.text };

    fn print(&self, out: &mut Vec<u8>) -> Result<(), AllocError> {
        print_items(out, self.as_slice())
    }
}

fn print_pair(out: &mut Vec<u8>, x: i32, y: i32) -> Result<(), AllocError>
    ensures { OnOk result (out.new.items ≡ out.old.items ++ (signed_decimal x ++ 32 ∷ signed_decimal y)) }
{
    print_number(out, x)?;
    out.push(b' ')?;
    print_number(out, y)?;
    Ok(())
}

fn print_number(out: &mut Vec<u8>, z: i32) -> Result<(), AllocError>
    ensures { OnOk result (out.new.items ≡ out.old.items ++ signed_decimal z) }
{
    let mut buffer = Buffer::new();
    out.extend_from_slice(buffer.format(z).as_bytes())?;
    Ok(())
}

// Members with commas between them, in parentheses.
fn print_items<T: Text>(out: &mut Vec<u8>, items: &[T]) -> Result<(), AllocError>
    ensures { OnOk result (out.new.items ≡ out.old.items ++ listed T.text items.now) }
{
    let mut before = b'(';
    for item in items {
        out.push(before)?;
        item.print(out)?;
        before = b',';
    }
    out.push(b')')?;
    Ok(())
}

// A point in parentheses.
fn print_marked(out: &mut Vec<u8>, point: &Point) -> Result<(), AllocError>
    ensures { OnOk result (out.new.items ≡ out.old.items ++ marked point.now) }
{
    out.push(b'(')?;
    point.print(out)?;
    out.push(b')')?;
    Ok(())
}

// The points of a MULTIPOINT.
fn print_points(out: &mut Vec<u8>, points: &[Point]) -> Result<(), AllocError>
    ensures { OnOk result (out.new.items ≡ out.old.items ++ listed marked points.now) }
{
    let mut before = b'(';
    for point in points {
        out.push(before)?;
        print_marked(out, point)?;
        before = b',';
    }
    out.push(b')')?;
    Ok(())
}

#[cycle(forms)]
#[tactic(auto, using(crate::proofs::Texts::texts))]
fn print_form(out: &mut Vec<u8>, form: &Form) -> Result<(), AllocError>
    ensures { OnOk result (out.new.items ≡ out.old.items ++ printed form.now) }
{
    match form {
        Form::Point(point) => print_single(out, point),
        Form::LineString(points) => print_kind(out, Kind::LineString, points),
        Form::Polygon(rings) => print_kind(out, Kind::Polygon, rings),
        Form::MultiPoint(points) => print_multi(out, points.as_slice()),
        Form::MultiLineString(lines) => print_kind(out, Kind::MultiLineString, lines),
        Form::MultiPolygon(polygons) => print_kind(out, Kind::MultiPolygon, polygons),
        Form::Collection(members) => {
            print_word(out, Kind::Collection)?;
            print_members(out, members.as_slice())?;
            Ok(())
        }
    }
}

fn print_single(out: &mut Vec<u8>, point: &Point) -> Result<(), AllocError>
    ensures { OnOk result (out.new.items ≡ out.old.items ++ (word kind.Point ++ marked point.now)) }
{
    print_word(out, Kind::Point)?;
    print_marked(out, point)?;
    Ok(())
}

fn print_multi(out: &mut Vec<u8>, points: &[Point]) -> Result<(), AllocError>
    ensures { OnOk result (out.new.items ≡ out.old.items ++ (word kind.MultiPoint ++ listed marked points.now)) }
{
    print_word(out, Kind::MultiPoint)?;
    print_points(out, points)?;
    Ok(())
}

fn print_word(out: &mut Vec<u8>, kind: Kind) -> Result<(), AllocError>
    ensures { OnOk result (out.new.items ≡ out.old.items ++ word kind) }
{
    out.extend_from_slice(word(kind))?;
    Ok(())
}

// The word of a kind, and the body.
fn print_kind<T: Text>(out: &mut Vec<u8>, kind: Kind, body: &T) -> Result<(), AllocError>
    ensures { OnOk result (out.new.items ≡ out.old.items ++ (word kind ++ T.text body.now)) }
{
    print_word(out, kind)?;
    body.print(out)?;
    Ok(())
}

// The members of a collection.
#[cycle(forms)]
fn print_members(out: &mut Vec<u8>, members: &[Form]) -> Result<(), AllocError>
    ensures { OnOk result (out.new.items ≡ out.old.items ++ listed printed members.now) }
{
    let mut before = b'(';
    for member in members {
        out.push(before)?;
        print_form(out, member)?;
        before = b',';
    }
    out.push(b')')?;
    Ok(())
}
