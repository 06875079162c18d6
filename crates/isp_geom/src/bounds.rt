//! The box of a geometry.

ghost use Rattle.std.specs.Prelude.{◌≡◌, Some, Option};
ghost use Rattle.std.specs.List.{fold, flat_map};
ghost use Rattle.isp_geom.specs.Bounds.{points_of, widened, box_round, corner};

use crate::{Form, Geometry, Point, Points, Rings};
use isp_mbr::{Box4, union};

/// The least box round all points of a geometry: its minimum bounding rectangle (the MySQL 8.0 manual).
pub fn box_of(geometry: &Geometry) -> Box4
    ensures { box_round (points_of geometry.now) ≡ Some result }
{
    round_form(None, geometry.form()).unwrap()
}

// The box of one point.
fn box_at(x: i32, y: i32) -> Box4
    ensures { result ≡ record { x1 = x; y1 = y; x2 = x; y2 = y } }
{
    Box4 {
        x1: x,
        y1: y,
        x2: x,
        y2: y,
    }
}

fn box_of_point(point: &Point) -> Box4
    ensures { result ≡ corner point.now }
{
    box_at(point.x, point.y)
}

// The least box round these and one more point.
fn round_point(seen: Option<Box4>, point: &Point) -> Option<Box4>
    ensures { result ≡ widened seen point.now }
{
    let at = box_of_point(point);
    match seen {
        Some(seen) => Some(union(&seen, &at)),
        None => Some(at),
    }
}

fn round_points(seen: Option<Box4>, points: &[Point]) -> Option<Box4>
    ensures { result ≡ fold widened seen points.now }
{
    let mut round = seen;
    for point in points {
        round = round_point(round, point);
    }
    round
}

fn round_rings(seen: Option<Box4>, rings: &[Points]) -> Option<Box4>
    ensures { result ≡ fold widened seen (flat_map (λ ring. ring) rings.now) }
{
    let mut round = seen;
    for ring in rings {
        round = round_points(round, ring.as_slice());
    }
    round
}

fn round_polygons(seen: Option<Box4>, polygons: &[Rings]) -> Option<Box4>
    ensures { result ≡ fold widened seen (flat_map (flat_map (λ ring. ring)) polygons.now) }
{
    let mut round = seen;
    for polygon in polygons {
        round = round_rings(round, polygon.as_slice());
    }
    round
}

// The least box round a box and all points of a form.
#[cycle(rounding)]
#[tactic(auto, using(crate::proofs::AllPoints::all_points))]
fn round_form(seen: Option<Box4>, form: &Form) -> Option<Box4>
    ensures { result ≡ fold widened seen (points_of form.now) }
{
    match form {
        Form::Point(point) => round_point(seen, point),
        Form::LineString(points) => round_points(seen, points.as_slice()),
        Form::Polygon(rings) => round_rings(seen, rings.as_slice()),
        Form::MultiPoint(points) => round_points(seen, points.as_slice()),
        Form::MultiLineString(lines) => round_rings(seen, lines.as_slice()),
        Form::MultiPolygon(polygons) => round_polygons(seen, polygons.as_slice()),
        Form::Collection(members) => round_members(seen, members.as_slice()),
    }
}

#[cycle(rounding)]
fn round_members(seen: Option<Box4>, members: &[Form]) -> Option<Box4>
    ensures { result ≡ fold widened seen (flat_map points_of members.now) }
{
    let mut round = seen;
    for member in members {
        round = round_form(round, member);
    }
    round
}
