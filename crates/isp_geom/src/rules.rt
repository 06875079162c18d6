//! Whether a form keeps the rules.

ghost use Rattle.std.specs.Prelude.{◌≡◌};
ghost use Rattle.isp_geom.specs.Rules.{is_coordinate, is_point, is_points, is_line, is_ring, is_closed, is_polygon, is_list, is_form, is_same, is_count};
ghost use Rattle.std.specs.List.{list_all};

use crate::{Form, Point, Points, Rings};

/// The greatest size of a coordinate.
const LIMIT: u32 = 1_073_741_824;

/// The greatest number of members of a list.
const MOST: usize = 65_535;

/// The most levels of a geometry: collections eight deep, and what lies in the innermost.
pub const LEVELS: u8 = 9;

fn is_coordinate(z: i32) -> bool
    ensures { result ≡ is_coordinate z }
{
    z.unsigned_abs() <= LIMIT
}

fn is_point(p: &Point) -> bool
    ensures { result ≡ is_point p.now }
{
    is_coordinate(p.x) && is_coordinate(p.y)
}

// Whether a list may have so many members.
fn is_count(count: usize, least: usize) -> bool
    ensures { result ≡ is_count least count }
{
    least <= count && count <= MOST
}

fn are_points(points: &[Point]) -> bool
    ensures { result ≡ list_all is_point points.now }
{
    points.iter().all(|p| is_point(p))
}

// Points alone.
fn is_points(points: &[Point]) -> bool
    ensures { result ≡ is_points points.now }
{
    is_count(points.len(), 1) && are_points(points)
}

fn is_line(points: &[Point]) -> bool
    ensures { result ≡ is_line points.now }
{
    is_count(points.len(), 2) && are_points(points)
}

fn is_ring(points: &[Point]) -> bool
    ensures { result ≡ is_ring points.now }
{
    is_long_enough(points) && is_closed(points)
}

// Whether a ring has enough points.
fn is_long_enough(points: &[Point]) -> bool
    ensures { result ≡ is_list is_point 4 points.now }
{
    is_count(points.len(), 4) && are_points(points)
}

fn is_same(p: &Point, q: &Point) -> bool
    ensures { result ≡ is_same p.now q.now }
{
    p.x == q.x && p.y == q.y
}

/// Whether the last point is the first. Without points there is none.
pub fn is_closed(points: &[Point]) -> bool
    ensures { result ≡ is_closed points.now }
{
    match (points.first(), points.last()) {
        (Some(first), Some(last)) => is_same(first, last),
        _ => false,
    }
}

fn are_rings(rings: &[Points]) -> bool
    ensures { result ≡ list_all is_ring rings.now }
{
    rings.iter().all(|r| is_ring(r.as_slice()))
}

fn is_polygon(rings: &[Points]) -> bool
    ensures { result ≡ is_polygon rings.now }
{
    is_count(rings.len(), 1) && are_rings(rings)
}

fn are_lines(lines: &[Points]) -> bool
    ensures { result ≡ list_all is_line lines.now }
{
    lines.iter().all(|l| is_line(l.as_slice()))
}

fn are_polygons(polygons: &[Rings]) -> bool
    ensures { result ≡ list_all is_polygon polygons.now }
{
    polygons.iter().all(|p| is_polygon(p.as_slice()))
}

/// Whether a form keeps the rules and has at most so many levels: a collection has one more than its members may have.
#[cycle(levels)]
#[tactic(auto, using(crate::proofs::Levels::levels), unfolding(crate::specs::Rules::is_form))]
pub fn is_form(form: &Form, levels: u8) -> bool
    ensures { result ≡ is_form levels form.now }
{
    if levels == 0 {
        return false;
    }
    match form {
        Form::Point(point) => is_point(point),
        Form::LineString(points) => is_line(points.as_slice()),
        Form::Polygon(rings) => is_polygon(rings.as_slice()),
        Form::MultiPoint(points) => is_points(points.as_slice()),
        Form::MultiLineString(lines) => { is_count(lines.len(), 1) && are_lines(lines.as_slice()) }
        Form::MultiPolygon(polygons) => {
            is_count(polygons.len(), 1) && are_polygons(polygons.as_slice())
        }
        Form::Collection(members) => {
            is_count(members.len(), 1) && are_members(members.as_slice(), levels - 1)
        }
    }
}

#[cycle(levels)]
fn are_members(members: &[Form], levels: u8) -> bool
    ensures { result ≡ list_all (is_form levels) members.now }
{
    for member in members {
        if !is_form(member, levels) {
            return false;
        }
    }
    true
}
