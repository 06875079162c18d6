//! Boxes, and what two boxes have to do with each other.

ghost use Rattle.std.specs.Prelude.{◌≡◌, ◌↔◌, ◌<◌, ◌^◌, ◌≤ℤ◌, IsSome, IfSome, int_le, ◌==◌, ◌&&◌, ◌+◌};
ghost use Rattle.std.specs.Int.{int_min, int_max};
ghost use Rattle.isp_mbr.specs.Boxes.{IsBox, spans, overlap, side, covers, meets, union, area, enlargement};

use std::marker::Model;

/// A closed rectangle of whole numbers, with `x1 <= x2` and `y1 <= y2`: a minimum bounding rectangle (the MySQL 8.0
/// manual). Contracts see it as its four numbers.
#[derive(Clone, Copy, Debug, PartialEq, Eq)]
pub struct Box4 {
    pub x1: i32,
    pub y1: i32,
    pub x2: i32,
    pub y2: i32,
}

impl Model for Box4 {
    ghost use Rattle.std.specs.Prelude.{◌≤ℤ◌};
    ghost use Rattle.isp_mbr.specs.Corners.{Corners};

    ghost Value = { Corners };

    ghost view = { λ b. record { x1 = b.x1; y1 = b.y1; x2 = b.x2; y2 = b.y2 } };

    ghost invariant = { λ b. (b.x1 ≤ℤ b.x2) × (b.y1 ≤ℤ b.y2) };

    ghost inverse = { λ c. record { x1 = c.x1; y1 = c.y1; x2 = c.x2; y2 = c.y2 } };
}

impl Box4 {
    /// The box with these corners: None where a first corner is past its second one.
    pub fn new(x1: i32, y1: i32, x2: i32, y2: i32) -> Option<Box4>
        ensures ordered { IsSome result ↔ ((x1 ≤ℤ x2) × (y1 ≤ℤ y2)) }
        ensures corners { IfSome result (λ b. b ≡ record { x1 = x1; y1 = y1; x2 = x2; y2 = y2 }) }
    {
        if x1 <= x2 && y1 <= y2 {
            Some(Box4 { x1, y1, x2, y2 })
        } else {
            None
        }
    }
}

/// The least box round both (Guttman 1984).
pub fn union(a: &Box4, b: &Box4) -> Box4
    ensures { result ≡ union a.now b.now }
{
    Box4 {
        x1: lesser(a.x1, b.x1),
        y1: lesser(a.y1, b.y1),
        x2: greater(a.x2, b.x2),
        y2: greater(a.y2, b.y2),
    }
}

/// Whether each point of `b` is a point of `a`.
pub fn covers(a: &Box4, b: &Box4) -> bool
    ensures { result ≡ covers a.now b.now }
{
    is_span(a.x1, a.x2, b.x1, b.x2) && is_span(a.y1, a.y2, b.y1, b.y2)
}

/// Whether the two boxes have a point in common; their edges count.
pub fn meets(a: &Box4, b: &Box4) -> bool
    ensures { result ≡ meets a.now b.now }
{
    is_overlap(a.x1, a.x2, b.x1, b.x2) && is_overlap(a.y1, a.y2, b.y1, b.y2)
}

/// Width times height, in square units.
pub fn area(b: &Box4) -> u128
    ensures product { result ≡ area b.now }
    ensures ordered { IsBox b.now }
{
    u128::from(length_of(b.x1, b.x2)) * u128::from(length_of(b.y1, b.y2))
}

/// By how much the area of `b` grows where it has to cover `add` too, in square units (Guttman 1984).
pub fn enlargement(b: &Box4, add: &Box4) -> u128
    ensures { result ≡ enlargement b.now add.now }
{
    let old = area(b);
    area(&union(b, add)) - old
}

// Whether `first..last` lies in `low..high`.
fn is_span(low: i32, high: i32, first: i32, last: i32) -> bool
    ensures { result ≡ spans low high first last }
{
    low <= first && last <= high
}

// Whether `first..last` and `low..high` have a number in common.
fn is_overlap(low: i32, high: i32, first: i32, last: i32) -> bool
    ensures { result ≡ overlap low high first last }
{
    low <= last && first <= high
}

fn lesser(a: i32, b: i32) -> i32
    ensures { result ≡ int_min a b }
{
    if b < a { b } else { a }
}

fn greater(a: i32, b: i32) -> i32
    ensures { result ≡ int_max a b }
{
    if b < a { a } else { b }
}

// How far `high` is from `low`.
fn length_of(low: i32, high: i32) -> u32
    ensures { result ≡ side low high }
{
    high.abs_diff(low)
}
