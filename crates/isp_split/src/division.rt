//! The division of a page's entries in two.

ghost use Rattle.std.specs.Prelude.{◌≡◌, ◌*◌, ◌<◌, ◌≤◌, ◌+◌, ◌^◌, None, length, replicate, IfOk};
ghost use Rattle.isp_split.specs.Division.{Divides, IsNextOf, IsQuadraticSplit, begun, filled, needy_of, taken, with_rest};
ghost use Rattle.isp_split.specs.Groups.{HasFill, is_in, places_in};
ghost use Rattle.isp_split.specs.Pairs.{AreAreas};
ghost use Rattle.isp_split.specs.UnderWay.{CanFill, IsUnderWay};

use crate::areas::areas_of;
use crate::group::{Group, group_of, grown, side_for};
use crate::next::next;
use crate::seeds::seeds;
use crate::side::Side;
use isp_mbr::Box4;
use std::alloc::{AllocError, Global};

/// A division that is being made: the group of each entry, the two groups, and how many entries are left.
#[derive(Drop)]
pub(crate) struct Division {
    pub sides: Vec<Option<Side>>,
    pub first: Group,
    pub second: Group,
    pub left: usize,
}

/// The quadratic split (Guttman 1984): the places of the entries that stay on the old page, and of those that go to the new
/// one, each rising. Each part has at least `least` entries. The error is want of memory.
pub fn split(
    alloc: Global,
    boxes: &[Box4],
    least: usize,
) -> Result<(Vec<usize>, Vec<usize>), AllocError>
    requires least { 1 ≤ least }
    requires enough { 2 * least ≤ length boxes.now }
    ensures division { IfOk result (λ parts.
        IsQuadraticSplit boxes.now least parts.0.items parts.1.items) }
    ensures fill { IfOk result (λ parts.
        (least ≤ length parts.0.items) × (least ≤ length parts.1.items)) }
{
    let areas = areas_of(alloc, boxes)?;
    let (i, j) = seeds(boxes, &areas);
    let mut division = begin(alloc, boxes, &areas, i, j)?;
    divide(&mut division, boxes, least);
    let first = places(alloc, &division.sides, Side::First)?;
    let second = places(alloc, &division.sides, Side::Second)?;
    Ok((first, second))
}

// The groups of the two seeds.
fn begin(
    alloc: Global,
    boxes: &[Box4],
    areas: &[u128],
    i: usize,
    j: usize,
) -> Result<Division, AllocError>
    requires areas { AreAreas boxes.now areas.now }
    requires order { i < j }
    requires inside { j < length boxes.now }
    ensures sides { IfOk result (λ d. d.sides.items ≡ begun (length boxes.now) i j) }
    ensures counts { IfOk result (λ d. (d.first.count ≡ 1) × (d.second.count ≡ 1)) }
    ensures under_way { IfOk result (λ d. IsUnderWay boxes.now d) }
{
    let mut sides = all_left(alloc, boxes.len())?;
    sides[i] = Some(Side::First);
    sides[j] = Some(Side::Second);
    Ok(Division {
        sides,
        first: group_of(boxes, areas, i),
        second: group_of(boxes, areas, j),
        left: boxes.len() - 2,
    })
}

// So many entries that are left.
fn all_left(alloc: Global, n: usize) -> Result<Vec<Option<Side>>, AllocError>
    ensures { IfOk result (λ v. v.items ≡ replicate n None) }
{
    let mut sides = Vec::with_capacity(alloc, n)?;
    for _place in 0..n {
        sides.push(None)?;
    }
    Ok(sides)
}

// Entries are taken until none is left.
fn divide(division: &mut Division, boxes: &[Box4], least: usize)
    requires under_way { IsUnderWay boxes.now division.old }
    requires can_fill { CanFill least division.old }
    requires enough { 2 * least ≤ length boxes.now }
    ensures divides { Divides division.old.left boxes.now least
        division.old.sides.items division.new.sides.items }
    ensures fill { HasFill least division.new.sides.items }
{
    while division.left > 0 {
        if let Some(side) = needy(division, least) {
            fill(&mut division.sides, side);
            return;
        }
        take_next(division, boxes);
    }
}

// The group that needs all that are left, if one does.
fn needy(division: &Division, least: usize) -> Option<Side>
    requires { division.now.first.count + division.now.second.count + division.now.left < 2 ^ 64 }
    ensures { result ≡ needy_of least
        division.now.first.count division.now.second.count division.now.left }
{
    if division.first.count + division.left <= least {
        Some(Side::First)
    } else if division.second.count + division.left <= least {
        Some(Side::Second)
    } else {
        None
    }
}

// One group takes all that are left.
fn fill(sides: &mut Vec<Option<Side>>, side: Side)
    ensures { sides.new.items ≡ filled side sides.old.items }
{
    for entry in sides.iter_mut() {
        *entry = with_rest(side, *entry);
    }
}

// The group of an entry after this one took all that were left.
fn with_rest(side: Side, entry: Option<Side>) -> Option<Side>
    ensures { result ≡ with_rest side entry }
{
    match entry {
        None => Some(side),
        Some(other) => Some(other),
    }
}

// The next entry is taken by the group that it suits. Answers its place.
fn take_next(division: &mut Division, boxes: &[Box4]) -> usize
    requires under_way { IsUnderWay boxes.now division.old }
    requires left { 0 < division.old.left }
    ensures next { IsNextOf boxes.now division.old.sides.items result }
    ensures taken { division.new.sides.items ≡ taken boxes.now division.old.sides.items result }
    ensures left { division.new.left + 1 ≡ division.old.left }
    ensures counts { (division.old.first.count ≤ division.new.first.count)
        × (division.old.second.count ≤ division.new.second.count) }
    ensures under_way { IsUnderWay boxes.now division.new }
{
    let place = next(boxes, &division.sides, &division.first, &division.second);
    let side = side_for(&division.first, &division.second, &boxes[place]);
    match side {
        Side::First => division.first = grown(&division.first, &boxes[place]),
        Side::Second => division.second = grown(&division.second, &boxes[place]),
    }
    division.sides[place] = Some(side);
    division.left -= 1;
    place
}

// The places of a group's entries, rising.
fn places(alloc: Global, sides: &[Option<Side>], side: Side) -> Result<Vec<usize>, AllocError>
    ensures { IfOk result (λ v. v.items ≡ places_in side sides.now) }
{
    let mut places = Vec::new(alloc);
    for (place, other) in sides.iter().enumerate() {
        if is_in(side, *other) {
            places.push(place)?;
        }
    }
    Ok(places)
}

// Whether an entry belongs to the group.
fn is_in(side: Side, entry: Option<Side>) -> bool
    ensures { result ≡ is_in side entry }
{
    match (side, entry) {
        (Side::First, Some(Side::First)) => true,
        (Side::Second, Some(Side::Second)) => true,
        _ => false,
    }
}
