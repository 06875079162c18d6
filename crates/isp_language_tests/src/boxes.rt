//! Boxes and the five tests on them, strings of bytes and copies.

use isp_base::{Bytes, Duplicate, Name};
use isp_mbr::{
    Box4, Predicate, Test, area, covers, enlargement, law_may_hold_grows,
    law_may_hold_of_satisfying, may_hold, meets, satisfies, union,
};
use sqlite_items::Items;
use std::alloc::{AllocError, Global};
use std::test::Fail;

static TESTS: [Test; 5] = [
    Test::Covers,
    Test::Within,
    Test::Intersects,
    Test::Disjoint,
    Test::Equals,
];

const YES: bool = true;

const NO: bool = false;

// The corners of a box, which of the tests it meets against the box from (0, 0) to (4, 4), and for which of them it may
// hold a box that does. The boxes are equal, inside, around, crossing, touching at an edge and at a corner, apart by both
// axes, by x, by y, and inside at an edge.
static CASES: [([i32; 4], [bool; 5], [bool; 5]); 10] = [
    (
        [0, 0, 4, 4],
        [YES, YES, YES, NO, YES],
        [YES, YES, YES, NO, YES],
    ),
    ([1, 1, 3, 3], [NO, YES, YES, NO, NO], [NO, YES, YES, NO, NO]),
    (
        [-1, -1, 5, 5],
        [YES, NO, YES, NO, NO],
        [YES, YES, YES, YES, YES],
    ),
    (
        [-1, 1, 5, 2],
        [NO, NO, YES, NO, NO],
        [NO, YES, YES, YES, NO],
    ),
    ([4, 0, 8, 4], [NO, NO, YES, NO, NO], [NO, YES, YES, YES, NO]),
    ([4, 4, 6, 6], [NO, NO, YES, NO, NO], [NO, YES, YES, YES, NO]),
    ([6, 6, 7, 7], [NO, NO, NO, YES, NO], [NO, NO, NO, YES, NO]),
    ([5, 0, 6, 4], [NO, NO, NO, YES, NO], [NO, NO, NO, YES, NO]),
    ([0, -3, 4, -1], [NO, NO, NO, YES, NO], [NO, NO, NO, YES, NO]),
    ([0, 0, 2, 4], [NO, YES, YES, NO, NO], [NO, YES, YES, NO, NO]),
];

fn box_of(corners: &[i32; 4]) -> Option<Box4> {
    let [x1, y1, x2, y2] = *corners;
    Box4::new(x1, y1, x2, y2)
}

// Whether the box meets these of the tests, and may hold a box that meets those.
fn meets_these(b: &Box4, q: &Box4, met: &[bool; 5], held: &[bool; 5]) -> bool {
    for (i, test) in TESTS.iter().enumerate() {
        let p = Predicate { test: *test, q: *q };
        if satisfies(&p, b) != met[i] || may_hold(&p, b) != held[i] {
            return false;
        }
    }
    true
}

fn is_case(q: &Box4, corners: &[i32; 4], met: &[bool; 5], held: &[bool; 5]) -> bool {
    match box_of(corners) {
        Some(b) => meets_these(&b, q, met, held),
        None => false,
    }
}

fn are_cases(q: &Box4, cases: &[([i32; 4], [bool; 5], [bool; 5])]) -> bool {
    for (corners, met, held) in cases {
        if !is_case(q, corners, met, held) {
            return false;
        }
    }
    true
}

fn boxes_meet_tests() -> bool {
    match Box4::new(0, 0, 4, 4) {
        Some(q) => are_cases(&q, &CASES),
        None => false,
    }
}

// Whether the third box is the union of the first two.
fn is_union(a: &Box4, b: &Box4, both: &Box4) -> bool {
    union(a, b) == *both && covers(both, a) && !covers(a, b) && meets(a, b)
}

fn boxes_grow() -> bool {
    let (Some(a), Some(b), Some(both)) = (
        Box4::new(0, 0, 2, 3),
        Box4::new(-1, 1, 1, 7),
        Box4::new(-1, 0, 2, 7),
    ) else {
        return false;
    };
    is_union(&a, &b, &both) && area(&a) == 6 && enlargement(&a, &b) == 15
}

fn the_greatest_has_an_area() -> bool {
    match Box4::new(i32::MIN, i32::MIN, i32::MAX, i32::MAX) {
        Some(all) => area(&all) == 18_446_744_065_119_617_025,
        None => false,
    }
}

#[test]
fn five_tests_on_ten_boxes(rt: HostRuntime) {
    assert!(rt; boxes_meet_tests());
}

#[test]
fn boxes_have_areas(rt: HostRuntime) {
    assert!(rt; boxes_grow() && the_greatest_has_an_area());
}

#[test]
fn corners_are_ordered(rt: HostRuntime) {
    law_may_hold_of_satisfying();
    law_may_hold_grows();
    assert!(rt; Box4::new(1, 0, 0, 0).is_none() && Box4::new(0, 1, 0, 0).is_none());
}

fn spelled(alloc: Global) -> Result<Name, AllocError> {
    let mut name = Name::new(alloc);
    name.push(b'p')?;
    name.push(b't')?;
    Ok(name)
}

fn names_are_equal(alloc: Global) -> Result<bool, AllocError> {
    let name = spelled(alloc)?;
    let same = Bytes::from_slice(alloc, b"pt")?;
    Ok(name == same && name.as_slice() == b"pt".as_slice())
}

fn names_differ(alloc: Global) -> Result<bool, AllocError> {
    let name = spelled(alloc)?;
    let bytes = Vec::from_slice(alloc, b"p")?;
    let other = Bytes::from_vec(bytes);
    Ok(name != other && name.into_vec().len() == 2)
}

fn lists_are_copied(alloc: Global) -> Result<bool, AllocError> {
    let name = spelled(alloc)?;
    let mut names = Items::new(alloc);
    names.push(name)?;
    let again = names.copy(alloc)?;
    Ok(again.len() == 1)
}

fn numbers_are_copied(alloc: Global) -> Result<bool, AllocError> {
    let small = 7u32.copy(alloc)?;
    let negative = (-7i64).copy(alloc)?;
    Ok(small == 7 && negative == -7)
}

#[test]
fn bytes_are_compared(rt: HostRuntime) -> Result<(), Fail> {
    let equal = names_are_equal(rt.alloc())?;
    let other = names_differ(rt.alloc())?;
    assert!(rt; equal && other);
    Ok(())
}

#[test]
fn values_are_copied(rt: HostRuntime) -> Result<(), Fail> {
    let lists = lists_are_copied(rt.alloc())?;
    let numbers = numbers_are_copied(rt.alloc())?;
    assert!(rt; lists && numbers);
    Ok(())
}
