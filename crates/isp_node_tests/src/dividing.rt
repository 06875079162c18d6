//! Boxes that are divided.
use crate::making::boxes_of;
use isp_split::split;
use std::alloc::{AllocError, Global};
use std::test::Fail;

/// Boxes by their corners, a least fill, and the places of the two parts.
struct Row {
    least: usize,
    boxes: &'static [[i32; 4]],
    first: &'static [usize],
    second: &'static [usize],
}

const LOW: i32 = i32::MIN;

const HIGH: i32 = i32::MAX;

static ROWS: [Row; 7] = [
    Row {
        least: 2,
        boxes: &[
            [0, 0, 0, 0],
            [10, 0, 10, 0],
            [0, 10, 0, 10],
            [10, 10, 10, 10],
            [5, 5, 5, 5],
        ],
        first: &[0, 1, 4],
        second: &[2, 3],
    },
    Row {
        least: 2,
        boxes: &[
            [0, 0, 0, 0],
            [0, 0, 0, 0],
            [0, 0, 0, 0],
            [0, 0, 0, 0],
            [0, 0, 0, 0],
        ],
        first: &[0, 2, 4],
        second: &[1, 3],
    },
    Row {
        least: 2,
        boxes: &[
            [0, 0, 4, 4],
            [1, 1, 2, 2],
            [0, 0, 4, 4],
            [8, 8, 9, 9],
            [3, 3, 8, 8],
        ],
        first: &[0, 1, 2],
        second: &[3, 4],
    },
    Row {
        least: 2,
        boxes: &[
            [0, 0, 0, 0],
            [10, 10, 10, 10],
            [4, 4, 4, 4],
            [6, 6, 6, 6],
            [5, 5, 5, 5],
        ],
        first: &[0, 2, 4],
        second: &[1, 3],
    },
    Row {
        least: 3,
        boxes: &[
            [0, 0, 0, 0],
            [10, 0, 10, 0],
            [0, 10, 0, 10],
            [10, 10, 10, 10],
            [1, 1, 1, 1],
            [9, 9, 9, 9],
            [2, 8, 2, 8],
        ],
        first: &[0, 1, 4],
        second: &[2, 3, 5, 6],
    },
    Row {
        least: 2,
        boxes: &[
            [LOW, LOW, HIGH, HIGH],
            [LOW, LOW, HIGH, HIGH],
            [LOW, LOW, LOW, LOW],
            [HIGH, HIGH, HIGH, HIGH],
        ],
        first: &[0, 2],
        second: &[1, 3],
    },
    Row {
        least: 1,
        boxes: &[[3, 3, 3, 3], [3, 3, 3, 3], [3, 3, 3, 3]],
        first: &[0, 2],
        second: &[1],
    },
];

// Whether the boxes are divided as the row says.
fn is_divided(alloc: Global, row: &Row) -> Result<bool, AllocError> {
    let boxes = boxes_of(alloc, row.boxes)?;
    if row.least < 1 || boxes.len() / 2 < row.least {
        return Ok(false);
    }
    let parts = split(alloc, &boxes, row.least)?;
    Ok(parts.0.as_slice() == row.first && parts.1.as_slice() == row.second)
}

fn are_divided(alloc: Global) -> Result<bool, AllocError> {
    for row in &ROWS {
        let divided = is_divided(alloc, row)?;
        if !divided {
            return Ok(false);
        }
    }
    Ok(true)
}

#[test]
fn boxes_are_divided(rt: HostRuntime) -> Result<(), Fail> {
    let divided = are_divided(rt.alloc())?;
    assert!(rt; divided);
    Ok(())
}
