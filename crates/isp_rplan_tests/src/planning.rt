//! Paths of which a page overflows, and of which none does.
use crate::making::{Given, path_of};
use isp_forest::{Entry, To};
use isp_format::PageNo;
use isp_mbr::Box4;
use isp_rplan::{Planned, plan};
use std::alloc::{AllocError, Global};
use std::test::Fail;

/// What is made of a page: the boxes of the entries that stay, of those that move, and the box round all where some do.
struct Made {
    stays: &'static [[i32; 4]],
    moves: &'static [[i32; 4]],
    round: [i32; 4],
}

/// A path from the root down, an entry's box, and what is made of the pages with at most four entries a page.
struct Row {
    path: &'static [Given],
    corners: [i32; 4],
    made: &'static [Made],
}

const NONE: [i32; 4] = [0, 0, 0, 0];

static ROWS: [Row; 5] = [
    // the root is a leaf and overflows
    Row {
        path: &[Given {
            page: 17,
            level: 0,
            boxes: &[
                [0, 0, 0, 0],
                [10, 0, 10, 0],
                [0, 10, 0, 10],
                [10, 10, 10, 10],
            ],
        }],
        corners: [5, 5, 5, 5],
        made: &[Made {
            stays: &[[0, 0, 0, 0], [10, 0, 10, 0], [5, 5, 5, 5]],
            moves: &[[0, 10, 0, 10], [10, 10, 10, 10]],
            round: [0, 0, 10, 10],
        }],
    },
    // the leaf is full then, and stays whole
    Row {
        path: &[
            Given {
                page: 17,
                level: 1,
                boxes: &[[0, 0, 10, 5], [0, 10, 10, 10]],
            },
            Given {
                page: 19,
                level: 0,
                boxes: &[[0, 0, 0, 0], [10, 0, 10, 0], [5, 5, 5, 5]],
            },
        ],
        corners: [9, 1, 9, 1],
        made: &[
            Made {
                stays: &[[0, 0, 10, 5], [0, 10, 10, 10]],
                moves: &[],
                round: NONE,
            },
            Made {
                stays: &[[0, 0, 0, 0], [10, 0, 10, 0], [5, 5, 5, 5], [9, 1, 9, 1]],
                moves: &[],
                round: NONE,
            },
        ],
    },
    // the leaf overflows: the root's box for it shrinks to the least one
    Row {
        path: &[
            Given {
                page: 17,
                level: 1,
                boxes: &[[0, 0, 10, 5], [0, 10, 10, 10]],
            },
            Given {
                page: 19,
                level: 0,
                boxes: &[[0, 0, 0, 0], [10, 0, 10, 0], [5, 5, 5, 5], [9, 1, 9, 1]],
            },
        ],
        corners: [9, 2, 9, 2],
        made: &[
            Made {
                stays: &[[0, 0, 10, 0], [0, 10, 10, 10], [5, 1, 9, 5]],
                moves: &[],
                round: NONE,
            },
            Made {
                stays: &[[0, 0, 0, 0], [10, 0, 10, 0]],
                moves: &[[5, 5, 5, 5], [9, 1, 9, 1], [9, 2, 9, 2]],
                round: [0, 0, 10, 5],
            },
        ],
    },
    // nothing overflows: the box on the way grows, and no other
    Row {
        path: &[
            Given {
                page: 17,
                level: 2,
                boxes: &[[0, 0, 10, 5], [0, 10, 10, 10]],
            },
            Given {
                page: 20,
                level: 1,
                boxes: &[[0, 10, 4, 10], [6, 10, 10, 10]],
            },
            Given {
                page: 19,
                level: 0,
                boxes: &[[0, 10, 0, 10], [4, 10, 4, 10]],
            },
        ],
        corners: [-3, 12, -3, 12],
        made: &[
            Made {
                stays: &[[0, 0, 10, 5], [-3, 10, 10, 12]],
                moves: &[],
                round: NONE,
            },
            Made {
                stays: &[[-3, 10, 4, 12], [6, 10, 10, 10]],
                moves: &[],
                round: NONE,
            },
            Made {
                stays: &[[0, 10, 0, 10], [4, 10, 4, 10], [-3, 12, -3, 12]],
                moves: &[],
                round: NONE,
            },
        ],
    },
    // the leaf overflows, and so does the root
    Row {
        path: &[
            Given {
                page: 17,
                level: 1,
                boxes: &[
                    [0, 0, 3, 3],
                    [20, 0, 30, 9],
                    [0, 20, 9, 30],
                    [20, 20, 30, 30],
                ],
            },
            Given {
                page: 19,
                level: 0,
                boxes: &[[0, 0, 0, 0], [2, 2, 2, 2], [1, 3, 1, 3], [3, 1, 3, 1]],
            },
        ],
        corners: [9, 8, 9, 8],
        made: &[
            Made {
                stays: &[[0, 0, 3, 2], [20, 0, 30, 9], [1, 3, 9, 8]],
                moves: &[[0, 20, 9, 30], [20, 20, 30, 30]],
                round: [0, 0, 30, 30],
            },
            Made {
                stays: &[[0, 0, 0, 0], [2, 2, 2, 2], [3, 1, 3, 1]],
                moves: &[[1, 3, 1, 3], [9, 8, 9, 8]],
                round: [0, 0, 9, 8],
            },
        ],
    },
];

// Whether these are the box's corners.
fn is_box(b: &Box4, c: [i32; 4]) -> bool {
    b.x1 == c[0] && b.y1 == c[1] && b.x2 == c[2] && b.y2 == c[3]
}

// Whether the entries have these boxes, one after the other.
fn have_boxes(entries: &[Entry], boxes: &[[i32; 4]]) -> bool {
    for (i, e) in entries.iter().enumerate() {
        match boxes.get(i) {
            Some(c) => {
                if !is_box(&e.b, *c) {
                    return false;
                }
            }
            None => return false,
        }
    }
    entries.len() == boxes.len()
}

// Whether that is made of the page.
fn is_made(step: &Planned, made: &Made) -> bool {
    if !have_boxes(&step.stays, made.stays) {
        return false;
    }
    match &step.moves {
        Some(m) => {
            !made.moves.is_empty()
                && have_boxes(&m.entries, made.moves)
                && is_box(&m.round, made.round)
        }
        None => made.moves.is_empty(),
    }
}

// Whether that is made of the pages, one after the other.
fn are_made(steps: &[Planned], made: &[Made]) -> bool {
    for (i, step) in steps.iter().enumerate() {
        match made.get(i) {
            Some(m) => {
                if !is_made(step, m) {
                    return false;
                }
            }
            None => return false,
        }
    }
    steps.len() == made.len()
}

// Whether the path has the row's plan.
fn is_planned(alloc: Global, row: &Row) -> Result<bool, AllocError> {
    let c = row.corners;
    let b = match Box4::new(c[0], c[1], c[2], c[3]) {
        Some(b) => b,
        None => return Ok(false),
    };
    let path = path_of(alloc, row.path)?;
    let steps = plan(alloc, path, &b, 4)?;
    Ok(are_made(&steps, row.made))
}

fn are_planned(alloc: Global) -> Result<bool, AllocError> {
    for row in &ROWS {
        let planned = is_planned(alloc, row)?;
        if !planned {
            return Ok(false);
        }
    }
    Ok(true)
}

#[test]
fn paths_are_planned(rt: HostRuntime) -> Result<(), Fail> {
    let planned = are_planned(rt.alloc())?;
    assert!(rt; planned);
    Ok(())
}

// Where the new entry of a divided leaf's parent leads: nowhere yet, and the others where they led.
fn new_leads_nowhere(alloc: Global) -> Result<bool, AllocError> {
    let row = &ROWS[2];
    let b = match Box4::new(9, 2, 9, 2) {
        Some(b) => b,
        None => return Ok(false),
    };
    let path = path_of(alloc, row.path)?;
    let steps = plan(alloc, path, &b, 4)?;
    Ok(match steps.first() {
        Some(root) => lead_to(&root.stays, &[19, 20, 0]),
        None => false,
    })
}

// Whether the entries lead to these pages.
fn lead_to(entries: &[Entry], pages: &[u32]) -> bool {
    for (i, e) in entries.iter().enumerate() {
        match pages.get(i) {
            Some(page) => {
                if e.to != To::Child(PageNo(*page)) {
                    return false;
                }
            }
            None => return false,
        }
    }
    entries.len() == pages.len()
}

#[test]
fn a_new_entry_leads_nowhere(rt: HostRuntime) -> Result<(), Fail> {
    let nowhere = new_leads_nowhere(rt.alloc())?;
    assert!(rt; nowhere);
    Ok(())
}
