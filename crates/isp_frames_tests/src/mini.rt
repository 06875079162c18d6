//! Extents and bodies, worked out by hand.

use isp_format::PageNo;
use isp_mini::{Body, Changes};
use std::alloc::{AllocError, Global};
use std::test::Fail;

/// Changes as page, place and length; and the extents that they leave, as page, first byte and the byte behind the last.
struct Row {
    changes: &'static [(u32, u16, u16)],
    extents: &'static [(u32, u16, u16)],
}

static ROWS: [Row; 7] = [
    Row {
        changes: &[],
        extents: &[],
    },
    // To the front, to the back, and within.
    Row {
        changes: &[(7, 100, 4), (7, 40, 10)],
        extents: &[(7, 40, 104)],
    },
    Row {
        changes: &[(7, 100, 4), (7, 200, 1)],
        extents: &[(7, 100, 201)],
    },
    Row {
        changes: &[(7, 100, 4), (7, 101, 2)],
        extents: &[(7, 100, 104)],
    },
    Row {
        changes: &[(7, 0, 1), (7, 4_095, 1)],
        extents: &[(7, 0, 4_096)],
    },
    // A second page stands behind the first, and stays there.
    Row {
        changes: &[(9, 0, 1), (7, 5, 1)],
        extents: &[(9, 0, 1), (7, 5, 6)],
    },
    Row {
        changes: &[(9, 0, 1), (7, 5, 1), (9, 8, 2), (7, 0, 1)],
        extents: &[(9, 0, 10), (7, 0, 6)],
    },
];

fn note(changes: &mut Changes, page: u32, at: u16, len: u16) {
    if changes.len() < 48 && len > 0 && len <= 4_096 && at <= 4_096 - len {
        changes.note(PageNo(page), at, len);
    }
}

/// Notes these changes, and none from before.
fn note_all(changes: &mut Changes, all: &[(u32, u16, u16)]) {
    changes.clear();
    for (page, at, len) in all {
        note(changes, *page, *at, *len);
    }
}

/// Whether these are the extents.
fn are(changes: &Changes, extents: &[(u32, u16, u16)]) -> bool {
    if changes.len() != extents.len() || changes.is_empty() != extents.is_empty() {
        return false;
    }
    for (left, (page, at, end)) in changes.extents().iter().zip(extents) {
        if left.page.0 != *page || left.at != *at || left.end != *end {
            return false;
        }
    }
    true
}

/// Whether each row's changes leave its extents.
fn leave_extents(changes: &mut Changes, rows: &[Row]) -> bool {
    for row in rows {
        note_all(changes, row.changes);
        if !are(changes, row.extents) {
            return false;
        }
    }
    true
}

#[test]
fn each_page_has_one_extent(rt: HostRuntime) -> Result<(), Fail> {
    let mut changes = Changes::new(rt.alloc())?;
    assert!(rt; leave_extents(&mut changes, &ROWS));
    Ok(())
}

/// The count; page, place, length and bytes of each.
static SPELLED: [u8; 22] = [
    0, 2, 1, 2, 3, 4, 0, 5, 0, 3, 6, 7, 8, 0, 0, 0, 20, 15, 255, 0, 1, 9,
];

/// Whether two ranges are spelled so, and the next mini-transaction has a body of its own.
fn spells(body: &mut Body) -> bool {
    body.begin(2);
    body.push(PageNo(0x0102_0304), 5, &[6, 7, 8]);
    body.push(PageNo(20), 4_095, &[9]);
    let spelled = body.len() == 22 && body.as_slice() == SPELLED.as_slice();
    body.begin(258);
    spelled && body.as_slice() == [1, 2].as_slice()
}

#[test]
fn a_body_of_two_ranges(rt: HostRuntime) -> Result<(), Fail> {
    let mut body = Body::new(rt.alloc())?;
    assert!(rt; spells(&mut body));
    Ok(())
}
