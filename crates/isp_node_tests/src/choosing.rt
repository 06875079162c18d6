//! Choices of a subtree.
use crate::making::{are_children, boxes_of, page_of};
use isp_forest::{Entry, To};
use isp_format::PageNo;
use isp_mbr::Box4;
use isp_rnode::{choose, choose_in, entry_count, readable, set_entries};
use std::alloc::{AllocError, Global};
use std::test::Fail;

/// The boxes of three subtrees, on the pages 30, 31 and 32, and the page that the point (3, 3) goes to.
struct Row {
    boxes: [[i32; 4]; 3],
    page: u32,
}

static ROWS: [Row; 6] = [
    // no two are enlarged alike: by 5, by 0, by 9
    Row {
        boxes: [[0, 0, 2, 5], [2, 2, 9, 9], [0, 0, 3, 0]],
        page: 31,
    },
    // the smallest of all is enlarged
    Row {
        boxes: [[4, 4, 5, 5], [0, 0, 9, 9], [5, 5, 7, 7]],
        page: 31,
    },
    // all are enlarged alike: the second is the smallest
    Row {
        boxes: [[0, 0, 9, 9], [2, 2, 4, 4], [1, 1, 5, 5]],
        page: 31,
    },
    // two are enlarged alike and are of one area
    Row {
        boxes: [[0, 0, 9, 9], [1, 1, 4, 4], [2, 2, 5, 5]],
        page: 31,
    },
    // all are enlarged alike and are of one area
    Row {
        boxes: [[0, 0, 3, 3], [2, 2, 5, 5], [1, 1, 4, 4]],
        page: 30,
    },
    Row {
        boxes: [[3, 3, 3, 3], [3, 3, 3, 3], [3, 3, 3, 3]],
        page: 30,
    },
];

// Three entries of an inner page.
fn entries_of(alloc: Global, boxes: &[Box4]) -> Result<Vec<Entry>, AllocError> {
    let mut entries = Vec::new(alloc);
    let mut page = 30;
    for b in boxes {
        entries.push(Entry {
            b: *b,
            to: To::Child(PageNo(page)),
        })?;
        page = if page < 99 { page + 1 } else { page };
    }
    Ok(entries)
}

// Whether the page is chosen among the entries, and among them as they stand on a page.
fn is_chosen(entries: &[Entry], b: &Box4, page: u32) -> bool {
    let mut p = page_of(2);
    if entries.is_empty() || entries.len() > 3 || !are_children(entries) {
        return false;
    }
    set_entries(&mut p, entries);
    if !readable(&p) || entry_count(&p) == 0 {
        return false;
    }
    choose(entries, b) == PageNo(page) && choose_in(&p, b) == PageNo(page)
}

fn are_chosen(alloc: Global) -> Result<bool, AllocError> {
    let point = match Box4::new(3, 3, 3, 3) {
        Some(b) => b,
        None => return Ok(false),
    };
    for row in &ROWS {
        let boxes = boxes_of(alloc, &row.boxes)?;
        let entries = entries_of(alloc, &boxes)?;
        if entries.len() != 3 || !is_chosen(&entries, &point, row.page) {
            return Ok(false);
        }
    }
    Ok(true)
}

#[test]
fn subtrees_are_chosen(rt: HostRuntime) -> Result<(), Fail> {
    let chosen = are_chosen(rt.alloc())?;
    assert!(rt; chosen);
    Ok(())
}
