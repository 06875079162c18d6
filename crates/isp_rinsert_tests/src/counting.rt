//! Which pages an insert reads and changes where nothing is divided.
use crate::counted::CountedPages;
use crate::putting::{box_of, put, run};
use crate::stages::STAGES;
use isp_format::PageNo;
use isp_page::{Fault, MemPages};
use std::alloc::Global;

/// A point that is put in at the end of a path in the tree of three levels, and the pages that are read and changed.
struct Row {
    path: &'static [PageNo],
    at: [i32; 2],
    read: &'static [u32],
    changed: &'static [u32],
}

static ROWS: [Row; 3] = [
    // No box grows.
    Row {
        path: &[PageNo(16), PageNo(22), PageNo(17)],
        at: [4, 0],
        read: &[0, 16, 17, 22],
        changed: &[0, 17],
    },
    // The leaf's box grows inside its parent's.
    Row {
        path: &[PageNo(16), PageNo(22), PageNo(20)],
        at: [7, 1],
        read: &[0, 16, 20, 22],
        changed: &[0, 20, 22],
    },
    // Both grow.
    Row {
        path: &[PageNo(16), PageNo(22), PageNo(20)],
        at: [12, 0],
        read: &[0, 16, 20, 22],
        changed: &[0, 16, 20, 22],
    },
];

// Whether those pages are noted, and no others.
fn are_noted(noted: &[bool; 32], pages: &[u32]) -> bool {
    for page in 0..32u32 {
        if noted[page as usize] != pages.contains(&page) {
            return false;
        }
    }
    true
}

fn touches(alloc: Global, row: &Row) -> Result<bool, Fault> {
    let Some(b) = box_of([row.at[0], row.at[1], row.at[0], row.at[1]]) else {
        return Ok(false);
    };
    let mut pages = CountedPages {
        pages: MemPages::new(alloc, 128, 4, 0)?,
        read: [false; 32],
        changed: [false; 32],
    };
    let _told = run(alloc, &mut pages, &STAGES[2])?;
    pages.read = [false; 32];
    pages.changed = [false; 32];
    let told = put(alloc, &mut pages, row.path, &b, 14)?;
    Ok(told.is_some() && are_noted(&pages.read, row.read) && are_noted(&pages.changed, row.changed))
}

#[test]
fn pages_that_stay_are_not_changed(rt: HostRuntime) {
    for row in &ROWS {
        assert!(rt; touches(rt.alloc(), row) == Ok(true));
    }
}
