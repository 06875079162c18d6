//! Paths to plan for.

use isp_forest::{Entry, To};
use isp_format::PageNo;
use isp_mbr::Box4;
use isp_rplan::{NodeHead, PathPage};
use std::alloc::{AllocError, Global};

/// A page of a path: its number, its level, and the boxes of its entries by their corners. Those of an inner page lead to the pages
/// from 19 on, those of a leaf to rows.
pub(crate) struct Given {
    pub page: u32,
    pub level: u8,
    pub boxes: &'static [[i32; 4]],
}

// Where an entry of a page of that level leads, which stands there after so many others.
fn leads(level: u8, place: u32) -> To {
    if level == 0 {
        To::Row {
            key: 7,
            number: u64::from(place),
        }
    } else {
        To::Child(PageNo(place))
    }
}

// The entries with these boxes; fewer where corners are out of order.
fn entries_of(alloc: Global, level: u8, boxes: &[[i32; 4]]) -> Result<Vec<Entry>, AllocError> {
    let mut entries = Vec::new(alloc);
    let mut place = 19;
    for c in boxes {
        if let Some(b) = Box4::new(c[0], c[1], c[2], c[3]) {
            entries.push(Entry {
                b,
                to: leads(level, place),
            })?;
        }
        place = if place < 99 { place + 1 } else { place };
    }
    Ok(entries)
}

// A page of a path.
fn page_of(alloc: Global, given: &Given) -> Result<PathPage, AllocError> {
    let entries = entries_of(alloc, given.level, given.boxes)?;
    Ok(PathPage {
        page: PageNo(given.page),
        head: NodeHead {
            level: given.level,
            ssn: 5,
            next: PageNo(0),
        },
        entries,
    })
}

/// The pages of a path, from the root down.
pub(crate) fn path_of(alloc: Global, rows: &[Given]) -> Result<Vec<PathPage>, AllocError> {
    let mut path = Vec::new(alloc);
    for given in rows {
        let page = page_of(alloc, given)?;
        path.push(page)?;
    }
    Ok(path)
}
