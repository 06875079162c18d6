//! Boxes, entries and pages to try calls on.
ghost use Rattle.std.specs.Prelude.{◌≡◌, true, false, IsTrue, is_none};
ghost use Rattle.isp_base.specs.Lists.{Has};
ghost use Rattle.isp_format.specs.Header.{header_of};
ghost use Rattle.isp_forest.specs.Tree.{child_in, child_of};
ghost use Rattle.isp_forest.specs.declared.entry.Entry.{Entry};

use isp_forest::{Entry, To};
use isp_format::{Head, PAGE_BYTES, Page, PageNo, set_head};
use isp_mbr::Box4;
use std::alloc::{AllocError, Global};

/// The boxes with these corners; fewer where some are out of order.
pub(crate) fn boxes_of(alloc: Global, corners: &[[i32; 4]]) -> Result<Vec<Box4>, AllocError> {
    let mut boxes = Vec::new(alloc);
    for c in corners {
        if let Some(b) = Box4::new(c[0], c[1], c[2], c[3]) {
            boxes.push(b)?;
        }
    }
    Ok(boxes)
}

/// A page of an R-tree of that level, without entries, whose other bytes are all 7.
pub(crate) fn page_of(level: u8) -> Page
    ensures { (header_of result.bytes).level ≡ level }
{
    let mut p = Page {
        bytes: [7; PAGE_BYTES],
    };
    let h = Head {
        kind: 6,
        level,
        count: 0,
        owner: 65,
        next: PageNo(20),
        prev: PageNo(0),
        ssn: 9,
        own: PageNo(19),
        used: 64,
    };
    set_head(&mut p, &h);
    p
}

/// Whether all entries are of a leaf.
pub(crate) fn are_rows(entries: &[Entry]) -> bool
    ensures { IsTrue result → (e : Entry) → Has entries.now e → is_none (child_of e) ≡ true }
{
    for e in entries {
        if !is_row(e.to) {
            return false;
        }
    }
    true
}

/// Whether all entries are of an inner page.
pub(crate) fn are_children(entries: &[Entry]) -> bool
    ensures { IsTrue result → (e : Entry) → Has entries.now e → is_none (child_of e) ≡ false }
{
    for e in entries {
        if is_row(e.to) {
            return false;
        }
    }
    true
}

// Whether an entry leads to a row.
fn is_row(to: To) -> bool
    ensures { result ≡ is_none (child_in to) }
{
    match to {
        To::Row { .. } => true,
        To::Child(_) => false,
    }
}
