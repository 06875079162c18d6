//! Entries that are looked for.
ghost use Rattle.std.specs.Prelude.{◌≡◌, ◌<◌, true, OnOk};

use crate::making::{Leaf, Spot, TREE, box_of, write_all};
use isp_format::PageNo;
use isp_page::{Fault, MemPages, Pages, StoreFault};
use isp_rfind::find;
use std::alloc::Global;

/// The page where the entry with that box and that number is found, or 0.
pub(crate) fn found<P: Pages>(
    alloc: Global,
    pages: &mut P,
    corners: [i32; 4],
    number: u64,
) -> Result<u32, Fault>
    requires usable { P.usable pages.old ≡ true }
    requires root { 16 < (P.shape pages.old).pages }
    ensures usable { OnOk result (P.usable pages.new ≡ true) }
    ensures shape { OnOk result (P.shape pages.new ≡ P.shape pages.old) }
{
    let Some(b) = box_of(corners) else {
        return Ok(0);
    };
    let leaf = find(alloc, pages, PageNo(16), &b, number)?;
    match leaf {
        Some(page) => Ok(page.0),
        None => Ok(0),
    }
}

/// A box and a number that are looked for, and the page where the entry is found, or 0.
struct Row {
    corners: [i32; 4],
    number: u64,
    page: u32,
}

static ROWS: [Row; 7] = [
    Row {
        corners: [5, 5, 5, 5],
        number: 4,
        page: 19,
    },
    // The box is there, with another number.
    Row {
        corners: [5, 5, 5, 5],
        number: 3,
        page: 0,
    },
    // The number is there, with another box.
    Row {
        corners: [9, 2, 9, 2],
        number: 4,
        page: 0,
    },
    Row {
        corners: [9, 1, 9, 1],
        number: 5,
        page: 19,
    },
    Row {
        corners: [10, 10, 10, 10],
        number: 3,
        page: 18,
    },
    // A child has that box, and no row.
    Row {
        corners: [0, 0, 10, 0],
        number: 0,
        page: 0,
    },
    Row {
        corners: [0, 0, 0, 0],
        number: 0,
        page: 17,
    },
];

// Whether each is found where it should be.
fn finds_rows<P: Pages>(alloc: Global, pages: &mut P) -> Result<bool, Fault>
    requires usable { P.usable pages.old ≡ true }
    requires root { 16 < (P.shape pages.old).pages }
{
    for row in &ROWS {
        let page = found(alloc, pages, row.corners, row.number)?;
        if page != row.page {
            return Ok(false);
        }
    }
    Ok(true)
}

fn are_found(alloc: Global) -> Result<bool, Fault> {
    let mut pages = MemPages::new(alloc, 128, 4, 0)?;
    write_all(alloc, &mut pages, &TREE)?;
    let all = finds_rows(alloc, &mut pages)?;
    Ok(all)
}

#[test]
fn entries_are_found(rt: HostRuntime) {
    assert!(rt; are_found(rt.alloc()) == Ok(true));
}

/// Pages on which looking for an entry fails, and what it fails with.
struct Spoilt {
    tree: &'static [Leaf],
    page: u32,
    rule: u32,
}

static SPOILT: [Spoilt; 4] = [
    // The root has another kind.
    Spoilt {
        tree: &[Leaf {
            page: 16,
            kind: 9,
            level: 0,
            ssn: 0,
            next: 0,
            entries: &[],
        }],
        page: 16,
        rule: 9,
    },
    // A child is no page of the file.
    Spoilt {
        tree: &[Leaf {
            page: 16,
            kind: 6,
            level: 1,
            ssn: 0,
            next: 0,
            entries: &[Spot::Child([0, 0, 0, 0], 128)],
        }],
        page: 16,
        rule: 9,
    },
    // A child is on its parent's level.
    Spoilt {
        tree: &[
            Leaf {
                page: 16,
                kind: 6,
                level: 1,
                ssn: 0,
                next: 0,
                entries: &[Spot::Child([0, 0, 0, 0], 17)],
            },
            Leaf {
                page: 17,
                kind: 6,
                level: 1,
                ssn: 0,
                next: 0,
                entries: &[Spot::Child([0, 0, 0, 0], 18)],
            },
        ],
        page: 17,
        rule: 9,
    },
    // Each page leads four times to the next, so that 128 pages are soon read: of those below the second entry of the root, the
    // 43rd is the next one, and it is the leaf.
    Spoilt {
        tree: &[
            Leaf {
                page: 16,
                kind: 6,
                level: 4,
                ssn: 0,
                next: 0,
                entries: &[Spot::Child([0, 0, 0, 0], 17); 4],
            },
            Leaf {
                page: 17,
                kind: 6,
                level: 3,
                ssn: 0,
                next: 0,
                entries: &[Spot::Child([0, 0, 0, 0], 18); 4],
            },
            Leaf {
                page: 18,
                kind: 6,
                level: 2,
                ssn: 0,
                next: 0,
                entries: &[Spot::Child([0, 0, 0, 0], 19); 4],
            },
            Leaf {
                page: 19,
                kind: 6,
                level: 1,
                ssn: 0,
                next: 0,
                entries: &[Spot::Child([0, 0, 0, 0], 20); 4],
            },
            Leaf {
                page: 20,
                kind: 6,
                level: 0,
                ssn: 0,
                next: 0,
                entries: &[],
            },
        ],
        page: 20,
        rule: 13,
    },
];

// Whether looking for an entry fails so.
fn is_named<P: Pages>(alloc: Global, pages: &mut P, spoilt: &Spoilt) -> bool
    requires usable { P.usable pages.old ≡ true }
    requires root { 16 < (P.shape pages.old).pages }
{
    let fault = Fault::Store(StoreFault::Damaged {
        page: spoilt.page,
        rule: spoilt.rule,
    });
    found(alloc, pages, [0, 0, 0, 0], 0) == Err(fault)
}

fn is_refused(alloc: Global, spoilt: &Spoilt) -> Result<bool, Fault> {
    let mut pages = MemPages::new(alloc, 128, 4, 0)?;
    write_all(alloc, &mut pages, spoilt.tree)?;
    let named = is_named(alloc, &mut pages, spoilt);
    Ok(named)
}

#[test]
fn spoilt_pages_are_named(rt: HostRuntime) {
    for spoilt in &SPOILT {
        assert!(rt; is_refused(rt.alloc(), spoilt) == Ok(true));
    }
}
