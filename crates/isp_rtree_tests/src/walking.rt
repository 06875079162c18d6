//! Visits, and paths.
ghost use Rattle.std.specs.Prelude.{◌≡◌, ◌<◌, true, IfOk, IsTrue, OnOk};
ghost use Rattle.isp_page.specs.State.{none_begun};
ghost use Rattle.isp_rtree.specs.Paths.{BeginsInside, numbers_of};

use crate::making::{TREE, box_of, write_all};
use crate::seen::sees_all;
use isp_format::PageNo;
use isp_page::{Fault, MemPages, Pages, StoreFault};
use isp_rtree::{Growth, create, growths, path_stands, visit};
use std::alloc::Global;

const ROOT: PageNo = PageNo(16);

// Makes an empty tree.
fn make<P: Pages>(pages: &mut P) -> Result<PageNo, StoreFault>
    requires usable { P.usable pages.old ≡ true }
    requires none { P.mini pages.old ≡ none_begun }
    ensures usable { OnOk result (P.usable pages.new ≡ true) }
    ensures inside { IfOk result (λ p. p.0 < (P.shape pages.new).pages) }
{
    pages.begin();
    let root = create(pages, 33)?;
    pages.finish()?;
    Ok(root)
}

fn is_empty(alloc: Global) -> Result<bool, Fault> {
    let mut pages = MemPages::new(alloc, 128, 4, 0)?;
    let root = make(&mut pages)?;
    let seen = visit(alloc, &mut pages, root, root)?;
    let is_leaf = seen.level == 0 && seen.ssn == 0 && seen.next == PageNo(0);
    Ok(root == ROOT && is_leaf && seen.counter == 0 && seen.entries.is_empty())
}

#[test]
fn a_tree_is_made_empty(rt: HostRuntime) {
    assert!(rt; is_empty(rt.alloc()) == Ok(true));
}

fn is_seen(alloc: Global) -> Result<bool, Fault> {
    let mut pages = MemPages::new(alloc, 128, 4, 0)?;
    write_all(alloc, &mut pages, &TREE)?;
    let seen = sees_all(alloc, &mut pages, ROOT, &TREE, 2)?;
    Ok(seen)
}

#[test]
fn pages_are_seen(rt: HostRuntime) {
    assert!(rt; is_seen(rt.alloc()) == Ok(true));
}

/// A path, and whether it stands.
struct Row {
    path: &'static [PageNo],
    stands: bool,
}

static ROWS: [Row; 7] = [
    Row {
        path: &[],
        stands: false,
    },
    Row {
        path: &[PageNo(16)],
        stands: false,
    },
    Row {
        path: &[PageNo(16), PageNo(17)],
        stands: true,
    },
    Row {
        path: &[PageNo(16), PageNo(19)],
        stands: true,
    },
    Row {
        path: &[PageNo(16), PageNo(20)],
        stands: false,
    },
    Row {
        path: &[PageNo(16), PageNo(16)],
        stands: false,
    },
    Row {
        path: &[PageNo(16), PageNo(17), PageNo(19)],
        stands: false,
    },
];

/// What a path is answered with that begins behind the last page: no rule has this number.
const OUTSIDE: StoreFault = StoreFault::Damaged { page: 0, rule: 0 };

// Whether the path begins at a page of the file, if it has one.
fn is_inside(path: &[PageNo], pages: u32) -> bool
    ensures { IsTrue result → BeginsInside pages (numbers_of path.now) }
{
    match path {
        [] => true,
        [first, ..] => first.0 < pages,
    }
}

// Whether the path stands.
fn stands<P: Pages>(pages: &mut P, path: &[PageNo]) -> Result<bool, StoreFault>
    requires usable { P.usable pages.old ≡ true }
    ensures usable { OnOk result (P.usable pages.new ≡ true) }
{
    if !is_inside(path, pages.pages()) {
        return Err(OUTSIDE);
    }
    let stands = path_stands(pages, path)?;
    Ok(stands)
}

fn do_stand(alloc: Global) -> Result<bool, Fault> {
    let mut pages = MemPages::new(alloc, 128, 4, 0)?;
    write_all(alloc, &mut pages, &TREE)?;
    for row in &ROWS {
        let stands = stands(&mut pages, row.path)?;
        if stands != row.stands {
            return Ok(false);
        }
    }
    Ok(true)
}

#[test]
fn paths_stand(rt: HostRuntime) {
    assert!(rt; do_stand(rt.alloc()) == Ok(true));
}

static PATH: [PageNo; 2] = [PageNo(16), PageNo(19)];

// Whether the one growth is that of the root's entry for page 19.
fn is_growth(grown: &[Growth]) -> bool {
    match (grown, box_of([5, 1, 9, 5]), box_of([5, 0, 9, 5])) {
        ([g], Some(old), Some(new)) => {
            *g == Growth {
                parent: PageNo(16),
                child: PageNo(19),
                old,
                new,
            }
        }
        _ => false,
    }
}

fn does_grow(alloc: Global) -> Result<bool, Fault> {
    let mut pages = MemPages::new(alloc, 128, 4, 0)?;
    write_all(alloc, &mut pages, &TREE)?;
    let Some(b) = box_of([8, 0, 8, 0]) else {
        return Ok(false);
    };
    let grown = growths(alloc, &mut pages, &PATH, &b)?;
    Ok(is_growth(&grown))
}

#[test]
fn boxes_grow(rt: HostRuntime) {
    assert!(rt; does_grow(rt.alloc()) == Ok(true));
}
