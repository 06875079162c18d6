//! Trees of one leaf beside the list of their rows.
ghost use Rattle.std.specs.Prelude.{◌≡◌, ◌<◌, true, OnOk};
ghost use Rattle.isp_page.specs.State.{none_begun};

use crate::acts::{Act, do_all, do_one, make};
use crate::seen::{Seen, finds, finds_all, has_leaf, seen};
use isp_format::{PAGE_BYTES, Page, PageNo, head};
use isp_page::{Fault, MemPages, Pages, StoreFault};
use std::alloc::Global;
use std::test::Fail;

/// Acts on an empty tree, the rows that there are then, where they end, and a key that isn't there.
struct Row {
    acts: &'static [Act],
    rows: &'static [Seen],
    used: u32,
    lacks: i64,
}

static ROWS: [Row; 6] = [
    Row {
        acts: &[],
        rows: &[],
        used: 64,
        lacks: 0,
    },
    // Five rows in any order.
    Row {
        acts: &[
            Act::Put(3, 19),
            Act::Put(1, 19),
            Act::Put(5, 19),
            Act::Put(4, 19),
            Act::Put(2, 19),
        ],
        rows: &[
            seen!(1, 19),
            seen!(2, 19),
            seen!(3, 19),
            seen!(4, 19),
            seen!(5, 19),
        ],
        used: 224,
        lacks: 6,
    },
    // The least and the greatest key, and rows without bytes.
    Row {
        acts: &[
            Act::Put(i64::MAX, 0),
            Act::Put(0, 1),
            Act::Put(i64::MIN, 0),
            Act::Put(-1, 2),
        ],
        rows: &[
            seen!(i64::MIN, 0),
            seen!(-1, 2),
            seen!(0, 1),
            seen!(i64::MAX, 0),
        ],
        used: 119,
        lacks: 1,
    },
    // A slot keeps its size at a rewrite and at a mark; a put makes it larger and takes the mark off.
    Row {
        acts: &[
            Act::Put(1, 9),
            Act::Put(2, 9),
            Act::Put(3, 9),
            Act::Put(4, 9),
            Act::Rewrite(1, 4, false),
            Act::Rewrite(2, 9, true),
            Act::Mark(3),
            Act::Mark(4),
            Act::Put(4, 12),
        ],
        rows: &[
            Seen {
                key: 1,
                len: 4,
                marked: false,
                slot: 9,
            },
            Seen {
                key: 2,
                len: 9,
                marked: true,
                slot: 9,
            },
            Seen {
                key: 3,
                len: 9,
                marked: true,
                slot: 9,
            },
            seen!(4, 12),
        ],
        used: 155,
        lacks: 5,
    },
    // A marked row is dropped, and its key put again.
    Row {
        acts: &[
            Act::Put(1, 6),
            Act::Put(2, 7),
            Act::Put(3, 8),
            Act::Mark(2),
            Act::Drop(2),
            Act::Mark(3),
            Act::Drop(3),
            Act::Put(3, 1),
        ],
        rows: &[seen!(1, 6), seen!(3, 1)],
        used: 97,
        lacks: 2,
    },
    // Four rows that fill the page to its end.
    Row {
        acts: &[
            Act::Put(1, 995),
            Act::Put(2, 995),
            Act::Put(3, 995),
            Act::Put(4, 995),
        ],
        rows: &[seen!(1, 995), seen!(2, 995), seen!(3, 995), seen!(4, 995)],
        used: 4_096,
        lacks: 0,
    },
];

// Whether the header of the tree's page counts so many rows and says where they end.
fn has_head<P: Pages>(
    pages: &mut P,
    root: PageNo,
    count: usize,
    used: u32,
) -> Result<bool, StoreFault>
    requires usable { P.usable pages.old ≡ true }
    requires page { root.0 < (P.shape pages.old).pages }
    ensures usable { OnOk result (P.usable pages.new ≡ true) }
    ensures shape { OnOk result (P.shape pages.new ≡ P.shape pages.old) }
{
    let mut page = Page {
        bytes: [0; PAGE_BYTES],
    };
    pages.read(root, &mut page)?;
    let h = head(&page);
    let is_leaf = h.kind == 4 && h.level == 0 && h.owner == 32 && h.own == root;
    Ok(is_leaf && h.next == PageNo(0) && h.count as usize == count && h.used == used)
}

// Whether the acts of a row leave its rows.
fn is_so<P: Pages>(alloc: Global, pages: &mut P, row: &Row) -> Result<bool, Fault>
    requires usable { P.usable pages.old ≡ true }
    requires none { P.mini pages.old ≡ none_begun }
{
    let root = make(pages)?;
    do_all(pages, root, row.acts)?;
    let headed = has_head(pages, root, row.rows.len(), row.used)?;
    let listed = has_leaf(alloc, pages, root, row.rows)?;
    let found = finds_all(alloc, pages, root, row.rows)?;
    let lacked = finds(alloc, pages, root, row.lacks, None)?;
    Ok(headed && listed && found && lacked)
}

fn are_so(alloc: Global) -> Result<bool, Fault> {
    for row in &ROWS {
        let mut pages = MemPages::new(alloc, 64, 4, 0)?;
        let so = is_so(alloc, &mut pages, row)?;
        if !so {
            return Ok(false);
        }
    }
    Ok(true)
}

#[test]
fn rows_are_as_listed(rt: HostRuntime) {
    assert!(rt; are_so(rt.alloc()) == Ok(true));
}

// What a call that has no row of its key answers.
fn refused<P: Pages>(pages: &mut P, acts: &[Act], last: Act) -> Result<(), StoreFault>
    requires usable { P.usable pages.old ≡ true }
    requires none { P.mini pages.old ≡ none_begun }
{
    let root = make(pages)?;
    for act in acts {
        do_one(pages, root, *act)?;
    }
    do_one(pages, root, last)?;
    Ok(())
}

/// Acts on an empty tree, the last of which finds no such row.
static REFUSED: [(&[Act], Act); 5] = [
    (&[], Act::Mark(1)),
    (&[], Act::Rewrite(1, 0, false)),
    (&[Act::Put(1, 5)], Act::Rewrite(1, 6, false)),
    (&[Act::Put(1, 5)], Act::Drop(1)),
    (&[Act::Put(1, 5), Act::Mark(1)], Act::Drop(2)),
];

fn are_refused(alloc: Global) -> Result<bool, Fault> {
    let damaged = Err(StoreFault::Damaged { page: 16, rule: 7 });
    for (acts, last) in &REFUSED {
        let mut pages = MemPages::new(alloc, 64, 4, 0)?;
        let answer = refused(&mut pages, *acts, *last);
        if answer != damaged {
            return Ok(false);
        }
    }
    Ok(true)
}

#[test]
fn what_isnt_there_is_named(rt: HostRuntime) {
    assert!(rt; are_refused(rt.alloc()) == Ok(true));
}
