//! Trees of a few leaves: which leaf keeps which rows, and on which page it stands.
ghost use Rattle.std.specs.Prelude.{◌≡◌, ◌<◌, true, OnOk};
ghost use Rattle.isp_page.specs.State.{none_begun};

use crate::acts::{Act, do_all, make};
use crate::scans::{read_next, scan};
use crate::seen::{Seen, seen};
use crate::shapes::{Entry, fresh_and_bytes, has_entries};
use isp_format::PageNo;
use isp_page::{Fault, MemPages, Pages};
use std::alloc::Global;

/// A leaf: its page, and how many of the rows it has.
type Part = (u32, usize);

/// Puts into an empty tree on page 16, and what the tree is then: the entries of its root, which stands right above the leaves,
/// the leaves from left to right, all rows, the first page never used, and how many bytes were put.
struct Row {
    puts: &'static [Act],
    root: &'static [Entry],
    leaves: &'static [Part],
    rows: &'static [Seen],
    fresh: u32,
    bytes: u64,
}

static ROWS: [Row; 6] = [
    // Five rows, the last one behind all, before all, and among them.
    Row {
        puts: &[
            Act::Put(1, 984),
            Act::Put(2, 984),
            Act::Put(3, 984),
            Act::Put(4, 984),
            Act::Put(5, 984),
        ],
        root: &[(i64::MIN, 17), (4, 18)],
        leaves: &[(17, 3), (18, 2)],
        rows: &[
            seen!(1, 984),
            seen!(2, 984),
            seen!(3, 984),
            seen!(4, 984),
            seen!(5, 984),
        ],
        fresh: 19,
        bytes: 4_985,
    },
    Row {
        puts: &[
            Act::Put(5, 984),
            Act::Put(4, 984),
            Act::Put(3, 984),
            Act::Put(2, 984),
            Act::Put(1, 984),
        ],
        root: &[(i64::MIN, 17), (4, 18)],
        leaves: &[(17, 3), (18, 2)],
        rows: &[
            seen!(1, 984),
            seen!(2, 984),
            seen!(3, 984),
            seen!(4, 984),
            seen!(5, 984),
        ],
        fresh: 19,
        bytes: 4_985,
    },
    Row {
        puts: &[
            Act::Put(1, 984),
            Act::Put(2, 984),
            Act::Put(4, 984),
            Act::Put(5, 984),
            Act::Put(3, 984),
        ],
        root: &[(i64::MIN, 17), (4, 18)],
        leaves: &[(17, 3), (18, 2)],
        rows: &[
            seen!(1, 984),
            seen!(2, 984),
            seen!(3, 984),
            seen!(4, 984),
            seen!(5, 984),
        ],
        fresh: 19,
        bytes: 4_985,
    },
    // The left one of two leaves is divided: the new leaf stands between them.
    Row {
        puts: &[
            Act::Put(10, 984),
            Act::Put(20, 984),
            Act::Put(30, 984),
            Act::Put(40, 984),
            Act::Put(25, 984),
            Act::Put(26, 984),
            Act::Put(27, 984),
            Act::Put(28, 984),
        ],
        root: &[(i64::MIN, 17), (26, 19), (30, 18)],
        leaves: &[(17, 3), (19, 3), (18, 2)],
        rows: &[
            seen!(10, 984),
            seen!(20, 984),
            seen!(25, 984),
            seen!(26, 984),
            seen!(27, 984),
            seen!(28, 984),
            seen!(30, 984),
            seen!(40, 984),
        ],
        fresh: 20,
        bytes: 7_976,
    },
    // One byte more than a page has room for.
    Row {
        puts: &[
            Act::Put(1, 995),
            Act::Put(2, 995),
            Act::Put(3, 995),
            Act::Put(4, 996),
        ],
        root: &[(i64::MIN, 17), (4, 18)],
        leaves: &[(17, 3), (18, 1)],
        rows: &[seen!(1, 995), seen!(2, 995), seen!(3, 995), seen!(4, 996)],
        fresh: 19,
        bytes: 4_033,
    },
    // A row that is put again in a larger slot: its old slot doesn't count.
    Row {
        puts: &[
            Act::Put(1, 604),
            Act::Put(2, 604),
            Act::Put(3, 604),
            Act::Put(4, 604),
            Act::Put(5, 604),
            Act::Put(6, 604),
            Act::Put(2, 984),
        ],
        root: &[(i64::MIN, 17), (4, 18)],
        leaves: &[(17, 3), (18, 3)],
        rows: &[
            seen!(1, 604),
            seen!(2, 984),
            seen!(3, 604),
            seen!(4, 604),
            seen!(5, 604),
            seen!(6, 604),
        ],
        fresh: 19,
        bytes: 4_699,
    },
];

// Whether these are the leaves, from the first on, with these rows.
fn has_parts<P: Pages>(alloc: Global, pages: &mut P, root: PageNo, row: &Row) -> Result<bool, Fault>
    requires usable { P.usable pages.old ≡ true }
    requires page { root.0 < (P.shape pages.old).pages }
    ensures usable { OnOk result (P.usable pages.new ≡ true) }
    ensures shape { OnOk result (P.shape pages.new ≡ P.shape pages.old) }
{
    let mut after = None;
    let mut from = 0;
    for (page, rows) in row.leaves {
        let read = read_next(alloc, pages, root, after, row.rows, from)?;
        match read {
            Some(leaf) => {
                if leaf.page.0 != *page || leaf.rows != *rows {
                    return Ok(false);
                }
                after = Some(leaf.page);
                from = from.saturating_add(*rows);
            }
            None => return Ok(false),
        }
    }
    Ok(true)
}

// Whether the puts of a row make its tree.
fn is_so<P: Pages>(alloc: Global, pages: &mut P, row: &Row) -> Result<bool, Fault>
    requires usable { P.usable pages.old ≡ true }
    requires none { P.mini pages.old ≡ none_begun }
{
    let root = make(pages)?;
    do_all(pages, root, row.puts)?;
    let above = has_entries(pages, root, 1, row.root)?;
    let parts = has_parts(alloc, pages, root, row)?;
    let all = scan(alloc, pages, root, row.rows)?;
    let counted = fresh_and_bytes(pages)?;
    let leaves = all.is_some_and(|all| all.leaves as usize == row.leaves.len());
    Ok(root.0 == 16 && above && parts && leaves && counted == (row.fresh, row.bytes))
}

fn are_so(alloc: Global) -> Result<bool, Fault> {
    for row in &ROWS {
        let mut pages = MemPages::new(alloc, 64, 4, 0)?;
        let so = is_so(alloc, &mut pages, row)?;
        if !so {
            return Ok(false);
        }
    }
    Ok(true)
}

#[test]
fn leaves_are_divided_as_listed(rt: HostRuntime) {
    assert!(rt; are_so(rt.alloc()) == Ok(true));
}
