//! A tree of two levels above its leaves.
ghost use Rattle.std.specs.Prelude.{◌≡◌, ◌<◌, true, OnOk};
ghost use Rattle.isp_page.specs.State.{none_begun};

use crate::acts::{Act, do_one, make};
use crate::scans::{Scanned, scan};
use crate::seen::{Seen, finds, finds_all, seen};
use crate::shapes::{entries_of, fresh_and_bytes, has_entries};
use isp_format::PageNo;
use isp_page::{Fault, MemPages, Pages, StoreFault};
use std::alloc::Global;

/// How many rows are put, with keys from 1 on.
const COUNT: usize = 1_010;

// The rows.
fn rising() -> [Seen; COUNT] {
    let mut rows = [seen!(0, 984); COUNT];
    let mut key = 0_u16;
    for row in &mut rows {
        key = key.saturating_add(1);
        row.key = i64::from(key);
    }
    rows
}

// Puts these rows.
fn put_all<P: Pages>(pages: &mut P, root: PageNo, rows: &[Seen]) -> Result<(), StoreFault>
    requires usable { P.usable pages.old ≡ true }
    requires none { P.mini pages.old ≡ none_begun }
    requires page { root.0 < (P.shape pages.old).pages }
    ensures usable { OnOk result (P.usable pages.new ≡ true) }
    ensures shape { OnOk result (P.shape pages.new ≡ P.shape pages.old) }
{
    for row in rows {
        do_one(pages, root, Act::Put(row.key, row.len))?;
    }
    Ok(())
}

// Whether the root has these two pages below it, which are such halves of 337 leaves, and which pages are taken.
fn has_shape<P: Pages>(pages: &mut P, root: PageNo) -> Result<bool, StoreFault>
    requires usable { P.usable pages.old ≡ true }
    requires page { root.0 < (P.shape pages.old).pages }
    requires inside { 355 < (P.shape pages.old).pages }
    ensures usable { OnOk result (P.usable pages.new ≡ true) }
    ensures shape { OnOk result (P.shape pages.new ≡ P.shape pages.old) }
{
    let above = has_entries(pages, root, 2, &[(i64::MIN, 354), (508, 355)])?;
    let left = entries_of(pages, PageNo(354))?;
    let right = entries_of(pages, PageNo(355))?;
    let counted = fresh_and_bytes(pages)?;
    Ok(above && left == Some(169) && right == Some(168) && counted == (356, 1_006_970))
}

fn is_so<P: Pages>(alloc: Global, pages: &mut P, rows: &[Seen]) -> Result<bool, Fault>
    requires usable { P.usable pages.old ≡ true }
    requires none { P.mini pages.old ≡ none_begun }
    requires inside { 355 < (P.shape pages.old).pages }
{
    let root = make(pages)?;
    put_all(pages, root, rows)?;
    let shaped = has_shape(pages, root)?;
    let found = finds_all(alloc, pages, root, rows)?;
    let lacked = finds(alloc, pages, root, 1_011, None)?;
    let all = scan(alloc, pages, root, rows)?;
    let leaves = Scanned {
        leaves: 337,
        last: PageNo(353),
    };
    Ok(root.0 == 16 && shaped && found && lacked && all == Some(leaves))
}

fn risen(alloc: Global) -> Result<bool, Fault> {
    let rows = rising();
    let mut pages = MemPages::new(alloc, 512, 4, 0)?;
    let so = is_so(alloc, &mut pages, &rows)?;
    Ok(so)
}

#[test]
fn rising_keys_make_two_levels(rt: HostRuntime) {
    assert!(rt; risen(rt.alloc()) == Ok(true));
}
