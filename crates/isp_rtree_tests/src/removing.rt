//! An entry that is taken out.
ghost use Rattle.std.specs.Prelude.{◌≡◌, ◌<◌, true, OnOk};
ghost use Rattle.isp_page.specs.State.{none_begun};

use crate::finding::found;
use crate::making::{Leaf, Spot, TREE, write_all};
use crate::seen::sees_all;
use isp_format::PageNo;
use isp_page::{Fault, MemPages, Pages, StoreFault};
use isp_rtree::remove;
use std::alloc::Global;

/// The page without its entry #4, and the root, whose box for it doesn't shrink.
static AFTER: [Leaf; 2] = [
    Leaf {
        page: 16,
        kind: 6,
        level: 1,
        ssn: 2,
        next: 0,
        entries: &[
            Spot::Child([0, 0, 10, 0], 17),
            Spot::Child([0, 10, 10, 10], 18),
            Spot::Child([5, 1, 9, 5], 19),
        ],
    },
    Leaf {
        page: 19,
        kind: 6,
        level: 0,
        ssn: 1,
        next: 18,
        entries: &[Spot::Row([9, 1], 6, 5), Spot::Row([9, 2], 7, 6)],
    },
];

// Takes an entry out of page 19.
fn take_out<P: Pages>(pages: &mut P, number: u64) -> Result<(), StoreFault>
    requires usable { P.usable pages.old ≡ true }
    requires none { P.mini pages.old ≡ none_begun }
    requires root { 19 < (P.shape pages.old).pages }
    ensures usable { OnOk result (P.usable pages.new ≡ true) }
    ensures shape { OnOk result (P.shape pages.new ≡ P.shape pages.old) }
{
    pages.begin();
    remove(pages, PageNo(19), number)?;
    pages.finish()?;
    Ok(())
}

fn is_gone(alloc: Global) -> Result<bool, Fault> {
    let mut pages = MemPages::new(alloc, 128, 4, 0)?;
    write_all(alloc, &mut pages, &TREE)?;
    take_out(&mut pages, 4)?;
    let seen = sees_all(alloc, &mut pages, PageNo(16), &AFTER, 2)?;
    Ok(seen)
}

#[test]
fn a_removed_entry_is_gone(rt: HostRuntime) {
    assert!(rt; is_gone(rt.alloc()) == Ok(true));
}

fn is_lost(alloc: Global) -> Result<bool, Fault> {
    let mut pages = MemPages::new(alloc, 128, 4, 0)?;
    write_all(alloc, &mut pages, &TREE)?;
    take_out(&mut pages, 4)?;
    let gone = found(alloc, &mut pages, [5, 5, 5, 5], 4)?;
    let there = found(alloc, &mut pages, [9, 2, 9, 2], 6)?;
    Ok(gone == 0 && there == 19)
}

#[test]
fn a_removed_entry_is_not_found(rt: HostRuntime) {
    assert!(rt; is_lost(rt.alloc()) == Ok(true));
}
