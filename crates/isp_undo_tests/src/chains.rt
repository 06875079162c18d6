//! Chains worked out by hand, each on a file of 128 pages with one table.
ghost use Rattle.std.specs.Prelude.{◌≡◌, ◌<◌, true, OnOk};
ghost use Rattle.isp_format.specs.Undo.{undo_slots};
ghost use Rattle.isp_page.specs.State.{none_begun};

use crate::acts::{Act, do_all, take_one};
use crate::seen::{Used, has_free, has_last, has_pages};
use isp_format::{Page, PageNo};
use isp_page::{Fault, MemPages, Pages, StoreFault, replace};
use isp_undo_pages::cut;
use std::alloc::Global;
use std::test::Fail;

/// Calls; the pages of the chain of a slot and where they end, its newest image, and the free chain.
struct Row {
    acts: &'static [Act],
    slot: u32,
    chain: &'static [Used],
    newest: Option<(i64, u16)>,
    free: &'static [u32],
}

/// Ten images of 984 bytes in slot 1.
macro_rules! ten {
    ($($more:expr),*) => {
        &[
            Act::Push(1, 1, 984),
            Act::Push(1, 2, 984),
            Act::Push(1, 3, 984),
            Act::Push(1, 4, 984),
            Act::Push(1, 5, 984),
            Act::Push(1, 6, 984),
            Act::Push(1, 7, 984),
            Act::Push(1, 8, 984),
            Act::Push(1, 9, 984),
            Act::Push(1, 10, 984),
            $($more),*
        ]
    };
}

static ROWS: [Row; 14] = [
    Row {
        acts: ten!(),
        slot: 1,
        chain: &[(17, 4_068), (18, 4_068), (19, 2_066)],
        newest: Some((10, 984)),
        free: &[],
    },
    Row {
        acts: ten!(Act::Pop(1)),
        slot: 1,
        chain: &[(17, 4_068), (18, 4_068), (19, 1_065)],
        newest: Some((9, 984)),
        free: &[],
    },
    Row {
        acts: ten!(Act::Pop(1), Act::Pop(1)),
        slot: 1,
        chain: &[(17, 4_068), (18, 4_068)],
        newest: Some((8, 984)),
        free: &[19],
    },
    Row {
        acts: ten!(
            Act::Pop(1),
            Act::Pop(1),
            Act::Pop(1),
            Act::Pop(1),
            Act::Pop(1)
        ),
        slot: 1,
        chain: &[(17, 4_068), (18, 1_065)],
        newest: Some((5, 984)),
        free: &[19],
    },
    Row {
        acts: ten!(
            Act::Pop(1),
            Act::Pop(1),
            Act::Pop(1),
            Act::Pop(1),
            Act::Pop(1),
            Act::Pop(1)
        ),
        slot: 1,
        chain: &[(17, 4_068)],
        newest: Some((4, 984)),
        free: &[18, 19],
    },
    Row {
        acts: ten!(
            Act::Pop(1),
            Act::Pop(1),
            Act::Pop(1),
            Act::Pop(1),
            Act::Pop(1),
            Act::Pop(1),
            Act::Pop(1),
            Act::Pop(1),
            Act::Pop(1),
            Act::Pop(1)
        ),
        slot: 1,
        chain: &[(17, 64)],
        newest: None,
        free: &[18, 19],
    },
    Row {
        acts: ten!(
            Act::Pop(1),
            Act::Pop(1),
            Act::Pop(1),
            Act::Pop(1),
            Act::Pop(1),
            Act::Pop(1),
            Act::Pop(1),
            Act::Pop(1),
            Act::Pop(1),
            Act::Pop(1),
            Act::Finish(1)
        ),
        slot: 1,
        chain: &[],
        newest: None,
        free: &[17, 18, 19],
    },
    Row {
        acts: ten!(
            Act::Pop(1),
            Act::Pop(1),
            Act::Pop(1),
            Act::Pop(1),
            Act::Pop(1),
            Act::Pop(1),
            Act::Pop(1),
            Act::Pop(1),
            Act::Pop(1),
            Act::Pop(1),
            Act::Finish(1),
            Act::Push(1, 11, 984),
            Act::Push(1, 12, 984),
            Act::Push(1, 13, 984),
            Act::Push(1, 14, 984),
            Act::Push(1, 15, 984),
            Act::Push(1, 16, 984),
            Act::Push(1, 17, 984),
            Act::Push(1, 18, 984),
            Act::Push(1, 19, 984),
            Act::Push(1, 20, 984)
        ),
        slot: 1,
        chain: &[(17, 4_068), (18, 4_068), (19, 2_066)],
        newest: Some((20, 984)),
        free: &[],
    },
    Row {
        acts: ten!(
            Act::Pop(1),
            Act::Pop(1),
            Act::Pop(1),
            Act::Pop(1),
            Act::Pop(1),
            Act::Pop(1),
            Act::Pop(1),
            Act::Pop(1),
            Act::Pop(1),
            Act::Pop(1),
            Act::Finish(1),
            Act::Push(1, 11, 984),
            Act::Push(1, 12, 984),
            Act::Push(1, 13, 984),
            Act::Push(1, 14, 984),
            Act::Push(1, 15, 984),
            Act::Push(1, 16, 984),
            Act::Push(1, 17, 984),
            Act::Push(1, 18, 984),
            Act::Push(1, 19, 984),
            Act::Push(1, 20, 984),
            Act::Finish(1)
        ),
        slot: 1,
        chain: &[],
        newest: None,
        free: &[17, 18, 19],
    },
    // The whole chain is given back in its order; then it is begun again, on the same pages.
    Row {
        acts: ten!(Act::Finish(1)),
        slot: 1,
        chain: &[],
        newest: None,
        free: &[17, 18, 19],
    },
    Row {
        acts: ten!(Act::Finish(1), Act::Push(1, 11, 984)),
        slot: 1,
        chain: &[(17, 1_065)],
        newest: Some((11, 984)),
        free: &[18, 19],
    },
    // A page that lacks a byte takes no entry: 64, 1,017 three times and 981 are 4,096.
    Row {
        acts: &[
            Act::Push(2, 1, 1_000),
            Act::Push(2, 2, 1_000),
            Act::Push(2, 3, 1_000),
            Act::Push(2, 4, 965),
            Act::Push(2, 5, 0),
        ],
        slot: 2,
        chain: &[(17, 3_115), (18, 1_063)],
        newest: Some((5, 0)),
        free: &[],
    },
    // Two chains beside each other.
    Row {
        acts: &[
            Act::Push(0, 1, 0),
            Act::Push(31, 2, 9),
            Act::Push(0, 3, 984),
            Act::Push(31, 4, 0),
        ],
        slot: 0,
        chain: &[(17, 1_082)],
        newest: Some((3, 984)),
        free: &[],
    },
    Row {
        acts: &[
            Act::Push(0, 1, 0),
            Act::Push(31, 2, 9),
            Act::Push(0, 3, 984),
            Act::Push(31, 4, 0),
            Act::Finish(0),
        ],
        slot: 31,
        chain: &[(18, 107)],
        newest: Some((4, 0)),
        free: &[17],
    },
];

// Whether the slot's chain, its newest image and the free chain are these.
fn is_so<P: Pages>(pages: &mut P, row: &Row) -> Result<bool, StoreFault>
    requires usable { P.usable pages.old ≡ true }
    requires slot { row.now.slot < undo_slots }
{
    let chain = has_pages(pages, row.chain)?;
    let last = has_last(pages, row.slot, row.newest, !row.chain.is_empty())?;
    let free = has_free(pages, row.free)?;
    Ok(chain && last && free)
}

fn does<P: Pages>(pages: &mut P, row: &Row) -> Result<bool, StoreFault>
    requires usable { P.usable pages.old ≡ true }
    requires none { P.mini pages.old ≡ none_begun }
{
    if row.slot >= 32 {
        return Ok(false);
    }
    take_one(pages)?;
    do_all(pages, row.acts)?;
    let is = is_so(pages, row)?;
    Ok(is)
}

fn holds(alloc: Global, row: &Row) -> Result<bool, Fault> {
    let mut pages = MemPages::new(alloc, 128, 4, 0)?;
    let is = does(&mut pages, row)?;
    Ok(is)
}

// Writes a page of slot 1's chain without its entries, linked to that one.
fn empty<P: Pages>(pages: &mut P, page: u32, next: u32) -> Result<(), StoreFault>
    requires usable { P.usable pages.old ≡ true }
    requires none { P.mini pages.old ≡ none_begun }
    ensures usable { OnOk result (P.usable pages.new ≡ true) }
    ensures none { OnOk result (P.mini pages.new ≡ none_begun) }
{
    if page >= pages.pages() {
        return Ok(());
    }
    let mut old = Page::zeros();
    pages.read(PageNo(page), &mut old)?;
    let new = cut(&old, PageNo(next), 64);
    pages.begin();
    replace(pages, PageNo(page), &old, &new)?;
    pages.finish()?;
    Ok(())
}

// Ten images, of which the last six go without a call.
fn empties<P: Pages>(pages: &mut P) -> Result<(), StoreFault>
    requires usable { P.usable pages.old ≡ true }
    requires none { P.mini pages.old ≡ none_begun }
    ensures usable { OnOk result (P.usable pages.new ≡ true) }
    ensures none { OnOk result (P.mini pages.new ≡ none_begun) }
{
    take_one(pages)?;
    do_all(pages, ten!())?;
    empty(pages, 18, 19)?;
    empty(pages, 19, 0)?;
    Ok(())
}

fn skips<P: Pages>(pages: &mut P) -> Result<bool, StoreFault>
    requires usable { P.usable pages.old ≡ true }
    requires none { P.mini pages.old ≡ none_begun }
{
    empties(pages)?;
    let before = has_last(pages, 1, Some((4, 984)), true)?;
    do_all(pages, &[Act::Pop(1)])?;
    let chain = has_pages(pages, &[(17, 3_067)])?;
    let after = has_last(pages, 1, Some((3, 984)), true)?;
    let free = has_free(pages, &[18, 19])?;
    Ok(before && chain && after && free)
}

fn skip_both(alloc: Global) -> Result<bool, Fault> {
    let mut pages = MemPages::new(alloc, 128, 4, 0)?;
    let is = skips(&mut pages)?;
    Ok(is)
}

#[test]
fn empty_pages_go(rt: HostRuntime) {
    assert!(rt; skip_both(rt.alloc()) == Ok(true));
}

#[test]
fn rows_hold(rt: HostRuntime) -> Result<(), Fail> {
    for row in &ROWS {
        assert!(rt; holds(rt.alloc(), row) == Ok(true));
    }
    Ok(())
}
