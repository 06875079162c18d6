//! Entries that are found where they were put, and not after they are taken out.
ghost use Rattle.std.specs.Prelude.{◌≡◌, true, OnOk};
ghost use Rattle.isp_page.specs.State.{none_begun};

use crate::putting::{box_of, run};
use crate::stages::STAGES;
use isp_format::PageNo;
use isp_page::{Fault, MemPages, Pages, StoreFault};
use isp_rfind::find;
use isp_rtree::remove;
use std::alloc::Global;

// The page where the entry of the point (5, 5) with that number is found, or 0.
fn found<P: Pages>(alloc: Global, pages: &mut P, number: u64) -> Result<u32, Fault>
    requires usable { P.usable pages.old ≡ true }
    requires none { P.mini pages.old ≡ none_begun }
    ensures usable { OnOk result (P.usable pages.new ≡ true) }
    ensures none { OnOk result (P.mini pages.new ≡ none_begun) }
{
    let Some(b) = box_of([5, 5, 5, 5]) else {
        return Ok(0);
    };
    if pages.pages() <= 16 {
        return Ok(0);
    }
    match find(alloc, pages, PageNo(16), &b, number)? {
        Some(page) => Ok(page.0),
        None => Ok(0),
    }
}

// Takes an entry out of page 19.
fn take_out<P: Pages>(pages: &mut P, number: u64) -> Result<(), StoreFault>
    requires usable { P.usable pages.old ≡ true }
    requires none { P.mini pages.old ≡ none_begun }
    ensures usable { OnOk result (P.usable pages.new ≡ true) }
    ensures none { OnOk result (P.mini pages.new ≡ none_begun) }
{
    if pages.pages() <= 19 {
        return Ok(());
    }
    pages.begin();
    remove(pages, PageNo(19), number)?;
    pages.finish()?;
    Ok(())
}

fn is_found(alloc: Global) -> Result<bool, Fault> {
    let mut pages = MemPages::new(alloc, 128, 4, 0)?;
    let _told = run(alloc, &mut pages, &STAGES[2])?;
    let there = found(alloc, &mut pages, 4)?;
    let other = found(alloc, &mut pages, 3)?;
    take_out(&mut pages, 4)?;
    let gone = found(alloc, &mut pages, 4)?;
    Ok(there == 19 && other == 0 && gone == 0)
}

#[test]
fn an_entry_is_found_until_it_is_removed(rt: HostRuntime) {
    assert!(rt; is_found(rt.alloc()) == Ok(true));
}
