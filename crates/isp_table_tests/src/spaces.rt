//! The space of a file of 64 pages.
ghost use Rattle.std.specs.Prelude.{◌≡◌, true, OnOk};
ghost use Rattle.isp_page.specs.State.{none_begun};

use isp_format::PageNo;
use isp_page::{Fault, MemPages, Pages, StoreFault};
use isp_space::{
    add_bytes, count_table, draw_number, free_count, has_room, table_count, take_page,
};
use std::alloc::Global;

// Takes a page, and draws a number, counts a table and adds bytes besides.
fn take<P: Pages>(pages: &mut P) -> Result<(PageNo, u64, u32), StoreFault>
    requires usable { P.usable pages.old ≡ true }
    requires none { P.mini pages.old ≡ none_begun }
    ensures usable { OnOk result (P.usable pages.new ≡ true) }
    ensures none { OnOk result (P.mini pages.new ≡ none_begun) }
{
    pages.begin();
    let page = take_page(pages)?;
    let number = draw_number(pages)?;
    let table = count_table(pages)?;
    add_bytes(pages, 13)?;
    pages.finish()?;
    Ok((page, number, table))
}

// Whether so many pages are free and tables there, with room or without.
fn has<P: Pages>(pages: &mut P, free: u32, tables: u32, room: bool) -> Result<bool, StoreFault>
    requires usable { P.usable pages.old ≡ true }
    ensures usable { OnOk result (P.usable pages.new ≡ true) }
    ensures mini { OnOk result (P.mini pages.new ≡ P.mini pages.old) }
{
    let is_free = free_count(pages)?;
    let counted = table_count(pages)?;
    let has = has_room(pages)?;
    Ok(is_free == free && counted == tables && has == room)
}

// Two pages are taken, one after another.
fn is_taken<P: Pages>(pages: &mut P) -> Result<bool, StoreFault>
    requires usable { P.usable pages.old ≡ true }
    requires none { P.mini pages.old ≡ none_begun }
{
    let empty = has(pages, 48, 0, true)?;
    let first = take(pages)?;
    let second = take(pages)?;
    let after = has(pages, 46, 2, false)?;
    Ok(empty && after && first == (PageNo(16), 0, 0) && second == (PageNo(17), 1, 1))
}

fn is_so(alloc: Global) -> Result<bool, Fault> {
    let mut pages = MemPages::new(alloc, 64, 4, 0)?;
    let taken = is_taken(&mut pages)?;
    Ok(taken)
}

#[test]
fn pages_and_numbers_rise(rt: HostRuntime) {
    assert!(rt; is_so(rt.alloc()) == Ok(true));
}
