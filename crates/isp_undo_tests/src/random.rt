//! Bytes that say no chain: each call returns.
ghost use Rattle.std.specs.Prelude.{◌≡◌, ◌<◌, true, OnOk};
ghost use Rattle.isp_page.specs.State.{none_begun};

use crate::acts::{Act, do_all, do_one, take_one};
use crate::drawn::draw_at;
use crate::seen::has_last;
use isp_format::{PAGE_BYTES, Page, PageNo, head, set_head};
use isp_page::{Fault, MemPages, Pages, StoreFault, replace};
use std::alloc::Global;
use std::test::Fail;

// The page with drawn bytes from that place on.
fn scattered(old: &Page, from: usize, seed: u64) -> Page {
    let mut new = *old;
    for at in from..PAGE_BYTES {
        new.bytes[at] = (draw_at(seed.wrapping_add(at as u64)) % 256) as u8;
    }
    new
}

// The page with links to drawn pages, few of which are in the file, and a drawn end.
fn relinked(old: &Page, seed: u64) -> Page {
    let mut new = *old;
    let mut h = head(old);
    h.next = PageNo((draw_at(seed) % 24) as u32);
    h.prev = PageNo((draw_at(seed.wrapping_add(1)) % 24) as u32);
    h.used = (draw_at(seed.wrapping_add(2)) % 5_000) as u32;
    set_head(&mut new, &h);
    new
}

// Exchanges a page.
fn exchange<P: Pages>(pages: &mut P, page: u32, from: usize, seed: u64) -> Result<(), StoreFault>
    requires usable { P.usable pages.old ≡ true }
    requires none { P.mini pages.old ≡ none_begun }
    ensures usable { OnOk result (P.usable pages.new ≡ true) }
    ensures none { OnOk result (P.mini pages.new ≡ none_begun) }
{
    if page >= pages.pages() {
        return Ok(());
    }
    let mut old = Page::zeros();
    pages.read(PageNo(page), &mut old)?;
    let new = if page == 1 {
        scattered(&old, from, seed)
    } else {
        relinked(&scattered(&old, from, seed), seed)
    };
    pages.begin();
    replace(pages, PageNo(page), &old, &new)?;
    pages.finish()?;
    Ok(())
}

static PUSHES: [Act; 12] = [
    Act::Push(1, 1, 984),
    Act::Push(2, 2, 984),
    Act::Push(1, 3, 984),
    Act::Push(2, 4, 984),
    Act::Push(1, 5, 984),
    Act::Push(2, 6, 984),
    Act::Push(1, 7, 984),
    Act::Push(2, 8, 984),
    Act::Push(1, 9, 984),
    Act::Push(2, 10, 984),
    Act::Push(1, 11, 984),
    Act::Push(2, 12, 984),
];

/// A call that is tried on damaged pages.
static CALLS: [Act; 6] = [
    Act::Push(1, 13, 0),
    Act::Push(2, 13, 984),
    Act::Pop(1),
    Act::Pop(2),
    Act::Finish(1),
    Act::Finish(2),
];

// A page of the two chains, or the directory.
fn page_of(draw: u64) -> u32 {
    match draw {
        0 => 1,
        1 => 17,
        2 => 18,
        3 => 19,
        _ => 20,
    }
}

// Two chains, of whose pages one or the directory is damaged.
fn damage<P: Pages>(pages: &mut P, seed: u64) -> Result<(), StoreFault>
    requires usable { P.usable pages.old ≡ true }
    requires none { P.mini pages.old ≡ none_begun }
    ensures usable { OnOk result (P.usable pages.new ≡ true) }
    ensures none { OnOk result (P.mini pages.new ≡ none_begun) }
{
    take_one(pages)?;
    do_all(pages, &PUSHES)?;
    let page = page_of(draw_at(seed) % 5);
    let from = 64 + (draw_at(seed.wrapping_add(7)) % 1_200) as usize;
    exchange(pages, page, from, seed)?;
    Ok(())
}

// Tries a call on such pages.
fn try_one(alloc: Global, act: Act, seed: u64) -> Result<(), Fault> {
    let mut pages = MemPages::new(alloc, 128, 4, 0)?;
    damage(&mut pages, seed)?;
    let _there = has_last(&mut pages, 1, None, true)?;
    do_one(&mut pages, act)?;
    Ok(())
}

// Whether a call returned, with a rule of undo pages or of the space where it refused.
fn returns(alloc: Global, act: Act, seed: u64) -> bool {
    match try_one(alloc, act, seed) {
        Err(Fault::Store(StoreFault::Damaged { page: _, rule })) => {
            rule == 10 || rule == 13 || rule == 4 || rule == 5
        }
        Err(_) => false,
        Ok(()) => true,
    }
}

#[test]
fn damaged_pages_end_each_call(rt: HostRuntime) -> Result<(), Fail> {
    for act in &CALLS {
        for seed in 0..12 {
            assert!(rt; returns(rt.alloc(), *act, seed * 100));
        }
    }
    Ok(())
}
