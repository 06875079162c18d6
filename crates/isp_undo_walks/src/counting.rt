//! The way along a chain from its first page on.
ghost use Rattle.std.specs.Prelude.{◌≡◌, ◌≢◌, ◌+◌, ◌<◌, ◌≤◌, List, ℕ, true, false, length, IfErr, IfOk, OnOk};
ghost use Rattle.isp_format.specs.Ranges.{page_of};
ghost use Rattle.isp_format.specs.Undo.{IsUndoPage, OldImage};
ghost use Rattle.isp_page.specs.Steps.{IsNoDamage};
ghost use Rattle.isp_space.specs.Changes.{ReadsPages};
ghost use Rattle.isp_undo_walks.specs.Slots.{IsInside, NamesUndo, NamesWalk};
ghost use Rattle.isp_undo_walks.specs.Chains.{Chain, ends_of, last_page};
ghost use Rattle.isp_undo_walks.specs.Walks.{IsOn, IsWay};
ghost use Rattle.isp_undo_pages.specs.Directory.{ends_in};

use crate::reading::{broken, linked, read_undo};
use isp_format::{Page, PageNo, WALK_RULE, head};
use isp_page::{Pages, StoreFault};
use isp_undo_pages::Slot;

/// A page to which a walk along a chain has come.
#[derive(Clone, Copy)]
pub struct Place {
    pub page: PageNo,
    /// The page that it is linked to.
    pub next: PageNo,
    /// How many pages were passed before it.
    pub passed: u32,
}

// The next page of an undo page that is linked backwards to that one.
fn next_of<P: Pages>(pages: &mut P, page: PageNo, before: PageNo) -> Result<PageNo, StoreFault>
    requires usable { P.usable pages.old ≡ true }
    requires page { page.0 < (P.shape pages.old).pages }
    ensures reads { ReadsPages P.Pages NamesUndo pages.old pages.new result }
    ensures next { P.tells → (next : ℕ) (images : List OldImage)
        → IsUndoPage (page_of (P.contents pages.old) page.0) page.0 before.0 next images
        → IfOk result (λ found. found.0 ≡ next) }
    ensures sound { P.tells → (next : ℕ) (images : List OldImage)
        → IsUndoPage (page_of (P.contents pages.old) page.0) page.0 before.0 next images
        → IfErr result IsNoDamage }
{
    let mut p = Page::zeros();
    let _used = read_undo(pages, page, &mut p)?;
    let h = head(&p);
    if h.prev.0 == before.0 {
        Ok(h.next)
    } else {
        Err(broken(page))
    }
}

// One page on.
fn step_on<P: Pages>(pages: &mut P, place: Place) -> Result<Place, StoreFault>
    requires usable { P.usable pages.old ≡ true }
    ensures reads { ReadsPages P.Pages NamesWalk pages.old pages.new result }
    ensures on { IfOk result (λ now. (now.passed ≡ place.passed + 1)
        × (now.passed ≤ (P.shape pages.old).pages)) }
    ensures next { P.tells → (way : Chain)
        → IsWay (P.shape pages.old).pages (P.contents pages.old) 0 way → IsOn way place
        → last_page 0 way ≢ place.page.0 → IfOk result (IsOn way) }
    ensures sound { P.tells → (way : Chain)
        → IsWay (P.shape pages.old).pages (P.contents pages.old) 0 way → IsOn way place
        → last_page 0 way ≢ place.page.0 → IfErr result IsNoDamage }
{
    let count = pages.pages();
    if place.passed >= count {
        return Err(StoreFault::Damaged {
            page: place.page.0,
            rule: WALK_RULE,
        });
    }
    let page = linked(place.page, place.next, count)?;
    let next = next_of(pages, page, place.page)?;
    let passed = place.passed + 1;
    Ok(Place { page, next, passed })
}

// Whether a page is none of that number.
fn is_before(page: PageNo, last: PageNo) -> bool
    ensures before { result ≡ true → page.0 ≢ last.0 }
    ensures at { result ≡ false → page.0 ≡ last.0 }
{
    page.0 != last.0
}

/// How many pages a chain with these ends has.
pub fn count_pages<P: Pages>(pages: &mut P, ends: Slot) -> Result<u32, StoreFault>
    requires usable { P.usable pages.old ≡ true }
    requires ends { IsInside (P.shape pages.old).pages ends }
    ensures reads { ReadsPages P.Pages NamesWalk pages.old pages.new result }
    ensures count { P.tells → (way : Chain)
        → IsWay (P.shape pages.old).pages (P.contents pages.old) 0 way → ends_in ends ≡ ends_of way
        → IfOk result (λ count. count ≡ length way) }
    ensures sound { P.tells → (way : Chain)
        → IsWay (P.shape pages.old).pages (P.contents pages.old) 0 way → ends_in ends ≡ ends_of way
        → IfErr result IsNoDamage }
{
    let _count = pages.pages();
    let page = ends.first;
    let next = next_of(pages, page, PageNo(0))?;
    let mut place = Place {
        page,
        next,
        passed: 0,
    };
    'on: while is_before(place.page, ends.last) {
        place = step_on(pages, place)?;
    }
    if place.next.0 == 0 {
        Ok(place.passed + 1)
    } else {
        Err(broken(place.page))
    }
}
