//! The way back along a chain, over empty pages at its end.
ghost use Rattle.std.specs.Prelude.{◌≡◌, ◌≢◌, ◌+◌, ◌<◌, ◌≤◌, List, ℕ, true, false, length, IfErr, IfOk, OnOk};
ghost use Rattle.std.specs.List.{flat_map};
ghost use Rattle.isp_format.specs.Kinds.{content_place};
ghost use Rattle.isp_format.specs.Ranges.{page_bytes, page_of};
ghost use Rattle.isp_format.specs.Undo.{IsUndoPage, OldImage, image_bytes};
ghost use Rattle.isp_page.specs.Steps.{IsNoDamage};
ghost use Rattle.isp_space.specs.Changes.{ReadsPages};
ghost use Rattle.isp_undo_walks.specs.Slots.{NamesUndo, NamesWalk};
ghost use Rattle.isp_undo_walks.specs.Chains.{Chain, first_page, last_page};
ghost use Rattle.isp_undo_walks.specs.Walks.{IsBack, IsLastUsed, IsWay};

use crate::reading::{broken, linked, read_undo};
use isp_format::{CONTENT_PLACE, Page, PageNo, WALK_RULE, head};
use isp_page::{Pages, StoreFault};

/// A page to which a walk back along a chain has come.
#[derive(Clone, Copy)]
pub struct Stop {
    pub page: PageNo,
    /// Where its entries end.
    pub used: usize,
    /// How many pages were passed before it.
    pub passed: u32,
}

// Where the entries of an undo page end that is linked to that next page. Its bytes come into `into`.
fn read_before<P: Pages>(
    pages: &mut P,
    page: PageNo,
    next: PageNo,
    into: &mut Page,
) -> Result<usize, StoreFault>
    requires usable { P.usable pages.old ≡ true }
    requires page { page.0 < (P.shape pages.old).pages }
    ensures reads { ReadsPages P.Pages NamesUndo pages.old pages.new result }
    ensures page { P.tells → OnOk result (into.new.bytes ≡ page_of (P.contents pages.old) page.0) }
    ensures within { IfOk result (λ used. (content_place ≤ used) × (used ≤ page_bytes)) }
    ensures used { P.tells → (before : ℕ) (images : List OldImage)
        → IsUndoPage (page_of (P.contents pages.old) page.0) page.0 before next.0 images
        → IfOk result (λ used. used ≡ content_place + length (flat_map image_bytes images)) }
    ensures sound { P.tells → (before : ℕ) (images : List OldImage)
        → IsUndoPage (page_of (P.contents pages.old) page.0) page.0 before next.0 images
        → IfErr result IsNoDamage }
{
    let used = read_undo(pages, page, into)?;
    if head(into).next.0 == next.0 {
        Ok(used)
    } else {
        Err(broken(page))
    }
}

// One page back, from one whose bytes are given; those of the page before it are there then.
fn step_back<P: Pages>(pages: &mut P, stop: Stop, into: &mut Page) -> Result<Stop, StoreFault>
    requires usable { P.usable pages.old ≡ true }
    ensures reads { ReadsPages P.Pages NamesWalk pages.old pages.new result }
    ensures inside { IfOk result (λ now. now.page.0 < (P.shape pages.old).pages) }
    ensures within { IfOk result (λ now. (content_place ≤ now.used) × (now.used ≤ page_bytes)) }
    ensures on { IfOk result (λ now. (now.passed ≡ stop.passed + 1)
        × (now.passed ≤ (P.shape pages.old).pages)) }
    ensures page { P.tells → IfOk result (λ now. into.new.bytes
        ≡ page_of (P.contents pages.old) now.page.0) }
    ensures back { P.tells → into.old.bytes ≡ page_of (P.contents pages.old) stop.page.0
        → (behind : ℕ) (way : Chain)
        → IsWay (P.shape pages.old).pages (P.contents pages.old) behind way → IsBack way stop
        → stop.used ≡ content_place → first_page 0 way ≢ stop.page.0 → IfOk result (IsBack way) }
    ensures sound { P.tells → into.old.bytes ≡ page_of (P.contents pages.old) stop.page.0
        → (behind : ℕ) (way : Chain)
        → IsWay (P.shape pages.old).pages (P.contents pages.old) behind way → IsBack way stop
        → first_page 0 way ≢ stop.page.0 → IfErr result IsNoDamage }
{
    let count = pages.pages();
    if stop.passed >= count {
        return Err(StoreFault::Damaged {
            page: stop.page.0,
            rule: WALK_RULE,
        });
    }
    let page = linked(stop.page, head(into).prev, count)?;
    let used = read_before(pages, page, stop.page, into)?;
    let passed = stop.passed + 1;
    Ok(Stop { page, used, passed })
}

// Whether a page has no entry and isn't the first.
fn is_passed(stop: Stop, first: PageNo) -> bool
    ensures empty { result ≡ true → stop.used ≡ content_place }
    ensures other { result ≡ true → first.0 ≢ stop.page.0 }
    ensures stops { result ≡ false → first.0 ≢ stop.page.0 → stop.used ≢ content_place }
{
    if stop.used == CONTENT_PLACE {
        first.0 != stop.page.0
    } else {
        false
    }
}

/// The last page of a way that has an entry, or its first page, going back from the last one, which is linked to that next
/// page. The bytes of the page come into `into`.
pub fn last_used<P: Pages>(
    pages: &mut P,
    first: PageNo,
    last: PageNo,
    next: PageNo,
    into: &mut Page,
) -> Result<Stop, StoreFault>
    requires usable { P.usable pages.old ≡ true }
    requires page { last.0 < (P.shape pages.old).pages }
    ensures reads { ReadsPages P.Pages NamesWalk pages.old pages.new result }
    ensures inside { IfOk result (λ stop. stop.page.0 < (P.shape pages.old).pages) }
    ensures within { IfOk result (λ stop. (content_place ≤ stop.used) × (stop.used ≤ page_bytes)) }
    ensures few { IfOk result (λ stop. stop.passed ≤ (P.shape pages.old).pages) }
    ensures page { P.tells → IfOk result (λ stop. into.new.bytes
        ≡ page_of (P.contents pages.old) stop.page.0) }
    ensures found { P.tells → (way : Chain)
        → IsWay (P.shape pages.old).pages (P.contents pages.old) next.0 way → 0 < length way
        → first_page 0 way ≡ first.0 → last_page 0 way ≡ last.0 → IfOk result (IsLastUsed way) }
    ensures sound { P.tells → (way : Chain)
        → IsWay (P.shape pages.old).pages (P.contents pages.old) next.0 way → 0 < length way
        → first_page 0 way ≡ first.0 → last_page 0 way ≡ last.0 → IfErr result IsNoDamage }
{
    let used = read_before(pages, last, next, into)?;
    let mut stop = Stop {
        page: last,
        used,
        passed: 0,
    };
    'back: while is_passed(stop, first) {
        stop = step_back(pages, stop, into)?;
    }
    Ok(stop)
}
