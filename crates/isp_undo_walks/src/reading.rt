//! Reading the directory and the pages of a chain.
ghost use Rattle.std.specs.Prelude.{◌≡◌, ◌+◌, ◌<◌, ◌≤◌, List, ℕ, true, length, IfErr, IfOk, IfSome, OnOk, Ok, Some, None};
ghost use Rattle.std.specs.List.{flat_map};
ghost use Rattle.std.specs.Option.{option_map};
ghost use Rattle.isp_format.specs.Empty.{first_fresh};
ghost use Rattle.isp_format.specs.Kinds.{content_place};
ghost use Rattle.isp_format.specs.Ranges.{page_bytes, page_of};
ghost use Rattle.isp_format.specs.Undo.{IsUndoPage, OldImage, Slot as Ends, image_bytes, undo_slots};
ghost use Rattle.isp_page.specs.Steps.{IsNoDamage};
ghost use Rattle.isp_space.specs.Changes.{ReadsPages};
ghost use Rattle.isp_undo_walks.specs.Slots.{HasChainIn, IsInside, NamesUndo, broken_at, found_of, is_begun};
ghost use Rattle.isp_undo_walks.specs.Chains.{Chain};
ghost use Rattle.isp_undo_pages.specs.Directory.{ends_in};

use isp_format::{FIRST_FRESH, Page, PageNo, UNDO_DIRECTORY_PAGE, UNDO_RULE};
use isp_page::{Pages, StoreFault};
use isp_undo_pages::{Slot, slot_in, used_of};

/// The page of the directory.
pub const DIRECTORY: PageNo = PageNo(UNDO_DIRECTORY_PAGE);

/// What is said of an undo page that isn't what it should be.
pub fn broken(page: PageNo) -> StoreFault
    ensures { result ≡ broken_at page.0 }
{
    StoreFault::Damaged {
        page: page.0,
        rule: UNDO_RULE,
    }
}

// Whether both ends may be pages of a chain, in a file of so many pages.
fn is_inside(slot: Slot, pages: u32) -> bool
    ensures inside { result ≡ true → IsInside pages slot }
    ensures outside { IsInside pages slot → result ≡ true }
{
    let from = FIRST_FRESH <= slot.first.0 && FIRST_FRESH <= slot.last.0;
    from && slot.first.0 < pages && slot.last.0 < pages
}

// The ends of a slot's chain, where it has one and they lie in a file of so many pages.
fn ends_of(slot: Slot, pages: u32) -> Result<Option<Slot>, StoreFault>
    ensures inside { IfOk result (λ found. IfSome found (IsInside pages)) }
    ensures names { IfErr result (λ e. e ≡ broken_at 1) }
    ensures none { slot.first.0 ≡ 0 → slot.last.0 ≡ 0 → result ≡ Ok None }
    ensures some { IsInside pages slot → result ≡ Ok (Some slot) }
{
    if slot.first.0 == 0 && slot.last.0 == 0 {
        Ok(None)
    } else if is_inside(slot, pages) {
        Ok(Some(slot))
    } else {
        Err(broken(DIRECTORY))
    }
}

/// The ends of a slot's chain, if it has one. The directory's bytes come into `into`.
pub fn read_slot<P: Pages>(
    pages: &mut P,
    slot: u32,
    into: &mut Page,
) -> Result<Option<Slot>, StoreFault>
    requires usable { P.usable pages.old ≡ true }
    requires slot { slot < undo_slots }
    ensures reads { ReadsPages P.Pages NamesUndo pages.old pages.new result }
    ensures page { P.tells → OnOk result (into.new.bytes ≡ page_of (P.contents pages.old) 1) }
    ensures inside { IfOk result (λ found. IfSome found (IsInside (P.shape pages.old).pages)) }
    ensures found { P.tells → (slots : List Ends) (chain : Chain)
        → HasChainIn P.Pages pages.old slots slot chain
        → IfOk result (λ found. option_map ends_in found ≡ found_of chain) }
    ensures sound { P.tells → (slots : List Ends) (chain : Chain)
        → HasChainIn P.Pages pages.old slots slot chain → IfErr result IsNoDamage }
{
    let count = pages.pages();
    pages.read(DIRECTORY, into)?;
    let found = ends_of(slot_in(into, slot), count)?;
    Ok(found)
}

/// Where the entries of an undo page end, whose bytes come into `into`.
pub fn read_undo<P: Pages>(
    pages: &mut P,
    page: PageNo,
    into: &mut Page,
) -> Result<usize, StoreFault>
    requires usable { P.usable pages.old ≡ true }
    requires page { page.0 < (P.shape pages.old).pages }
    ensures reads { ReadsPages P.Pages NamesUndo pages.old pages.new result }
    ensures page { P.tells → OnOk result (into.new.bytes ≡ page_of (P.contents pages.old) page.0) }
    ensures within { IfOk result (λ used. (content_place ≤ used) × (used ≤ page_bytes)) }
    ensures used { P.tells → (before next : ℕ) (images : List OldImage)
        → IsUndoPage (page_of (P.contents pages.old) page.0) page.0 before next images
        → IfOk result (λ used. used ≡ content_place + length (flat_map image_bytes images)) }
    ensures sound { P.tells → (before next : ℕ) (images : List OldImage)
        → IsUndoPage (page_of (P.contents pages.old) page.0) page.0 before next images
        → IfErr result IsNoDamage }
{
    pages.read(page, into)?;
    match used_of(into, page.0) {
        Some(used) => Ok(used),
        None => Err(broken(page)),
    }
}

/// The page to which that one is linked, in a file of so many pages.
pub fn linked(page: PageNo, to: PageNo, pages: u32) -> Result<PageNo, StoreFault>
    ensures inside { IfOk result (λ p. p.0 < pages) }
    ensures same { IfOk result (λ p. p ≡ to) }
    ensures names { IfErr result (λ e. e ≡ broken_at page.0) }
    ensures refused { IfErr result (λ e. first_fresh ≤ to.0 → to.0 < pages → ⊥) }
{
    if FIRST_FRESH <= to.0 && to.0 < pages {
        Ok(to)
    } else {
        Err(broken(page))
    }
}

/// Whether a slot has a chain.
///
/// # Errors
///
/// Disk; or Damaged, with page 1 and rule 10, where the directory says no chain and not none.
pub fn is_begun<P: Pages>(pages: &mut P, slot: u32) -> Result<bool, StoreFault>
    requires usable { P.usable pages.old ≡ true }
    requires slot { slot < undo_slots }
    ensures reads { ReadsPages P.Pages NamesUndo pages.old pages.new result }
    ensures begun { P.tells → (slots : List Ends) (chain : Chain)
        → HasChainIn P.Pages pages.old slots slot chain
        → IfOk result (λ begun. begun ≡ is_begun chain) }
    ensures sound { P.tells → (slots : List Ends) (chain : Chain)
        → HasChainIn P.Pages pages.old slots slot chain → IfErr result IsNoDamage }
{
    let mut page = Page::zeros();
    let found = read_slot(pages, slot, &mut page)?;
    Ok(found.is_some())
}
