//! Writing one page of a chain, or the directory.
ghost use Rattle.std.specs.Prelude.{◌≡◌, ◌+◌, ◌<◌, ◌≤◌, ◌++◌, [], ◌∷◌, List, ℕ, length, set, IfErr, OnOk};
ghost use Rattle.std.specs.List.{flat_map};
ghost use Rattle.isp_format.specs.Kinds.{content_place};
ghost use Rattle.isp_format.specs.Ranges.{page_bytes, page_of};
ghost use Rattle.isp_format.specs.Undo.{IsUndoDirectory, IsUndoPage, OldImage, Slot as Ends, image_bytes, image_head, undo_slots};
ghost use Rattle.isp_page.specs.Steps.{IsNoDamage};
ghost use Rattle.isp_space.specs.Changes.{ChangesPages, MayChange};
ghost use Rattle.isp_undo_walks.specs.Slots.{NamesUndo};
ghost use Rattle.isp_undo_pages.specs.Directory.{ends_in};
ghost use Rattle.isp_undo_pages.specs.Entries.{IsBuf, image_in};

use crate::reading::DIRECTORY;
use isp_format::{CONTENT_PLACE, Page, PageNo};
use isp_page::{Pages, StoreFault, replace};
use isp_undo_pages::{Slot, UndoBuf, cut, fresh, with_entry, with_slot};

/// Puts the entry on the last page of a chain, behind the entries that end at that place.
pub fn push_on<P: Pages>(
    pages: &mut P,
    last: PageNo,
    page: &Page,
    used: usize,
    old: &UndoBuf,
) -> Result<(), StoreFault>
    requires can { MayChange P.Pages 1 pages.old }
    requires page { last.0 < (P.shape pages.old).pages }
    requires from { content_place ≤ used }
    requires room { used + image_head + old.now.len ≤ page_bytes }
    requires buf { IsBuf old.now }
    ensures changes { ChangesPages P.Pages (last.0 ∷ []) NamesUndo pages.old pages.new result }
    ensures page { P.tells → page.now.bytes ≡ page_of (P.contents pages.old) last.0
        → (before next : ℕ) (images : List OldImage)
        → IsUndoPage (page_of (P.contents pages.old) last.0) last.0 before next images
        → used ≡ content_place + length (flat_map image_bytes images)
        → OnOk result (IsUndoPage (page_of (P.contents pages.new) last.0) last.0 before next
        (images ++ image_in old.now ∷ [])) }
    ensures sound { IfErr result IsNoDamage }
{
    let new = with_entry(page, used, old);
    replace(pages, last, page, &new)?;
    Ok(())
}

/// Makes a page that was taken an undo page with this one entry, behind that page.
pub fn make_page<P: Pages>(
    pages: &mut P,
    p: PageNo,
    before: PageNo,
    old: &UndoBuf,
) -> Result<(), StoreFault>
    requires can { MayChange P.Pages 1 pages.old }
    requires page { p.0 < (P.shape pages.old).pages }
    requires buf { IsBuf old.now }
    ensures changes { ChangesPages P.Pages (p.0 ∷ []) NamesUndo pages.old pages.new result }
    ensures page { P.tells → OnOk result (IsUndoPage (page_of (P.contents pages.new) p.0) p.0 before.0 0
        (image_in old.now ∷ [])) }
    ensures sound { IfErr result IsNoDamage }
{
    let mut page = Page::zeros();
    pages.read(p, &mut page)?;
    let empty = fresh(&page, p, before);
    let new = with_entry(&empty, CONTENT_PLACE, old);
    replace(pages, p, &page, &new)?;
    Ok(())
}

/// Writes the ends of a slot's chain into the directory, whose bytes are given.
pub fn write_slot<P: Pages>(
    pages: &mut P,
    directory: &Page,
    slot: u32,
    ends: Slot,
) -> Result<(), StoreFault>
    requires can { MayChange P.Pages 1 pages.old }
    requires slot { slot < undo_slots }
    ensures changes { ChangesPages P.Pages (1 ∷ []) NamesUndo pages.old pages.new result }
    ensures slots { P.tells → directory.now.bytes ≡ page_of (P.contents pages.old) 1
        → (slots : List Ends) → IsUndoDirectory (page_of (P.contents pages.old) 1) slots
        → OnOk result (IsUndoDirectory (page_of (P.contents pages.new) 1)
        (set slots slot (ends_in ends))) }
    ensures sound { IfErr result IsNoDamage }
{
    let _count = pages.pages();
    let new = with_slot(directory, slot, ends);
    replace(pages, DIRECTORY, directory, &new)?;
    Ok(())
}

/// Links a page to the next one, and lets its entries end at that place.
pub fn cut_page<P: Pages>(
    pages: &mut P,
    p: PageNo,
    page: &Page,
    used: usize,
    next: PageNo,
) -> Result<(), StoreFault>
    requires can { MayChange P.Pages 1 pages.old }
    requires page { p.0 < (P.shape pages.old).pages }
    requires to { used ≤ page_bytes }
    ensures changes { ChangesPages P.Pages (p.0 ∷ []) NamesUndo pages.old pages.new result }
    ensures page { P.tells → page.now.bytes ≡ page_of (P.contents pages.old) p.0
        → (before was : ℕ) (images gone : List OldImage)
        → IsUndoPage (page_of (P.contents pages.old) p.0) p.0 before was (images ++ gone)
        → used ≡ content_place + length (flat_map image_bytes images)
        → OnOk result (IsUndoPage (page_of (P.contents pages.new) p.0) p.0 before next.0 images) }
    ensures sound { IfErr result IsNoDamage }
{
    let new = cut(page, next, used);
    replace(pages, p, page, &new)?;
    Ok(())
}
