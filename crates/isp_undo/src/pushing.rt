//! A slot gets one image more.
ghost use Rattle.std.specs.Prelude.{◌≡◌, ◌+◌, ◌<◌, ◌≤◌, ◌++◌, [], ◌∷◌, List, ℕ, true, false, length, nat_le, IfErr, OnOk};
ghost use Rattle.isp_format.specs.Empty.{first_fresh};
ghost use Rattle.isp_format.specs.Kinds.{content_place};
ghost use Rattle.isp_format.specs.Ranges.{page_bytes, page_of};
ghost use Rattle.isp_format.specs.Undo.{Slot as Ends, undo_slots};
ghost use Rattle.isp_page.specs.Steps.{IsNoDamage};
ghost use Rattle.isp_space.specs.Changes.{MayChange};
ghost use Rattle.isp_space.specs.Spaces.{Space};
ghost use Rattle.isp_undo_walks.specs.Slots.{IsInside};
ghost use Rattle.isp_undo.specs.Calls.{CanPushIn, ChangesChain, Pushes, most_pages};
ghost use Rattle.isp_undo_walks.specs.Chains.{Chain, UndoPage, end_of, ends_of};
ghost use Rattle.isp_undo.specs.Chains.{takes_page};
ghost use Rattle.isp_undo_pages.specs.Directory.{ends_in};
ghost use Rattle.isp_undo_pages.specs.Entries.{IsBuf, image_in};

use isp_format::{PAGE_BYTES, Page, PageNo};
use isp_page::{Pages, StoreFault};
use isp_space::take_page;
use isp_undo_pages::{Slot, UndoBuf, entry_size};
use isp_undo_walks::{cut_page, make_page, push_on, read_slot, read_undo, write_slot};

// Whether an entry of so many bytes has room behind that place.
fn has_room(used: usize, size: usize) -> bool
    requires used { used ≤ page_bytes }
    requires size { size ≤ page_bytes }
    ensures { result ≡ nat_le (used + size) page_bytes }
{
    used + size <= PAGE_BYTES
}

// Begins a slot's chain, with this one entry.
fn begin<P: Pages>(
    pages: &mut P,
    directory: &Page,
    slot: u32,
    old: &UndoBuf,
) -> Result<(), StoreFault>
    requires can { MayChange P.Pages most_pages pages.old }
    requires slot { slot < undo_slots }
    requires buf { IsBuf old.now }
    ensures changes { ChangesChain P.Pages pages.old pages.new result }
    ensures pushed { P.tells → directory.now.bytes ≡ page_of (P.contents pages.old) 1
        → (slots : List Ends) (s : Space)
        → CanPushIn P.Pages pages.old slots slot [] s (image_in old.now)
        → OnOk result (Pushes P.Pages pages.old pages.new slots slot [] s (image_in old.now)) }
    ensures sound { P.tells → (slots : List Ends) (s : Space)
        → CanPushIn P.Pages pages.old slots slot [] s (image_in old.now) → IfErr result IsNoDamage }
{
    let p = take_page(pages)?;
    make_page(pages, p, PageNo(0), old)?;
    write_slot(pages, directory, slot, Slot { first: p, last: p })?;
    Ok(())
}

// Takes a page for this entry and links it behind the last page, whose bytes are given and whose entries end at that place.
fn extend<P: Pages>(
    pages: &mut P,
    directory: &Page,
    slot: u32,
    ends: Slot,
    page: &Page,
    used: usize,
    old: &UndoBuf,
) -> Result<(), StoreFault>
    requires can { MayChange P.Pages most_pages pages.old }
    requires slot { slot < undo_slots }
    requires ends { IsInside (P.shape pages.old).pages ends }
    requires to { used ≤ page_bytes }
    requires buf { IsBuf old.now }
    ensures changes { ChangesChain P.Pages pages.old pages.new result }
    ensures pushed { P.tells → directory.now.bytes ≡ page_of (P.contents pages.old) 1
        → page.now.bytes ≡ page_of (P.contents pages.old) ends.last.0
        → (slots : List Ends) (front : Chain) (p : UndoPage) (s : Space)
        → CanPushIn P.Pages pages.old slots slot (front ++ p ∷ []) s (image_in old.now)
        → ends_in ends ≡ ends_of (front ++ p ∷ []) → used ≡ end_of p
        → takes_page (image_in old.now) (front ++ p ∷ []) ≡ true
        → OnOk result (Pushes P.Pages pages.old pages.new slots slot (front ++ p ∷ []) s
        (image_in old.now)) }
    ensures sound { P.tells → (slots : List Ends) (chain : Chain) (s : Space)
        → CanPushIn P.Pages pages.old slots slot chain s (image_in old.now)
        → takes_page (image_in old.now) chain ≡ true → IfErr result IsNoDamage }
{
    let p = take_page(pages)?;
    make_page(pages, p, ends.last, old)?;
    cut_page(pages, ends.last, page, used, p)?;
    let first = ends.first;
    write_slot(pages, directory, slot, Slot { first, last: p })?;
    Ok(())
}

// Puts the entry behind those of a chain.
fn push_behind<P: Pages>(
    pages: &mut P,
    directory: &Page,
    slot: u32,
    ends: Slot,
    old: &UndoBuf,
) -> Result<(), StoreFault>
    requires can { MayChange P.Pages most_pages pages.old }
    requires slot { slot < undo_slots }
    requires ends { IsInside (P.shape pages.old).pages ends }
    requires buf { IsBuf old.now }
    ensures changes { ChangesChain P.Pages pages.old pages.new result }
    ensures pushed { P.tells → directory.now.bytes ≡ page_of (P.contents pages.old) 1
        → (slots : List Ends) (front : Chain) (p : UndoPage) (s : Space)
        → CanPushIn P.Pages pages.old slots slot (front ++ p ∷ []) s (image_in old.now)
        → ends_in ends ≡ ends_of (front ++ p ∷ [])
        → OnOk result (Pushes P.Pages pages.old pages.new slots slot (front ++ p ∷ []) s
        (image_in old.now)) }
    ensures sound { P.tells → (slots : List Ends) (front : Chain) (p : UndoPage) (s : Space)
        → CanPushIn P.Pages pages.old slots slot (front ++ p ∷ []) s (image_in old.now)
        → ends_in ends ≡ ends_of (front ++ p ∷ []) → IfErr result IsNoDamage }
{
    let mut page = Page::zeros();
    let used = read_undo(pages, ends.last, &mut page)?;
    if has_room(used, entry_size(old)) {
        push_on(pages, ends.last, &page, used, old)?;
        Ok(())
    } else {
        extend(pages, directory, slot, ends, &page, used, old)?;
        Ok(())
    }
}

/// Puts an old image behind those of a slot, whose chain begins with it where it has none. A page is taken where there is no
/// chain or its last page lacks room for the entry, else none.
///
/// # Errors
///
/// Disk; or Damaged: with page 1 or an undo page and rule 10, where these don't say a chain; with page 0 or a free page and
/// rule 4 or 5, where a page has to be taken and none is free.
pub fn push<P: Pages>(pages: &mut P, slot: u32, old: &UndoBuf) -> Result<(), StoreFault>
    requires can { MayChange P.Pages most_pages pages.old }
    requires slot { slot < undo_slots }
    requires buf { IsBuf old.now }
    ensures changes { ChangesChain P.Pages pages.old pages.new result }
    ensures pushed { P.tells → (slots : List Ends) (chain : Chain) (s : Space)
        → CanPushIn P.Pages pages.old slots slot chain s (image_in old.now)
        → OnOk result (Pushes P.Pages pages.old pages.new slots slot chain s (image_in old.now)) }
    ensures sound { P.tells → (slots : List Ends) (chain : Chain) (s : Space)
        → CanPushIn P.Pages pages.old slots slot chain s (image_in old.now)
        → IfErr result IsNoDamage }
{
    let mut directory = Page::zeros();
    let found = read_slot(pages, slot, &mut directory)?;
    match found {
        Some(ends) => {
            push_behind(pages, &directory, slot, ends, old)?;
            Ok(())
        }
        None => {
            begin(pages, &directory, slot, old)?;
            Ok(())
        }
    }
}
