//! The newest image of a slot: read, and taken off.
ghost use Rattle.std.specs.Prelude.{◌≡◌, ◌≢◌, ◌+◌, ◌<◌, ◌≤◌, ◌++◌, [], ◌∷◌, List, ℕ, true, false, length, IfErr, IfOk, OnOk};
ghost use Rattle.std.specs.List.{flat_map};
ghost use Rattle.isp_format.specs.Kinds.{content_place};
ghost use Rattle.isp_format.specs.Ranges.{page_bytes, page_of};
ghost use Rattle.isp_format.specs.Undo.{IsUndoPage, OldImage, Slot as Ends, image_bytes, undo_slots};
ghost use Rattle.isp_page.specs.Steps.{IsNoDamage};
ghost use Rattle.isp_space.specs.Changes.{MayChange, ReadsPages};
ghost use Rattle.isp_space.specs.Spaces.{Space};
ghost use Rattle.isp_undo_walks.specs.Slots.{HasChainIn, IsInside, NamesWalk, broken_at};
ghost use Rattle.isp_undo.specs.Calls.{CanPopIn, ChangesChain, Pops, image_if, most_pages};
ghost use Rattle.isp_undo_walks.specs.Chains.{Chain, UndoPage, ends_of};
ghost use Rattle.isp_undo.specs.Chains.{newest_of};
ghost use Rattle.isp_undo_walks.specs.Walks.{IsWay};
ghost use Rattle.isp_undo.specs.Cutting.{CanCutIn, Cuts, MayDrop, MayPopAt};
ghost use Rattle.isp_undo_pages.specs.Directory.{ends_in};
ghost use Rattle.isp_undo_pages.specs.Entries.{IsBuf, image_in};

use isp_format::{CONTENT_PLACE, Page, PageNo, head};
use isp_page::{Pages, StoreFault};
use isp_space::give_chain;
use isp_undo_pages::{MARKED_KIND, Slot, UndoBuf, newest, read_entry};
use isp_undo_walks::{DIRECTORY, Stop, broken, cut_page, last_used, linked, read_slot, write_slot};

// Reads the newest entry of a page with that number, where its entries end at that place.
fn read_image(page: PageNo, p: &Page, used: usize, into: &mut UndoBuf) -> Result<(), StoreFault>
    requires from { content_place ≤ used }
    requires to { used ≤ page_bytes }
    ensures buf { OnOk result (IsBuf into.new) }
    ensures names { IfErr result (λ e. e ≡ broken_at page.0) }
    ensures read { (own before next : ℕ) (images : List OldImage) (image : OldImage)
        → IsUndoPage p.now.bytes own before next (images ++ image ∷ [])
        → used ≡ content_place + length (flat_map image_bytes (images ++ image ∷ []))
        → OnOk result (image_in into.new ≡ image) }
    ensures sound { (own before next : ℕ) (images : List OldImage) (image : OldImage)
        → IsUndoPage p.now.bytes own before next (images ++ image ∷ [])
        → used ≡ content_place + length (flat_map image_bytes (images ++ image ∷ []))
        → IfErr result IsNoDamage }
{
    match newest(p, used) {
        Some(spot) => {
            read_entry(p, spot, into);
            if into.kind <= MARKED_KIND {
                Ok(())
            } else {
                Err(broken(page))
            }
        }
        None => Err(broken(page)),
    }
}

// Reads the newest entry of a chain with these ends, if it has one.
fn read_newest<P: Pages>(pages: &mut P, ends: Slot, into: &mut UndoBuf) -> Result<bool, StoreFault>
    requires usable { P.usable pages.old ≡ true }
    requires ends { IsInside (P.shape pages.old).pages ends }
    ensures reads { ReadsPages P.Pages NamesWalk pages.old pages.new result }
    ensures buf { IfOk result (λ there. there ≡ true → IsBuf into.new) }
    ensures newest { P.tells → (chain : Chain)
        → IsWay (P.shape pages.old).pages (P.contents pages.old) 0 chain
        → ends_in ends ≡ ends_of chain
        → IfOk result (λ there. image_if there into.new ≡ newest_of chain) }
    ensures sound { P.tells → (chain : Chain)
        → IsWay (P.shape pages.old).pages (P.contents pages.old) 0 chain
        → ends_in ends ≡ ends_of chain → IfErr result IsNoDamage }
{
    let mut page = Page::zeros();
    let stop = last_used(pages, ends.first, ends.last, PageNo(0), &mut page)?;
    if stop.used == CONTENT_PLACE {
        return Ok(false);
    }
    read_image(stop.page, &page, stop.used, into)?;
    Ok(true)
}

/// The newest old image of a slot, false where it has none.
///
/// # Errors
///
/// Disk; or Damaged: with page 1 or an undo page and rule 10, where these don't say a chain; with an undo page and rule 13,
/// where the way over empty pages is longer than the file.
pub fn last<P: Pages>(pages: &mut P, slot: u32, into: &mut UndoBuf) -> Result<bool, StoreFault>
    requires usable { P.usable pages.old ≡ true }
    requires slot { slot < undo_slots }
    ensures reads { ReadsPages P.Pages NamesWalk pages.old pages.new result }
    ensures buf { IfOk result (λ there. there ≡ true → IsBuf into.new) }
    ensures newest { P.tells → (slots : List Ends) (chain : Chain)
        → HasChainIn P.Pages pages.old slots slot chain
        → IfOk result (λ there. image_if there into.new ≡ newest_of chain) }
    ensures sound { P.tells → (slots : List Ends) (chain : Chain)
        → HasChainIn P.Pages pages.old slots slot chain → IfErr result IsNoDamage }
{
    let mut directory = Page::zeros();
    let found = read_slot(pages, slot, &mut directory)?;
    match found {
        Some(ends) => {
            let there = read_newest(pages, ends, into)?;
            Ok(there)
        }
        None => Ok(false),
    }
}

// Makes that page the last one, with its entries up to that place, and gives those behind it back, which are so many.
fn give_behind<P: Pages>(
    pages: &mut P,
    directory: &Page,
    slot: u32,
    ends: Slot,
    stop: Stop,
    page: &Page,
) -> Result<(), StoreFault>
    requires can { MayChange P.Pages most_pages pages.old }
    requires slot { slot < undo_slots }
    requires ends { IsInside (P.shape pages.old).pages ends }
    requires page { stop.page.0 < (P.shape pages.old).pages }
    requires to { stop.used ≤ page_bytes }
    ensures changes { ChangesChain P.Pages pages.old pages.new result }
    ensures cut { P.tells → directory.now.bytes ≡ page_of (P.contents pages.old) 1
        → page.now.bytes ≡ page_of (P.contents pages.old) stop.page.0 → (slots : List Ends)
        (front : Chain) (images more : List OldImage) (q : UndoPage) (rest : Chain) (s : Space)
        → CanCutIn P.Pages pages.old slots slot ends stop front images more (q ∷ rest) s
        → OnOk result (Cuts P.Pages pages.old pages.new slots slot stop front images more
        (q ∷ rest) s) }
    ensures sound { P.tells → page.now.bytes ≡ page_of (P.contents pages.old) stop.page.0
        → (slots : List Ends) (front : Chain) (images more : List OldImage) (q : UndoPage)
        (rest : Chain) (s : Space)
        → CanCutIn P.Pages pages.old slots slot ends stop front images more (q ∷ rest) s
        → IfErr result IsNoDamage }
{
    let next = head(page).next;
    cut_page(pages, stop.page, page, stop.used, PageNo(0))?;
    give_chain(pages, next, ends.last, stop.passed)?;
    let first = ends.first;
    let last = stop.page;
    write_slot(pages, directory, slot, Slot { first, last })?;
    Ok(())
}

// The same where there may be none behind it.
fn shorten<P: Pages>(
    pages: &mut P,
    directory: &Page,
    slot: u32,
    ends: Slot,
    stop: Stop,
    page: &Page,
) -> Result<(), StoreFault>
    requires can { MayChange P.Pages most_pages pages.old }
    requires slot { slot < undo_slots }
    requires ends { IsInside (P.shape pages.old).pages ends }
    requires page { stop.page.0 < (P.shape pages.old).pages }
    requires to { stop.used ≤ page_bytes }
    ensures changes { ChangesChain P.Pages pages.old pages.new result }
    ensures cut { P.tells → directory.now.bytes ≡ page_of (P.contents pages.old) 1
        → page.now.bytes ≡ page_of (P.contents pages.old) stop.page.0 → (slots : List Ends)
        (front : Chain) (images more : List OldImage) (rest : Chain) (s : Space)
        → CanCutIn P.Pages pages.old slots slot ends stop front images more rest s
        → OnOk result (Cuts P.Pages pages.old pages.new slots slot stop front images more rest s) }
    ensures sound { P.tells → page.now.bytes ≡ page_of (P.contents pages.old) stop.page.0
        → (slots : List Ends) (front : Chain) (images more : List OldImage) (rest : Chain)
        (s : Space) → CanCutIn P.Pages pages.old slots slot ends stop front images more rest s
        → IfErr result IsNoDamage }
{
    if stop.passed == 0 {
        cut_page(pages, stop.page, page, stop.used, PageNo(0))?;
        Ok(())
    } else {
        give_behind(pages, directory, slot, ends, stop, page)?;
        Ok(())
    }
}

// Gives the page at which a walk back stopped back with those behind it, and the empty ones before it.
fn drop_page<P: Pages>(
    pages: &mut P,
    directory: &Page,
    slot: u32,
    ends: Slot,
    stop: Stop,
    page: &Page,
) -> Result<(), StoreFault>
    requires can { MayChange P.Pages most_pages pages.old }
    requires slot { slot < undo_slots }
    requires ends { IsInside (P.shape pages.old).pages ends }
    requires few { stop.passed ≤ (P.shape pages.old).pages }
    ensures changes { ChangesChain P.Pages pages.old pages.new result }
    ensures popped { P.tells → directory.now.bytes ≡ page_of (P.contents pages.old) 1
        → page.now.bytes ≡ page_of (P.contents pages.old) stop.page.0
        → (slots : List Ends) (chain : Chain) (s : Space)
        → MayDrop P.Pages pages.old slots slot ends stop chain s
        → OnOk result (Pops P.Pages pages.old pages.new slots slot chain s) }
    ensures sound { P.tells → page.now.bytes ≡ page_of (P.contents pages.old) stop.page.0
        → (slots : List Ends) (chain : Chain) (s : Space)
        → MayDrop P.Pages pages.old slots slot ends stop chain s → IfErr result IsNoDamage }
{
    let count = pages.pages();
    let before = linked(stop.page, head(page).prev, count)?;
    let mut into = Page::zeros();
    let left = last_used(pages, ends.first, before, stop.page, &mut into)?;
    let passed = stop.passed + 1 + left.passed;
    let end = Stop { passed, ..left };
    shorten(pages, directory, slot, ends, end, &into)?;
    Ok(())
}

// Whether a page stays in its chain whose entries end at that place.
fn stays(at: usize, page: PageNo, first: PageNo) -> bool
    ensures stays { result ≡ true → first.0 ≢ page.0 → content_place < at }
    ensures empty { result ≡ false → at ≤ content_place }
    ensures other { result ≡ false → first.0 ≢ page.0 }
{
    if at > CONTENT_PLACE {
        true
    } else {
        first.0 == page.0
    }
}

// Takes the entry that begins at that place, the newest, off the page at which a walk back stopped.
fn drop_entry<P: Pages>(
    pages: &mut P,
    directory: &Page,
    slot: u32,
    ends: Slot,
    stop: Stop,
    page: &Page,
    at: usize,
) -> Result<(), StoreFault>
    requires can { MayChange P.Pages most_pages pages.old }
    requires slot { slot < undo_slots }
    requires ends { IsInside (P.shape pages.old).pages ends }
    requires page { stop.page.0 < (P.shape pages.old).pages }
    requires to { at ≤ page_bytes }
    requires few { stop.passed ≤ (P.shape pages.old).pages }
    ensures changes { ChangesChain P.Pages pages.old pages.new result }
    ensures popped { P.tells → directory.now.bytes ≡ page_of (P.contents pages.old) 1
        → page.now.bytes ≡ page_of (P.contents pages.old) stop.page.0
        → (slots : List Ends) (chain : Chain) (s : Space)
        → MayPopAt P.Pages pages.old slots slot ends stop at chain s
        → OnOk result (Pops P.Pages pages.old pages.new slots slot chain s) }
    ensures sound { P.tells → page.now.bytes ≡ page_of (P.contents pages.old) stop.page.0
        → (slots : List Ends) (chain : Chain) (s : Space)
        → MayPopAt P.Pages pages.old slots slot ends stop at chain s → IfErr result IsNoDamage }
{
    if stays(at, stop.page, ends.first) {
        let end = Stop { used: at, ..stop };
        shorten(pages, directory, slot, ends, end, page)?;
        Ok(())
    } else {
        drop_page(pages, directory, slot, ends, stop, page)?;
        Ok(())
    }
}

// Takes the newest entry off a chain with these ends.
fn pop_from<P: Pages>(
    pages: &mut P,
    directory: &Page,
    slot: u32,
    ends: Slot,
) -> Result<(), StoreFault>
    requires can { MayChange P.Pages most_pages pages.old }
    requires slot { slot < undo_slots }
    requires ends { IsInside (P.shape pages.old).pages ends }
    ensures changes { ChangesChain P.Pages pages.old pages.new result }
    ensures popped { P.tells → directory.now.bytes ≡ page_of (P.contents pages.old) 1
        → (slots : List Ends) (chain : Chain) (s : Space)
        → CanPopIn P.Pages pages.old slots slot chain s → ends_in ends ≡ ends_of chain
        → OnOk result (Pops P.Pages pages.old pages.new slots slot chain s) }
    ensures sound { P.tells → (slots : List Ends) (chain : Chain) (s : Space)
        → CanPopIn P.Pages pages.old slots slot chain s → ends_in ends ≡ ends_of chain
        → IfErr result IsNoDamage }
{
    let mut page = Page::zeros();
    let stop = last_used(pages, ends.first, ends.last, PageNo(0), &mut page)?;
    match newest(&page, stop.used) {
        Some(spot) => {
            drop_entry(pages, directory, slot, ends, stop, &page, spot.at)?;
            Ok(())
        }
        None => Err(broken(stop.page)),
    }
}

/// Takes the newest old image of a slot off, which has one. A page other than the first that is empty then is given back, and
/// so are empty pages before and behind it.
///
/// # Errors
///
/// Disk; or Damaged: with page 1 or an undo page and rule 10, where these don't say a chain with an image; with an undo page
/// and rule 13, where the way over empty pages is longer than the file; with page 0 and rule 4 or 5, where that says no space.
pub fn pop<P: Pages>(pages: &mut P, slot: u32) -> Result<(), StoreFault>
    requires can { MayChange P.Pages most_pages pages.old }
    requires slot { slot < undo_slots }
    ensures changes { ChangesChain P.Pages pages.old pages.new result }
    ensures popped { P.tells → (slots : List Ends) (chain : Chain) (s : Space)
        → CanPopIn P.Pages pages.old slots slot chain s
        → OnOk result (Pops P.Pages pages.old pages.new slots slot chain s) }
    ensures sound { P.tells → (slots : List Ends) (chain : Chain) (s : Space)
        → CanPopIn P.Pages pages.old slots slot chain s → IfErr result IsNoDamage }
{
    let mut directory = Page::zeros();
    let found = read_slot(pages, slot, &mut directory)?;
    match found {
        Some(ends) => {
            pop_from(pages, &directory, slot, ends)?;
            Ok(())
        }
        None => Err(broken(DIRECTORY)),
    }
}
