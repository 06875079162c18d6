//! The calls that only read, and the leaf of a key.
ghost use Rattle.std.specs.Prelude.{◌≡◌, ◌+◌, ◌<◌, ◌≤◌, ◌∷◌, ℕ, ℤ, List, true, length, IfErr, IfOk, OnOk};
ghost use Rattle.std.specs.List.{flat_map};
ghost use Rattle.std.specs.Option.{option_map};
ghost use Rattle.isp_disk.specs.Moments.{image_of};
ghost use Rattle.isp_format.specs.Kinds.{content_place};
ghost use Rattle.isp_format.specs.Leaf.{IsLeafPage, Stored, stored_bytes};
ghost use Rattle.isp_format.specs.Ranges.{page_bytes, page_of};
ghost use Rattle.isp_page.specs.Steps.{IsNoDamage, IsNoDamageOrLacks};
ghost use Rattle.isp_cells.specs.Cells.{IsPlaceWithin, IsWithin, Stand, cell_of, place_in};
ghost use Rattle.isp_cells.specs.Rows.{find};
ghost use Rattle.isp_levels.specs.Walks.{ReadsPage};
ghost use Rattle.isp_clustered.specs.Calls.{HasTree, ReadsTree, ReadsTreeOrLacks};
ghost use Rattle.isp_clustered.specs.Cells.{kept_of};
ghost use Rattle.isp_clustered.specs.Found.{IsFoundLeaf};
ghost use Rattle.isp_clustered.specs.Trees.{Tree, rows_of};

use crate::kept::Kept;
use isp_base::Bytes;
use isp_cells::{Cell, Place, leaf_end, piece, place_of};
use isp_format::{Page, PageNo, STORED_HEAD};
use isp_levels::{broken, leaf_for};
use isp_page::{Fault, Pages, StoreFault};
use std::alloc::{AllocError, Global};

// Reads the page of a leaf into `into`, and answers where its rows end.
pub(crate) fn read_leaf<P: Pages>(
    pages: &mut P,
    page: PageNo,
    into: &mut Page,
) -> Result<usize, StoreFault>
    requires usable { P.usable pages.old ≡ true }
    requires page { page.0 < (P.shape pages.old).pages }
    ensures reads { ReadsPage P.Pages page.0 pages.old pages.new result }
    ensures page { P.tells → OnOk result (into.new.bytes ≡ page_of (P.contents pages.old) page.0) }
    ensures within { IfOk result (λ used. (content_place ≤ used) × (used ≤ page_bytes)) }
    ensures stand { (table next : ℕ) (rows : List Stored)
        → IsLeafPage into.new.bytes table page.0 next rows
        → IfOk result (λ used. used ≡ content_place + length (flat_map stored_bytes rows)) }
    ensures sound { P.tells → (table next : ℕ) (rows : List Stored)
        → IsLeafPage (page_of (P.contents pages.old) page.0) table page.0 next rows
        → IfErr result IsNoDamage }
{
    pages.read(page, into)?;
    match leaf_end(into, page.0) {
        Some(used) => Ok(used),
        None => Err(broken(page)),
    }
}

/// The leaf of a key: its page, and where its rows end.
#[derive(Clone, Copy)]
pub(crate) struct FoundLeaf {
    pub page: PageNo,
    pub used: usize,
}

/// Reads the leaf of a key into `into`.
pub(crate) fn find_leaf<P: Pages>(
    pages: &mut P,
    root: PageNo,
    key: i64,
    into: &mut Page,
) -> Result<FoundLeaf, StoreFault>
    requires usable { P.usable pages.old ≡ true }
    requires page { root.0 < (P.shape pages.old).pages }
    ensures reads { ReadsTree P.Pages root.0 pages.old pages.new result }
    ensures inside { IfOk result (λ at. at.page.0 < (P.shape pages.old).pages) }
    ensures bytes { P.tells → IfOk result (λ at. into.new.bytes ≡ page_of (P.contents pages.old) at.page.0) }
    ensures within { IfOk result (λ at. (content_place ≤ at.used) × (at.used ≤ page_bytes)) }
    ensures leaf { P.tells → (table : ℕ) (tree : Tree)
        → HasTree P.Pages pages.old table root.0 tree
        → IfOk result (λ at. IsFoundLeaf into.new.bytes at.page.0 at.used table key tree) }
    ensures sound { P.tells → (table : ℕ) (tree : Tree)
        → HasTree P.Pages pages.old table root.0 tree → IfErr result IsNoDamage }
{
    let page = leaf_for(pages, root, key)?;
    let used = read_leaf(pages, page, into)?;
    Ok(FoundLeaf { page, used })
}

// A row that stands on the page, copied.
pub(crate) fn copy_cell(
    alloc: Global,
    p: &Page,
    at: usize,
    used: usize,
    cell: Cell,
) -> Result<Kept, AllocError>
    requires within { IsWithin at used cell }
    requires inside { used ≤ page_bytes }
    ensures { (s : Stored) (rows : List Stored) → Stand (image_of p.now.bytes) at used (s ∷ rows)
        → cell ≡ cell_of s → IfOk result (λ kept. kept ≡ kept_of s) }
{
    let row = Bytes::from_slice(alloc, piece(p, at + STORED_HEAD, usize::from(cell.length)))?;
    Ok(Kept {
        row,
        marked: cell.marked,
        slot: cell.slot,
    })
}

// The row of a place, copied, if one stands there.
fn kept_at(alloc: Global, p: &Page, used: usize, place: Place) -> Result<Option<Kept>, AllocError>
    requires within { IsPlaceWithin used place }
    requires inside { used ≤ page_bytes }
    ensures { (key : ℤ) (rows : List Stored) → Stand (image_of p.now.bytes) content_place used rows
        → place ≡ place_in key content_place rows → IfOk result
        (λ got. got ≡ option_map kept_of (find key rows)) }
{
    match place.here {
        Some(cell) => {
            let kept = copy_cell(alloc, p, place.at, used, cell)?;
            Ok(Some(kept))
        }
        None => Ok(None),
    }
}

/// The row of a key, with its mark and its slot, or None where the tree has none of that key. It reads the root, and one page
/// a level.
///
/// # Errors
///
/// Disk; want of memory; or Damaged, with the page that is read and rule 7, where that is no page of a tree.
pub fn get<P: Pages>(
    alloc: Global,
    pages: &mut P,
    root: PageNo,
    key: i64,
) -> Result<Option<Kept>, Fault>
    requires usable { P.usable pages.old ≡ true }
    requires page { root.0 < (P.shape pages.old).pages }
    ensures reads { ReadsTreeOrLacks P.Pages root.0 pages.old pages.new result }
    ensures row { P.tells → (table : ℕ) (tree : Tree)
        → HasTree P.Pages pages.old table root.0 tree
        → IfOk result (λ got. got ≡ option_map kept_of (find key (rows_of tree))) }
    ensures sound { P.tells → (table : ℕ) (tree : Tree)
        → HasTree P.Pages pages.old table root.0 tree
        → IfErr result IsNoDamageOrLacks }
{
    let mut page = Page::zeros();
    let leaf = find_leaf(pages, root, key, &mut page)?;
    match place_of(&page, leaf.used, key) {
        Some(place) => {
            let got = kept_at(alloc, &page, leaf.used, place)?;
            Ok(got)
        }
        None => Err(Fault::Store(broken(leaf.page))),
    }
}
