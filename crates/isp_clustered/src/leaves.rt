//! Whole leaves, one after another.
ghost use Rattle.std.specs.Prelude.{◌≡◌, ◌<◌, ◌≤◌, ◌++◌, ◌∷◌, [], ℕ, List, Some, IfErr, IfOk, IfSome, OnOk, true};
ghost use Rattle.isp_disk.specs.Moments.{image_of};
ghost use Rattle.isp_format.specs.Header.{header_of};
ghost use Rattle.isp_format.specs.Kinds.{content_place};
ghost use Rattle.isp_format.specs.Leaf.{IsLeafPage, Stored};
ghost use Rattle.isp_format.specs.Ranges.{page_bytes, page_of};
ghost use Rattle.isp_page.specs.Steps.{IsNoDamage, IsNoDamageOrLacks};
ghost use Rattle.isp_levels.specs.Walks.{ReadsPage};
ghost use Rattle.isp_clustered.specs.Calls.{HasTree, ReadsLeaf};
ghost use Rattle.isp_cells.specs.Cells.{IsWithin, Stand, cell_of};
ghost use Rattle.isp_clustered.specs.Leaves.{IsLeafOf, IsWhole, kept_row_of, kept_rows_of, link_of};
ghost use Rattle.isp_levels.specs.Inners.{number_of};
ghost use Rattle.isp_clustered.specs.Trees.{Tree, leaf_after};
ghost use Rattle.isp_levels.specs.Levels.{TreeLeaf};

use crate::kept::{KeptRow, KeptRows, Leaf};
use crate::reading::{copy_cell, read_leaf};
use isp_cells::{Cell, cell_at};
use isp_format::{CONTENT_PLACE, Page, PageNo, STORED_HEAD, get_i64, head};
use isp_levels::{broken, leaf_for};
use isp_page::{Fault, Pages, StoreFault};
use sqlite_items::Items;
use std::alloc::{AllocError, Global};

// The row that stands there, with its key, copied.
fn copy_row(
    alloc: Global,
    p: &Page,
    at: usize,
    used: usize,
    cell: Cell,
) -> Result<KeptRow, AllocError>
    requires within { IsWithin at used cell }
    requires inside { used ≤ page_bytes }
    ensures { (s : Stored) (rows : List Stored) → Stand (image_of p.now.bytes) at used (s ∷ rows)
        → cell ≡ cell_of s → IfOk result (λ row. row ≡ kept_row_of s) }
{
    let kept = copy_cell(alloc, p, at, used, cell)?;
    let key = get_i64(p, at);
    Ok(KeptRow { key, kept })
}

// All rows of a leaf, if rows stand there.
fn rows_in(alloc: Global, p: &Page, used: usize) -> Result<Option<KeptRows>, AllocError>
    requires from { content_place ≤ used }
    requires inside { used ≤ page_bytes }
    ensures { (rows : List Stored) → Stand (image_of p.now.bytes) content_place used rows
        → IfOk result (λ got. got ≡ Some (kept_rows_of rows)) }
{
    let mut rows = Items::new(alloc);
    let mut at = CONTENT_PLACE;
    while at < used {
        let Some(cell) = cell_at(p, at, used) else {
            return Ok(None);
        };
        let row = copy_row(alloc, p, at, used, cell)?;
        rows.push(row)?;
        at += STORED_HEAD + usize::from(cell.slot);
    }
    Ok(Some(rows))
}

// The page that the leaf links to.
fn right_link(p: &Page) -> Option<PageNo>
    ensures { number_of result ≡ link_of (header_of p.now.bytes).next }
{
    let next = head(p).next;
    if next.0 == 0 { None } else { Some(next) }
}

// The leaf on a page, with all its rows.
fn whole_leaf<P: Pages>(alloc: Global, pages: &mut P, page: PageNo) -> Result<Leaf, Fault>
    requires usable { P.usable pages.old ≡ true }
    requires page { page.0 < (P.shape pages.old).pages }
    ensures reads { ReadsLeaf P.Pages pages.old pages.new result }
    ensures page { IfOk result (λ leaf. leaf.page ≡ page) }
    ensures leaf { P.tells → (table next : ℕ) (rows : List Stored)
        → IsLeafPage (page_of (P.contents pages.old) page.0) table page.0 next rows
        → IfOk result (λ leaf. IsWhole next rows leaf) }
    ensures sound { P.tells → (table next : ℕ) (rows : List Stored)
        → IsLeafPage (page_of (P.contents pages.old) page.0) table page.0 next rows
        → IfErr result IsNoDamageOrLacks }
{
    let mut p = Page::zeros();
    let used = read_leaf(pages, page, &mut p)?;
    let rows = rows_in(alloc, &p, used)?;
    match rows {
        Some(rows) => {
            let next = right_link(&p);
            Ok(Leaf { page, rows, next })
        }
        None => Err(Fault::Store(broken(page))),
    }
}

// The page to the right of a leaf, which isn't the last.
fn right_of<P: Pages>(pages: &mut P, page: PageNo) -> Result<PageNo, StoreFault>
    requires usable { P.usable pages.old ≡ true }
    requires page { page.0 < (P.shape pages.old).pages }
    ensures reads { ReadsPage P.Pages page.0 pages.old pages.new result }
    ensures inside { IfOk result (λ right. right.0 < (P.shape pages.old).pages) }
    ensures right { P.tells → (table next : ℕ) (rows : List Stored)
        → IsLeafPage (page_of (P.contents pages.old) page.0) table page.0 next rows → 1 ≤ next
        → IfOk result (λ right. right.0 ≡ next) }
    ensures sound { P.tells → (table next : ℕ) (rows : List Stored)
        → IsLeafPage (page_of (P.contents pages.old) page.0) table page.0 next rows → 1 ≤ next
        → next < (P.shape pages.old).pages → IfErr result IsNoDamage }
{
    let count = pages.pages();
    let mut p = Page::zeros();
    let _used = read_leaf(pages, page, &mut p)?;
    match right_link(&p) {
        Some(right) => {
            if right.0 < count {
                Ok(right)
            } else {
                Err(broken(page))
            }
        }
        None => Err(broken(page)),
    }
}

/// The first leaf of a tree, or the one to the right of a leaf of it that isn't the last; with all its rows.
///
/// # Errors
///
/// Disk; want of memory; or Damaged, with the page that is read and rule 7, where that is no page of a tree, or where no leaf
/// stands to its right.
pub fn next_leaf<P: Pages>(
    alloc: Global,
    pages: &mut P,
    root: PageNo,
    after: Option<PageNo>,
) -> Result<Leaf, Fault>
    requires usable { P.usable pages.old ≡ true }
    requires page { root.0 < (P.shape pages.old).pages }
    requires after { IfSome after (λ page. page.0 < (P.shape pages.old).pages) }
    ensures reads { ReadsLeaf P.Pages pages.old pages.new result }
    ensures leaf { P.tells → (table : ℕ) (tree : Tree) (leaf : TreeLeaf)
        → HasTree P.Pages pages.old table root.0 tree
        → leaf_after tree (number_of after) ≡ Some leaf → IfOk result (IsLeafOf tree leaf) }
    ensures sound { P.tells → (table : ℕ) (tree : Tree) (leaf : TreeLeaf)
        → HasTree P.Pages pages.old table root.0 tree
        → leaf_after tree (number_of after) ≡ Some leaf → IfErr result IsNoDamageOrLacks }
{
    match after {
        Some(page) => {
            let right = right_of(pages, page)?;
            let leaf = whole_leaf(alloc, pages, right)?;
            Ok(leaf)
        }
        None => {
            let first = leaf_for(pages, root, i64::MIN)?;
            let leaf = whole_leaf(alloc, pages, first)?;
            Ok(leaf)
        }
    }
}
