//! What grows on a path.
ghost use Rattle.std.specs.Prelude.{◌≡◌, ◌<◌, ◌≤◌, ◌∷◌, [], ℕ, suc, length, true, vec_capacity, Err, IfErr, IfOk, OnOk};
ghost use Rattle.isp_format.specs.Header.{header_of};
ghost use Rattle.isp_format.specs.Ranges.{page_of};
ghost use Rattle.isp_page.specs.Steps.{IsNoDamage, IsNoDamageOrLacks};
ghost use Rattle.isp_page.specs.declared.fault.Fault.TheVariants.{Memory};
ghost use Rattle.isp_space.specs.Changes.{ReadsPages};
ghost use Rattle.isp_forest.specs.Place.{IsPath, Stands};
ghost use Rattle.isp_forest.specs.Tree.{Tree};
ghost use Rattle.isp_rnode.specs.Nodes.{node_of};
ghost use Rattle.isp_rtree.specs.Calls.{HasPage, HasTree, NamesTree, NamesTreeOrLacks, ReadsPagesOrLacks};
ghost use Rattle.isp_rtree.specs.Growing.{AreGrowths, IsGrowthOf};
ghost use Rattle.isp_rtree.specs.Paths.{BeginsInside, LeadsTo, numbers_of};
ghost use Rattle.isp_rtree.specs.Trees.{IsAtPage, IsPageOf};

use crate::nodes::{broken, read_below, read_root};
use crate::paths::entry_for;
use isp_format::{Page, PageNo, level_of};
use isp_mbr::{Box4, union};
use isp_page::{Fault, Pages, StoreFault};
use std::alloc::Global;

/// The entry of a page for one of its children, by its boxes before and after an entry is added below it. They are the same
/// where the box doesn't grow.
#[derive(Clone, Copy, Debug, PartialEq, Eq)]
pub struct Growth {
    pub parent: PageNo,
    pub child: PageNo,
    pub old: Box4,
    pub new: Box4,
}

/// What grows where an entry with the box `b` is added at the end of the path, which stands: the entry for each page of the
/// path but the root, from the root down, by its boxes before and after, also where it doesn't grow.
///
/// # Errors
///
/// Want of memory; Disk; or Damaged, with the page that shows it and rule 9, as of `path_stands`, or where a page of the path
/// has no entry for the next.
pub fn growths<P: Pages>(
    alloc: Global,
    pages: &mut P,
    path: &[PageNo],
    b: &Box4,
) -> Result<Vec<Growth>, Fault>
    requires usable { P.usable pages.old ≡ true }
    requires inside { BeginsInside (P.shape pages.old).pages (numbers_of path.now) }
    ensures reads { ReadsPagesOrLacks P.Pages (NamesTreeOrLacks (P.shape pages.old).pages)
        pages.old pages.new result }
    ensures growths { P.tells → (owner root : ℕ) (tree : Tree) → HasTree P.Pages pages.old owner root tree
        → Stands tree (numbers_of path.now)
        → IfOk result (λ grown. AreGrowths tree b.now (numbers_of path.now) grown.items) }
    ensures sound { P.tells → (owner root : ℕ) (tree : Tree) → HasTree P.Pages pages.old owner root tree
        → Stands tree (numbers_of path.now) → IfErr result IsNoDamageOrLacks }
    ensures lacks { result ≡ Err Memory → pages.new ≡ pages.old }
{
    let mut grown = Vec::with_capacity(alloc, path.len())?;
    grow(pages, path, b, &mut grown)?;
    Ok(grown)
}

// The same into a list that has room for it.
fn grow<P: Pages>(
    pages: &mut P,
    path: &[PageNo],
    b: &Box4,
    grown: &mut Vec<Growth>,
) -> Result<(), StoreFault>
    requires usable { P.usable pages.old ≡ true }
    requires inside { BeginsInside (P.shape pages.old).pages (numbers_of path.now) }
    requires none { grown.old.items ≡ [] }
    requires room { length path.now ≤ vec_capacity grown.old }
    ensures reads { ReadsPages P.Pages (NamesTree (P.shape pages.old).pages) pages.old pages.new result }
    ensures growths { P.tells → (owner root : ℕ) (tree : Tree) → HasTree P.Pages pages.old owner root tree
        → Stands tree (numbers_of path.now)
        → OnOk result (AreGrowths tree b.now (numbers_of path.now) grown.new.items) }
    ensures sound { P.tells → (owner root : ℕ) (tree : Tree) → HasTree P.Pages pages.old owner root tree
        → Stands tree (numbers_of path.now) → IfErr result IsNoDamage }
{
    if path.len() == 0 {
        return Ok(());
    }
    let mut page = Page::zeros();
    let owner = read_root(pages, path[0], &mut page)?;
    grow_below(pages, owner, path[0], &path[1..], &mut page, b, grown)?;
    Ok(())
}

// What grows from one page of the path on, which stands in `page`.
fn grow_below<P: Pages>(
    pages: &mut P,
    owner: u32,
    from: PageNo,
    rest: &[PageNo],
    page: &mut Page,
    b: &Box4,
    grown: &mut Vec<Growth>,
) -> Result<(), StoreFault>
    requires usable { P.usable pages.old ≡ true }
    requires from { from.0 < (P.shape pages.old).pages }
    requires is { IsPageOf (P.shape pages.old).pages owner from.0 page.old.bytes }
    requires none { grown.old.items ≡ [] }
    requires room { length rest.now ≤ vec_capacity grown.old }
    ensures reads { ReadsPages P.Pages (NamesTree (P.shape pages.old).pages) pages.old pages.new result }
    ensures growths { P.tells → (tree : Tree)
        → IsAtPage (P.contents pages.old) (P.shape pages.old) owner tree from.0 page.old.bytes
        → IsPath tree (from.0 ∷ numbers_of rest.now)
        → OnOk result (AreGrowths tree b.now (from.0 ∷ numbers_of rest.now) grown.new.items) }
    ensures sound { P.tells → (tree : Tree)
        → IsAtPage (P.contents pages.old) (P.shape pages.old) owner tree from.0 page.old.bytes
        → IsPath tree (from.0 ∷ numbers_of rest.now) → IfErr result IsNoDamage }
{
    let mut at = from;
    for next in rest {
        let growth = grow_to(pages, owner, at, *next, page, b)?;
        grown.push_reserved(growth);
        at = *next;
    }
    Ok(())
}

// What grows from the page in `page` to the next, which is read then.
fn grow_to<P: Pages>(
    pages: &mut P,
    owner: u32,
    at: PageNo,
    next: PageNo,
    page: &mut Page,
    b: &Box4,
) -> Result<Growth, StoreFault>
    requires usable { P.usable pages.old ≡ true }
    requires at { at.0 < (P.shape pages.old).pages }
    requires is { IsPageOf (P.shape pages.old).pages owner at.0 page.old.bytes }
    ensures reads { ReadsPages P.Pages (NamesTree (P.shape pages.old).pages) pages.old pages.new result }
    ensures inside { OnOk result (next.0 < (P.shape pages.old).pages) }
    ensures page { P.tells → OnOk result (page.new.bytes ≡ page_of (P.contents pages.old) next.0) }
    ensures is { OnOk result (IsPageOf (P.shape pages.old).pages owner next.0 page.new.bytes) }
    ensures growth { IfOk result (IsGrowthOf (node_of page.old.bytes) b.now at.0 next.0) }
    ensures sound { P.tells → HasPage P.Pages pages.old owner next.0
        → LeadsTo (node_of page.old.bytes) next.0 → (header_of page.old.bytes).level ≡
        suc (header_of (page_of (P.contents pages.old) next.0)).level → IfErr result IsNoDamage }
{
    match entry_for(page, next) {
        Some(e) => {
            let level = level_of(page);
            read_below(pages, owner, next, level, page)?;
            Ok(Growth {
                parent: at,
                child: next,
                old: e.b,
                new: union(&e.b, b),
            })
        }
        None => Err(broken(at)),
    }
}
