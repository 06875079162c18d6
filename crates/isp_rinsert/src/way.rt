//! The pages of a path are read.
ghost use Rattle.std.specs.Prelude.{◌≡◌, ◌↔◌, ◌+◌, ◌<◌, ◌≤◌, ◌∷◌, ◌++◌, [], ℕ, Some, suc, length, map, true, vec_capacity, IfErr, IfOk, IsTrue, OnOk};
ghost use Rattle.isp_base.specs.Lists.{Has};
ghost use Rattle.isp_format.specs.Header.{header_of};
ghost use Rattle.isp_format.specs.Ranges.{page_of};
ghost use Rattle.isp_page.specs.Steps.{IsNoDamage, IsNoDamageOrLacks};
ghost use Rattle.isp_space.specs.Changes.{ReadsPages};
ghost use Rattle.isp_space.specs.Spaces.{most_counted};
ghost use Rattle.isp_forest.specs.Place.{Stands};
ghost use Rattle.isp_forest.specs.Tree.{Tree, counter, page_at};
ghost use Rattle.isp_rnode.specs.Nodes.{IsReadable, node_of};
ghost use Rattle.isp_rplan.specs.declared.steps.PathPage.{PathPage};
ghost use Rattle.isp_rsettle.specs.Placed.{IsPathPage, path_number};
ghost use Rattle.isp_rtree.specs.Calls.{HasPage, HasTree, NamesTree};
ghost use Rattle.isp_page.specs.declared.fault.StoreFault.TheVariants.{Damaged};
ghost use Rattle.isp_rtree.specs.Paths.{BeginsInside, Leads, numbers_of};
ghost use Rattle.isp_rtree.specs.Trees.{IsAtPage, IsPageOf, most_level};
ghost use Rattle.isp_rinsert.specs.Calls.{ReadsTree};
ghost use Rattle.isp_rinsert.specs.Preparing.{IsWay, IsWayOf};
ghost use Rattle.isp_rinsert.specs.Ways.{GoesDown, GoesDownIn, IsReadAs};

use isp_format::{Page, PageNo, head, level_of};
use isp_page::{Fault, Pages, StoreFault};
use isp_rnode::entries;
use isp_rplan::{NodeHead, PathPage};
use isp_rtree::{broken, read_below, read_root};
use std::alloc::{AllocError, Global};

/// The root's sequence number stays below this where an entry is put into its tree.
const MOST_COUNTED: u64 = 1 << 62;

/// The owner of a tree, its counter, and the pages of a path from the root down.
#[derive(Drop)]
pub(crate) struct Way {
    pub owner: u32,
    pub counter: u64,
    pub pages: Vec<PathPage>,
}

/// Reads the pages of a path.
///
/// # Errors
///
/// Want of memory; Disk; or Damaged, with the page that shows it and rule 9, as of `path_stands`, where a page of the path is none of
/// the file, the path ends above the leaves, or the root's sequence number is 2^62 or more.
pub(crate) fn read_way<P: Pages>(
    alloc: Global,
    pages: &mut P,
    path: &[PageNo],
) -> Result<Way, Fault>
    requires usable { P.usable pages.old ≡ true }
    requires some { 0 < length path.now }
    requires inside { BeginsInside (P.shape pages.old).pages (numbers_of path.now) }
    ensures reads { ReadsTree P.Pages pages.old pages.new result }
    ensures way { IfOk result (IsWay (P.shape pages.old).pages (numbers_of path.now)) }
    ensures counted { IfOk result (λ way. way.counter < most_counted) }
    ensures read { P.tells → (owner root : ℕ) (tree : Tree) → HasTree P.Pages pages.old owner root tree
        → Stands tree (numbers_of path.now)
        → IfOk result (IsWayOf owner tree (numbers_of path.now)) }
    ensures sound { P.tells → (owner root : ℕ) (tree : Tree) → HasTree P.Pages pages.old owner root tree
        → Stands tree (numbers_of path.now) → counter tree < most_counted
        → IfErr result IsNoDamageOrLacks }
{
    let mut way = Vec::with_capacity(alloc, path.len())?;
    let mut page = Page::zeros();
    let (owner, counter) = read_top(pages, path[0], &mut page)?;
    way.push_reserved(path_page(alloc, path[0], &page)?);
    read_rest(
        alloc,
        pages,
        owner,
        path[0],
        &path[1..],
        &mut page,
        &mut way,
    )?;
    Ok(Way {
        owner,
        counter,
        pages: way,
    })
}

// Reads the root of a tree, and answers the tree's owner and its counter, which is below 2^62.
fn read_top<P: Pages>(
    pages: &mut P,
    root: PageNo,
    into: &mut Page,
) -> Result<(u32, u64), StoreFault>
    requires usable { P.usable pages.old ≡ true }
    requires root { root.0 < (P.shape pages.old).pages }
    ensures reads { ReadsPages P.Pages (NamesTree (P.shape pages.old).pages) pages.old pages.new result }
    ensures page { P.tells → OnOk result (into.new.bytes ≡ page_of (P.contents pages.old) root.0) }
    ensures is { IfOk result (λ told. IsPageOf (P.shape pages.old).pages told.0 root.0 into.new.bytes) }
    ensures low { OnOk result ((header_of into.new.bytes).level ≤ most_level) }
    ensures counter { IfOk result (λ told. told.1 ≡ (header_of into.new.bytes).ssn) }
    ensures counted { IfOk result (λ told. told.1 < most_counted) }
    ensures sound { P.tells → (owner : ℕ) (tree : Tree) → HasTree P.Pages pages.old owner root.0 tree
        → counter tree < most_counted → IfErr result IsNoDamage }
{
    let owner = read_root(pages, root, into)?;
    let counter = head(into).ssn;
    if counter < MOST_COUNTED {
        Ok((owner, counter))
    } else {
        Err(broken(root))
    }
}

// Reads the pages behind one of the path, which stands in `page`.
fn read_rest<P: Pages>(
    alloc: Global,
    pages: &mut P,
    owner: u32,
    from: PageNo,
    rest: &[PageNo],
    page: &mut Page,
    way: &mut Vec<PathPage>,
) -> Result<(), Fault>
    requires usable { P.usable pages.old ≡ true }
    requires from { from.0 < (P.shape pages.old).pages }
    requires is { IsPageOf (P.shape pages.old).pages owner from.0 page.old.bytes }
    requires room { length way.old.items + length rest.now ≤ vec_capacity way.old }
    ensures reads { ReadsTree P.Pages pages.old pages.new result }
    ensures leads { OnOk result (GoesDown (P.shape pages.old).pages (header_of page.old.bytes).level
        rest.now way.old.items way.new.items) }
    ensures read { P.tells → (tree : Tree)
        → IsAtPage (P.contents pages.old) (P.shape pages.old) owner tree from.0 page.old.bytes
        → Leads tree (from.0 ∷ numbers_of rest.now)
        → OnOk result (GoesDownIn tree way.old.items way.new.items) }
    ensures sound { P.tells → (tree : Tree)
        → IsAtPage (P.contents pages.old) (P.shape pages.old) owner tree from.0 page.old.bytes
        → Leads tree (from.0 ∷ numbers_of rest.now) → IfErr result IsNoDamageOrLacks }
{
    let mut at = from;
    for next in rest {
        let p = read_next(alloc, pages, owner, at, *next, page)?;
        way.push_reserved(p);
        at = *next;
    }
    ends_on_leaf(page, at)?;
    Ok(())
}

// That the page is a leaf.
fn ends_on_leaf(page: &Page, at: PageNo) -> Result<(), StoreFault>
    ensures leaf { OnOk result ((header_of page.now.bytes).level ≡ 0) }
    ensures fault { IfErr result (λ fault. fault ≡ Damaged at.0 9) }
    ensures sound { (header_of page.now.bytes).level ≡ 0 → IfErr result IsNoDamage }
{
    if level_of(page) == 0 {
        Ok(())
    } else {
        Err(broken(at))
    }
}

// Reads the page that comes next on the path, one level below the page in `page`, into it.
fn read_next<P: Pages>(
    alloc: Global,
    pages: &mut P,
    owner: u32,
    at: PageNo,
    next: PageNo,
    page: &mut Page,
) -> Result<PathPage, Fault>
    requires usable { P.usable pages.old ≡ true }
    requires at { at.0 < (P.shape pages.old).pages }
    ensures reads { ReadsTree P.Pages pages.old pages.new result }
    ensures inside { OnOk result (next.0 < (P.shape pages.old).pages) }
    ensures page { P.tells → OnOk result (page.new.bytes ≡ page_of (P.contents pages.old) next.0) }
    ensures is { OnOk result (IsPageOf (P.shape pages.old).pages owner next.0 page.new.bytes) }
    ensures level { OnOk result ((header_of page.old.bytes).level
        ≡ suc (header_of page.new.bytes).level) }
    ensures read { IfOk result (IsReadAs next page.new.bytes) }
    ensures sound { P.tells → HasPage P.Pages pages.old owner next.0
        → next.0 < (P.shape pages.old).pages
        → (header_of page.old.bytes).level ≡ suc (header_of (page_of (P.contents pages.old) next.0)).level
        → IfErr result IsNoDamageOrLacks }
{
    step_down(pages, owner, at, next, page)?;
    let p = path_page(alloc, next, page)?;
    Ok(p)
}

// The same without its entries.
fn step_down<P: Pages>(
    pages: &mut P,
    owner: u32,
    at: PageNo,
    next: PageNo,
    page: &mut Page,
) -> Result<(), StoreFault>
    requires usable { P.usable pages.old ≡ true }
    requires at { at.0 < (P.shape pages.old).pages }
    ensures reads { ReadsPages P.Pages (NamesTree (P.shape pages.old).pages) pages.old pages.new result }
    ensures inside { OnOk result (next.0 < (P.shape pages.old).pages) }
    ensures page { P.tells → OnOk result (page.new.bytes ≡ page_of (P.contents pages.old) next.0) }
    ensures is { OnOk result (IsPageOf (P.shape pages.old).pages owner next.0 page.new.bytes) }
    ensures level { OnOk result ((header_of page.old.bytes).level
        ≡ suc (header_of page.new.bytes).level) }
    ensures sound { P.tells → HasPage P.Pages pages.old owner next.0
        → next.0 < (P.shape pages.old).pages
        → (header_of page.old.bytes).level ≡ suc (header_of (page_of (P.contents pages.old) next.0)).level
        → IfErr result IsNoDamage }
{
    if next.0 < pages.pages() {
        let level = level_of(page);
        read_below(pages, owner, next, level, page)?;
        Ok(())
    } else {
        Err(broken(at))
    }
}

// A page of the path with its entries. The error is want of memory.
fn path_page(alloc: Global, page: PageNo, p: &Page) -> Result<PathPage, AllocError>
    requires { IsReadable p.now.bytes }
    ensures { IfOk result (IsReadAs page p.now.bytes) }
{
    let h = head(p);
    Ok(PathPage {
        page,
        head: NodeHead {
            level: h.level,
            ssn: h.ssn,
            next: h.next,
        },
        entries: entries(alloc, p)?,
    })
}
