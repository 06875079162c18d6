//! Paths down a tree.
ghost use Rattle.std.specs.Prelude.{◌≡◌, ◌↔◌, ◌∷◌, ℕ, None, Some, IfSome, true, IfErr, IfOk, IsTrue};
ghost use Rattle.isp_base.specs.Lists.{Has};
ghost use Rattle.isp_page.specs.Steps.{IsNoDamage};
ghost use Rattle.isp_space.specs.Changes.{ReadsPages};
ghost use Rattle.isp_forest.specs.Place.{Stands};
ghost use Rattle.isp_forest.specs.Tree.{Tree, child_in, child_of};
ghost use Rattle.isp_forest.specs.declared.entry.Entry.{Entry};
ghost use Rattle.isp_rnode.specs.Nodes.{IsReadable, node_of};
ghost use Rattle.isp_rtree.specs.Calls.{HasTree, NamesTree};
ghost use Rattle.isp_rtree.specs.Paths.{BeginsAt, BeginsInside, Leads, numbers_of};
ghost use Rattle.isp_rtree.specs.Trees.{IsAtPage, IsRead};

use crate::nodes::{read_below, read_root};
use isp_format::{Page, PageNo, level_of};
use isp_page::{Pages, StoreFault};
use isp_rnode::{Entry, To, entry, entry_count};

/// The entry that names a page, if one does.
pub(crate) fn entry_for(p: &Page, child: PageNo) -> Option<Entry>
    requires { IsReadable p.now.bytes }
    ensures some { IfSome result (λ e. Has (node_of p.now.bytes).entries e × (child_of e ≡ Some child.0)) }
    ensures none { result ≡ None → (e : Entry) → Has (node_of p.now.bytes).entries e
        → child_of e ≡ Some child.0 → ⊥ }
{
    for i in 0..entry_count(p) {
        let e = entry(p, i);
        if leads_to(e.to, child) {
            return Some(e);
        }
    }
    None
}

// Whether the entry names that page.
fn leads_to(to: To, child: PageNo) -> bool
    ensures { IsTrue result ↔ (child_in to ≡ Some child.0) }
{
    match to {
        To::Child(page) => page.0 == child.0,
        To::Row { .. } => false,
    }
}

/// Whether the path stands in its tree: it begins at the root, each page has an entry for the next, and the last is a leaf.
/// The first page of a path that isn't empty is a root.
///
/// # Errors
///
/// Disk; or Damaged, with the page that shows it and rule 9, where a page that the path leads to is no page of an R-tree of the
/// root's owner, or isn't one level below the one before it, or the root is more than 16 levels above the leaves.
pub fn path_stands<P: Pages>(pages: &mut P, path: &[PageNo]) -> Result<bool, StoreFault>
    requires usable { P.usable pages.old ≡ true }
    requires inside { BeginsInside (P.shape pages.old).pages (numbers_of path.now) }
    ensures reads { ReadsPages P.Pages (NamesTree (P.shape pages.old).pages) pages.old pages.new result }
    ensures stands { P.tells → (owner root : ℕ) (tree : Tree) → HasTree P.Pages pages.old owner root tree
        → BeginsAt root (numbers_of path.now)
        → IfOk result (λ stands. IsTrue stands ↔ Stands tree (numbers_of path.now)) }
    ensures sound { P.tells → (owner root : ℕ) (tree : Tree) → HasTree P.Pages pages.old owner root tree
        → BeginsAt root (numbers_of path.now) → IfErr result IsNoDamage }
{
    if path.len() == 0 {
        return Ok(false);
    }
    let mut page = Page::zeros();
    let owner = read_root(pages, path[0], &mut page)?;
    let stands = leads(pages, owner, &path[1..], &mut page)?;
    Ok(stands)
}

// Whether these pages lead on from the one in `page` to a leaf.
fn leads<P: Pages>(
    pages: &mut P,
    owner: u32,
    rest: &[PageNo],
    page: &mut Page,
) -> Result<bool, StoreFault>
    requires usable { P.usable pages.old ≡ true }
    requires is { IsRead (P.shape pages.old).pages owner page.old.bytes }
    ensures reads { ReadsPages P.Pages (NamesTree (P.shape pages.old).pages) pages.old pages.new result }
    ensures leads { P.tells → (tree : Tree) (from : ℕ)
        → IsAtPage (P.contents pages.old) (P.shape pages.old) owner tree from page.old.bytes
        → IfOk result (λ leads. IsTrue leads ↔ Leads tree (from ∷ numbers_of rest.now)) }
    ensures sound { P.tells → (tree : Tree) (from : ℕ)
        → IsAtPage (P.contents pages.old) (P.shape pages.old) owner tree from page.old.bytes
        → IfErr result IsNoDamage }
{
    for next in rest {
        if entry_for(page, *next).is_none() {
            return Ok(false);
        }
        let level = level_of(page);
        read_below(pages, owner, *next, level, page)?;
    }
    Ok(level_of(page) == 0)
}
