//! Reading a page of a tree.
ghost use Rattle.std.specs.Prelude.{◌≡◌, ◌↔◌, ◌<◌, ℕ, suc, true, IfErr, IfOk, IsTrue, OnOk};
ghost use Rattle.isp_format.specs.Header.{header_of};
ghost use Rattle.isp_format.specs.Ranges.{page_of};
ghost use Rattle.isp_format.specs.Rules.{rtree_rule};
ghost use Rattle.isp_page.specs.Steps.{IsNoDamage};
ghost use Rattle.isp_page.specs.declared.fault.StoreFault.TheVariants.{Damaged};
ghost use Rattle.isp_space.specs.Changes.{ReadsPages};
ghost use Rattle.isp_forest.specs.Tree.{Tree, child_in};
ghost use Rattle.isp_rnode.specs.Nodes.{IsReadable, node_of};
ghost use Rattle.isp_rtree.specs.Calls.{HasPage, HasRoot, HasTree, NamesPage};
ghost use Rattle.isp_rtree.specs.Trees.{IsInside, IsPageOf, IsRootOf, LeadsInside};

use isp_format::{Page, PageNo, RTREE_RULE, head, level_of};
use isp_page::{Pages, StoreFault};
use isp_rnode::{To, entry, entry_count, is_node};

/// How high above the leaves a root stands at most: a file of 65,536 pages has room for no higher tree, since each level has
/// at least twice as many pages as the one above it.
const MOST_LEVEL: u8 = 16;

/// That a page isn't what a page of an R-tree has to be.
pub fn broken(page: PageNo) -> StoreFault
    ensures { result ≡ Damaged page.0 rtree_rule }
{
    StoreFault::Damaged {
        page: page.0,
        rule: RTREE_RULE,
    }
}

// Whether an entry leads to no page behind the last.
fn is_inside(to: To, pages: u32) -> bool
    ensures { IsTrue result ↔ IsInside pages (child_in to) }
{
    match to {
        To::Child(page) => page.0 < pages,
        To::Row { .. } => true,
    }
}

// Whether all do.
fn leads_inside(p: &Page, pages: u32) -> bool
    requires { IsReadable p.now.bytes }
    ensures { IsTrue result ↔ LeadsInside pages (node_of p.now.bytes).entries }
{
    for i in 0..entry_count(p) {
        if !is_inside(entry(p, i).to, pages) {
            return false;
        }
    }
    true
}

// Whether it is a page of a tree of that owner, in a file of so many pages.
fn is_page_of(p: &Page, pages: u32, owner: u32, own: PageNo) -> bool
    ensures { IsTrue result ↔ IsPageOf pages owner own.0 p.now.bytes }
{
    is_node(p, owner, own) && leads_inside(p, pages)
}

/// Reads a page of the tree of that owner into `into`.
pub(crate) fn read_node<P: Pages>(
    pages: &mut P,
    owner: u32,
    p: PageNo,
    into: &mut Page,
) -> Result<(), StoreFault>
    requires usable { P.usable pages.old ≡ true }
    requires page { p.0 < (P.shape pages.old).pages }
    ensures reads { ReadsPages P.Pages (NamesPage p.0) pages.old pages.new result }
    ensures page { P.tells → OnOk result (into.new.bytes ≡ page_of (P.contents pages.old) p.0) }
    ensures is { OnOk result (IsPageOf (P.shape pages.old).pages owner p.0 into.new.bytes) }
    ensures sound { P.tells → HasPage P.Pages pages.old owner p.0 → IfErr result IsNoDamage }
{
    let count = pages.pages();
    pages.read(p, into)?;
    if is_page_of(into, count, owner, p) {
        Ok(())
    } else {
        Err(broken(p))
    }
}

/// Reads the root of a tree into `into`, and answers the tree's owner.
///
/// # Errors
///
/// Disk; or Damaged, with that page and rule 9, where it is no page of an R-tree, or stands more than 16 levels above the leaves.
pub fn read_root<P: Pages>(pages: &mut P, root: PageNo, into: &mut Page) -> Result<u32, StoreFault>
    requires usable { P.usable pages.old ≡ true }
    requires page { root.0 < (P.shape pages.old).pages }
    ensures reads { ReadsPages P.Pages (NamesPage root.0) pages.old pages.new result }
    ensures page { P.tells → OnOk result (into.new.bytes ≡ page_of (P.contents pages.old) root.0) }
    ensures is { IfOk result (λ owner. IsRootOf (P.shape pages.old).pages owner root.0 into.new.bytes) }
    ensures sound { P.tells → (owner : ℕ) → HasRoot P.Pages pages.old owner root.0
        → IfErr result IsNoDamage }
    ensures holds { P.tells → (owner : ℕ) (tree : Tree)
        → HasTree P.Pages pages.old owner root.0 tree → IfErr result IsNoDamage }
{
    let count = pages.pages();
    pages.read(root, into)?;
    let owner = head(into).owner;
    if is_root_of(into, count, owner, root) {
        Ok(owner)
    } else {
        Err(broken(root))
    }
}

// Whether it is the root of one.
fn is_root_of(p: &Page, pages: u32, owner: u32, own: PageNo) -> bool
    ensures { IsTrue result ↔ IsRootOf pages owner own.0 p.now.bytes }
{
    is_page_of(p, pages, owner, own) && level_of(p) <= MOST_LEVEL
}

/// Reads a page of the tree of that owner, one level below a page of that level, into `into`.
///
/// # Errors
///
/// Disk; or Damaged, with that page and rule 9, where it is no page of an R-tree of that owner, or isn't on that level.
pub fn read_below<P: Pages>(
    pages: &mut P,
    owner: u32,
    p: PageNo,
    above: u8,
    into: &mut Page,
) -> Result<(), StoreFault>
    requires usable { P.usable pages.old ≡ true }
    requires page { p.0 < (P.shape pages.old).pages }
    ensures reads { ReadsPages P.Pages (NamesPage p.0) pages.old pages.new result }
    ensures page { P.tells → OnOk result (into.new.bytes ≡ page_of (P.contents pages.old) p.0) }
    ensures is { OnOk result (IsPageOf (P.shape pages.old).pages owner p.0 into.new.bytes) }
    ensures level { OnOk result (above ≡ suc (header_of into.new.bytes).level) }
    ensures sound { P.tells → HasPage P.Pages pages.old owner p.0
        → above ≡ suc (header_of (page_of (P.contents pages.old) p.0)).level → IfErr result IsNoDamage }
{
    read_node(pages, owner, p, into)?;
    if is_below(level_of(into), above) {
        Ok(())
    } else {
        Err(broken(p))
    }
}

// Whether the first level is one below the other.
fn is_below(level: u8, above: u8) -> bool
    ensures { IsTrue result ↔ (above ≡ suc level) }
{
    u16::from(level) + 1 == u16::from(above)
}
