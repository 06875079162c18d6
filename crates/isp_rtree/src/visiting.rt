//! What is seen of a page.
ghost use Rattle.std.specs.Prelude.{◌≡◌, ◌<◌, ◌≤◌, ℕ, Some, false, is_none, length, true, IfErr, IfOk, OnOk};
ghost use Rattle.isp_base.specs.Lists.{Has};
ghost use Rattle.isp_format.specs.Header.{header_of};
ghost use Rattle.isp_format.specs.Ranges.{page_of};
ghost use Rattle.isp_page.specs.Steps.{IsNoDamage, IsNoDamageOrLacks};
ghost use Rattle.isp_space.specs.Changes.{ReadsPages};
ghost use Rattle.isp_forest.specs.Choice.{IsChoice};
ghost use Rattle.isp_forest.specs.Tree.{Node, Tree, child_of, counter, page_at};
ghost use Rattle.isp_forest.specs.declared.entry.Entry.{Entry};
ghost use Rattle.isp_rnode.specs.Nodes.{IsReadable, node_of};
ghost use Rattle.isp_rtree.specs.Calls.{HasPage, HasRoot, HasTree, NamesTree, NamesTreeOrLacks, ReadsPagesOrLacks};
ghost use Rattle.isp_rtree.specs.Trees.{IsSeen};

use crate::nodes::{read_node, read_root};
use isp_format::{Page, PageNo, head};
use isp_mbr::Box4;
use isp_page::{Fault, Pages, StoreFault};
use isp_rnode::{Seen, entries};
use std::alloc::{AllocError, Global};

/// What is seen of a page of the tree on that root: its level, sequence number, right link and entries, and the tree's counter.
///
/// # Errors
///
/// Want of memory; Disk; or Damaged, with the root or the page and rule 9, where that is no page of an R-tree of the root's
/// owner, or the root is more than 16 levels above the leaves.
pub fn visit<P: Pages>(
    alloc: Global,
    pages: &mut P,
    root: PageNo,
    page: PageNo,
) -> Result<Seen, Fault>
    requires usable { P.usable pages.old ≡ true }
    requires root { root.0 < (P.shape pages.old).pages }
    requires page { page.0 < (P.shape pages.old).pages }
    ensures reads { ReadsPagesOrLacks P.Pages (NamesTreeOrLacks (P.shape pages.old).pages)
        pages.old pages.new result }
    ensures read { P.tells → IfOk result (IsSeen (node_of (page_of (P.contents pages.old) page.0))
        (header_of (page_of (P.contents pages.old) root.0)).ssn) }
    ensures only { P.tells → OnOk result ((owner : ℕ) × HasRoot P.Pages pages.old owner root.0
        × HasPage P.Pages pages.old owner page.0) }
    ensures seen { P.tells → (owner : ℕ) (tree : Tree) (node : Node)
        → HasTree P.Pages pages.old owner root.0 tree → page_at tree page.0 ≡ Some node
        → IfOk result (IsSeen node (counter tree)) }
    ensures sound { P.tells → (owner : ℕ) (tree : Tree) (node : Node)
        → HasTree P.Pages pages.old owner root.0 tree → page_at tree page.0 ≡ Some node
        → IfErr result IsNoDamageOrLacks }
{
    let mut p = Page::zeros();
    let counter = read_page(pages, root, page, &mut p)?;
    let seen = seen_of(alloc, &p, counter)?;
    Ok(seen)
}

// Reads the root of a tree and then a page of it into `into`, and answers the tree's counter.
fn read_page<P: Pages>(
    pages: &mut P,
    root: PageNo,
    page: PageNo,
    into: &mut Page,
) -> Result<u64, StoreFault>
    requires usable { P.usable pages.old ≡ true }
    requires root { root.0 < (P.shape pages.old).pages }
    requires page { page.0 < (P.shape pages.old).pages }
    ensures reads { ReadsPages P.Pages (NamesTree (P.shape pages.old).pages) pages.old pages.new result }
    ensures counter { P.tells → IfOk result (λ counter. counter
        ≡ (header_of (page_of (P.contents pages.old) root.0)).ssn) }
    ensures page { P.tells → OnOk result (into.new.bytes ≡ page_of (P.contents pages.old) page.0) }
    ensures is { OnOk result (IsReadable into.new.bytes) }
    ensures only { P.tells → OnOk result ((owner : ℕ) × HasRoot P.Pages pages.old owner root.0
        × HasPage P.Pages pages.old owner page.0) }
    ensures sound { P.tells → (owner : ℕ) (tree : Tree) (node : Node)
        → HasTree P.Pages pages.old owner root.0 tree → page_at tree page.0 ≡ Some node
        → IfErr result IsNoDamage }
{
    let owner = read_root(pages, root, into)?;
    let counter = counter_of(into);
    read_node(pages, owner, page, into)?;
    Ok(counter)
}

// The sequence number of a page, which is the tree's counter where it is the root.
fn counter_of(p: &Page) -> u64
    ensures { result ≡ (header_of p.now.bytes).ssn }
{
    head(p).ssn
}

// What is seen of it.
fn seen_of(alloc: Global, p: &Page, counter: u64) -> Result<Seen, AllocError>
    requires { IsReadable p.now.bytes }
    ensures { IfOk result (IsSeen (node_of p.now.bytes) counter) }
{
    let h = head(p);
    Ok(Seen {
        level: h.level,
        ssn: h.ssn,
        next: h.next,
        counter,
        entries: entries(alloc, p)?,
    })
}

/// The page that a new entry with the box `b` goes to: the child of the entry whose box is enlarged least, then of the one
/// with the least area, then of the first (Guttman 1984).
pub fn choose(seen: &Seen, b: &Box4) -> PageNo
    requires some { 1 ≤ length seen.now.entries.items }
    requires children { (e : Entry) → Has seen.now.entries.items e → is_none (child_of e) ≡ false }
    ensures { IsChoice seen.now.entries.items b.now result.0 }
{
    isp_rnode::choose(seen.entries.as_slice(), b)
}
