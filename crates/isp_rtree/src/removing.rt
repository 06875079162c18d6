//! An entry is taken out.
ghost use Rattle.std.specs.Prelude.{◌≡◌, ◌+◌, ◌<◌, ◌≤◌, ◌++◌, ◌∷◌, [], ℕ, Some, take, IfErr, IsTrue, OnOk};
ghost use Rattle.isp_format.specs.Header.{header_of};
ghost use Rattle.isp_format.specs.Ranges.{page_of};
ghost use Rattle.isp_page.specs.Steps.{IsNoDamage};
ghost use Rattle.isp_space.specs.Changes.{ChangesPages, MayChange};
ghost use Rattle.isp_forest.specs.Steps.{is_row, remove, without};
ghost use Rattle.isp_forest.specs.Tree.{Node, Tree, page_at};
ghost use Rattle.isp_rnode.specs.Nodes.{IsNode, IsReadable, most_entries, node_of};
ghost use Rattle.isp_rtree.specs.Calls.{HasTree, NamesPage};
ghost use Rattle.isp_rtree.specs.Removing.{IsAlone, others_of};

use crate::nodes::broken;
use isp_format::{MOST_FANOUT, Page, PageNo, head, level_of};
use isp_mbr::Box4;
use isp_page::{Pages, StoreFault, replace};
use isp_rnode::{Entry, To, entry, entry_count, is_node, set_entries};

/// How many entries a page holds at most.
const MOST_ENTRIES: usize = MOST_FANOUT as usize;

/// Takes the entry with that number out of its leaf. The others keep their order; no box shrinks, and no right link and no
/// sequence number changes.
///
/// # Errors
///
/// Disk; or Damaged, with the page and rule 9, where it is no leaf of an R-tree.
pub fn remove<P: Pages>(pages: &mut P, leaf: PageNo, number: u64) -> Result<(), StoreFault>
    requires can { MayChange P.Pages 1 pages.old }
    requires page { leaf.0 < (P.shape pages.old).pages }
    ensures changes { ChangesPages P.Pages (leaf.0 ∷ []) (NamesPage leaf.0) pages.old pages.new
        result }
    ensures removed { P.tells → (owner root : ℕ) (tree : Tree)
        → HasTree P.Pages pages.old owner root tree → IsAlone tree leaf.0 number
        → OnOk result (HasTree P.Pages pages.new owner root (remove tree number)) }
    ensures sound { P.tells → (owner root : ℕ) (tree : Tree) (node : Node)
        → HasTree P.Pages pages.old owner root tree → page_at tree leaf.0 ≡ Some node
        → node.level ≡ 0 → IfErr result IsNoDamage }
{
    let mut page = Page::zeros();
    pages.read(leaf, &mut page)?;
    if !is_leaf(&page, leaf) {
        return Err(broken(leaf));
    }
    let new = page_without(&page, number);
    replace(pages, leaf, &page, &new)?;
    Ok(())
}

// Whether it is a leaf of a tree.
fn is_leaf(p: &Page, own: PageNo) -> bool
    ensures yes { IsTrue result → IsReadable p.now.bytes × ((header_of p.now.bytes).level ≡ 0) }
    ensures no { (owner : ℕ) (node : Node) → IsNode owner own.0 node p.now.bytes
        → node.level ≡ 0 → IsTrue result }
{
    is_node(p, head(p).owner, own) && level_of(p) == 0
}

// The leaf without that entry.
fn page_without(p: &Page, number: u64) -> Page
    requires readable { IsReadable p.now.bytes }
    requires leaf { (header_of p.now.bytes).level ≡ 0 }
    ensures { (owner q : ℕ) (node : Node) → IsNode owner q node p.now.bytes
        → IsNode owner q (without number q node) result.bytes }
{
    let mut kept = [nothing(); MOST_ENTRIES];
    let count = copy_others(p, number, &mut kept);
    let mut new = *p;
    set_entries(&mut new, &kept[..count]);
    new
}

// An entry for the places that aren't used.
fn nothing() -> Entry {
    let b = Box4 {
        x1: 0,
        y1: 0,
        x2: 0,
        y2: 0,
    };
    Entry {
        b,
        to: To::Row { key: 0, number: 0 },
    }
}

// Copies the entries with other numbers, and answers how many there are.
fn copy_others(p: &Page, number: u64, kept: &mut [Entry; MOST_ENTRIES]) -> usize
    requires { IsReadable p.now.bytes }
    ensures within { result ≤ most_entries }
    ensures kept { take result kept.new ≡ others_of number (node_of p.now.bytes).entries }
{
    let mut count = 0;
    for i in 0..entry_count(p) {
        count = keep(kept, count, entry(p, i), number);
    }
    count
}

// Puts an entry behind so many, unless it has that number, and answers how many there are then.
fn keep(kept: &mut [Entry; MOST_ENTRIES], count: usize, e: Entry, number: u64) -> usize
    requires { count < most_entries }
    ensures within { result ≤ count + 1 }
    ensures kept { take result kept.new ≡ take count kept.old ++ others_of number (e ∷ []) }
{
    if has_number(e.to, number) {
        return count;
    }
    kept[count] = e;
    count + 1
}

/// Whether an entry is a row's with that number.
pub fn has_number(to: To, number: u64) -> bool
    ensures { result ≡ is_row number to }
{
    match to {
        To::Child(_) => false,
        To::Row { number: other, .. } => other == number,
    }
}
