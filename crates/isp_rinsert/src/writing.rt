//! Pages are written.
ghost use Rattle.std.specs.Prelude.{◌≡◌, ◌↔◌, ◌<◌, ◌≤◌, ◌∷◌, ◌==◌, [], ℕ, is_none, length, IfErr, IsTrue, OnOk, true};
ghost use Rattle.isp_base.specs.Lists.{Has, times};
ghost use Rattle.isp_page.specs.Steps.{IsNoDamage};
ghost use Rattle.isp_page.specs.State.{HasRoom};
ghost use Rattle.isp_forest.specs.Tree.{child_in};
ghost use Rattle.isp_rnode.specs.Nodes.{IsNode};
ghost use Rattle.isp_rsettle.specs.Settling.{node_with};
ghost use Rattle.isp_rsettle.specs.declared.outcome.Settled.{Settled};
ghost use Rattle.isp_rinsert.specs.Applying.{AreOfLevel, AreWritten, Fits, IsWritten, MayWrite, WritesPages, written_numbers};

use isp_format::{MOST_FANOUT, Page, PageNo, RTREE_KIND, head, set_head};
use isp_page::{Pages, StoreFault, replace};
use isp_rnode::{Entry, To, set_entries};
use isp_rsettle::Settled;
use isp_rtree::broken;

/// How many entries a page holds at most.
const MOST_ENTRIES: usize = MOST_FANOUT as usize;

/// Writes these pages of the tree of that owner.
pub(crate) fn write_all<P: Pages>(
    pages: &mut P,
    owner: u32,
    writes: &[Settled],
) -> Result<(), StoreFault>
    requires can { MayWrite P.Pages (written_numbers writes.now) pages.old }
    requires inside { (w : Settled) → Has writes.now w → w.page.0 < (P.shape pages.old).pages }
    ensures writes { WritesPages P.Pages (written_numbers writes.now) pages.old pages.new result }
    ensures written { P.tells → ((x : ℕ) → times x (written_numbers writes.now) ≤ 1)
        → OnOk result (AreWritten owner (P.contents pages.new) writes.now) }
    ensures sound { ((w : Settled) → Has writes.now w → Fits w) → IfErr result IsNoDamage }
{
    for w in writes {
        write_page(pages, owner, w)?;
    }
    Ok(())
}

// Writes one.
fn write_page<P: Pages>(pages: &mut P, owner: u32, w: &Settled) -> Result<(), StoreFault>
    requires usable { P.usable pages.old ≡ true }
    requires begun { (P.mini pages.old).is_begun ≡ true }
    requires room { HasRoom w.now.page.0 (P.mini pages.old) }
    requires inside { w.now.page.0 < (P.shape pages.old).pages }
    ensures writes { WritesPages P.Pages (w.now.page.0 ∷ []) pages.old pages.new result }
    ensures written { P.tells → OnOk result (IsWritten owner (P.contents pages.new) w.now) }
    ensures sound { Fits w.now → IfErr result IsNoDamage }
{
    if !fits(w) {
        return Err(broken(w.page));
    }
    let mut page = Page::zeros();
    pages.read(w.page, &mut page)?;
    let new = node_page(&page, owner, w);
    replace(pages, w.page, &page, &new)?;
    Ok(())
}

// Whether a page can hold the entries, and they are those of its level.
fn fits(w: &Settled) -> bool
    ensures { IsTrue result ↔ Fits w.now }
{
    w.entries.len() <= MOST_ENTRIES && are_of_level(w.entries.as_slice(), w.head.level)
}

// Whether all entries are such as stand on a page of that level.
fn are_of_level(entries: &[Entry], level: u8) -> bool
    ensures { IsTrue result ↔ AreOfLevel level entries.now }
{
    for e in entries {
        if !is_of_level(e.to, level) {
            return false;
        }
    }
    true
}

// Whether an entry that leads there does.
fn is_of_level(to: To, level: u8) -> bool
    ensures { IsTrue result ↔ (is_none (child_in to) ≡ (level == 0)) }
{
    match to {
        To::Child(_) => level != 0,
        To::Row { .. } => level == 0,
    }
}

// The page as that node.
fn node_page(p: &Page, owner: u32, w: &Settled) -> Page
    requires { Fits w.now }
    ensures { IsNode owner w.now.page.0 (node_with w.now.head w.now.entries.items) result.bytes }
{
    let mut new = *p;
    let mut h = head(p);
    h.kind = RTREE_KIND;
    h.level = w.head.level;
    h.owner = owner;
    h.next = w.head.next;
    h.ssn = w.head.ssn;
    h.own = w.page;
    set_head(&mut new, &h);
    set_entries(&mut new, w.entries.as_slice());
    new
}
