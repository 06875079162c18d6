//! What is seen of a tree, compared.
ghost use Rattle.std.specs.Prelude.{◌≡◌, ◌<◌, true, OnOk};

use crate::making::{Leaf, entry_of};
use isp_format::PageNo;
use isp_page::{Fault, Pages};
use isp_rtree::{Seen, visit};
use std::alloc::Global;

// Whether that is what is seen of it, with that counter.
fn is_leaf(seen: &Seen, leaf: &Leaf, counter: u64) -> bool {
    let is_head = seen.level == leaf.level && seen.ssn == leaf.ssn && seen.next.0 == leaf.next;
    if !is_head || seen.counter != counter || seen.entries.len() != leaf.entries.len() {
        return false;
    }
    for (e, spot) in seen.entries.iter().zip(leaf.entries) {
        if Some(*e) != entry_of(*spot) {
            return false;
        }
    }
    true
}

/// Whether each of these pages is seen so, in a tree with that root and that counter.
pub(crate) fn sees_all<P: Pages>(
    alloc: Global,
    pages: &mut P,
    root: PageNo,
    tree: &[Leaf],
    counter: u64,
) -> Result<bool, Fault>
    requires usable { P.usable pages.old ≡ true }
    requires root { root.0 < (P.shape pages.old).pages }
    ensures usable { OnOk result (P.usable pages.new ≡ true) }
    ensures shape { OnOk result (P.shape pages.new ≡ P.shape pages.old) }
{
    for leaf in tree {
        if leaf.page >= pages.pages() {
            return Ok(false);
        }
        let seen = visit(alloc, pages, root, PageNo(leaf.page))?;
        if !is_leaf(&seen, leaf, counter) {
            return Ok(false);
        }
    }
    Ok(true)
}
