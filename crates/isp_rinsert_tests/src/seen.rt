//! What is seen and told of a tree, compared.
ghost use Rattle.std.specs.Prelude.{◌≡◌, true, OnOk};
ghost use Rattle.isp_page.specs.State.{none_begun};

use crate::putting::box_of;
use crate::stages::{Grown, Leaf, Lifted, Part, Spot, Stage, Told};
use isp_format::PageNo;
use isp_page::{Fault, Pages};
use isp_rinsert::{Changes, Growth, Parted, Raised};
use isp_rtree::{Entry, Seen, To, visit};
use std::alloc::Global;

// Whether that is the entry.
fn is_entry(e: &Entry, spot: Spot) -> bool {
    match spot {
        Spot::Row(at, key, number) => {
            box_of([at[0], at[1], at[0], at[1]]) == Some(e.b) && e.to == To::Row { key, number }
        }
        Spot::Child(corners, page) => {
            box_of(corners) == Some(e.b) && e.to == To::Child(PageNo(page))
        }
    }
}

// Whether that is what is seen of it, with that counter.
fn is_leaf(seen: &Seen, leaf: &Leaf, counter: u64) -> bool {
    let is_head = seen.level == leaf.level && seen.ssn == leaf.ssn && seen.next.0 == leaf.next;
    if !is_head || seen.counter != counter || seen.entries.len() != leaf.entries.len() {
        return false;
    }
    for (e, spot) in seen.entries.iter().zip(leaf.entries) {
        if !is_entry(e, *spot) {
            return false;
        }
    }
    true
}

// Whether the page is seen so, in a tree with that root and that counter.
fn sees<P: Pages>(
    alloc: Global,
    pages: &mut P,
    root: u32,
    leaf: &Leaf,
    counter: u64,
) -> Result<bool, Fault>
    requires usable { P.usable pages.old ≡ true }
    ensures usable { OnOk result (P.usable pages.new ≡ true) }
{
    if root >= pages.pages() || leaf.page >= pages.pages() {
        return Ok(false);
    }
    let seen = visit(alloc, pages, PageNo(root), PageNo(leaf.page))?;
    Ok(is_leaf(&seen, leaf, counter))
}

// The sequence number of the first page, which is the root.
fn counter_of(tree: &[Leaf]) -> u64 {
    match tree {
        [] => 0,
        [root, ..] => root.ssn,
    }
}

/// Whether each page of the stage's tree is seen so.
pub(crate) fn sees_all<P: Pages>(alloc: Global, pages: &mut P, stage: &Stage) -> Result<bool, Fault>
    requires usable { P.usable pages.old ≡ true }
{
    let counter = counter_of(stage.tree);
    for leaf in stage.tree {
        if !sees(alloc, pages, stage.root, leaf, counter)? {
            return Ok(false);
        }
    }
    Ok(true)
}

// Whether that is the growth.
fn is_grown(growth: &Growth, grown: &Grown) -> bool {
    growth.parent.0 == grown.parent
        && growth.child.0 == grown.child
        && Some(growth.old) == box_of(grown.old)
        && Some(growth.new) == box_of(grown.new)
}

// Whether those are the growths.
fn are_grown(growths: &[Growth], grown: &[Grown]) -> bool {
    if growths.len() != grown.len() {
        return false;
    }
    for (growth, row) in growths.iter().zip(grown) {
        if !is_grown(growth, row) {
            return false;
        }
    }
    true
}

// Whether that is the division.
fn is_part(parted: &Parted, part: &Part) -> bool {
    parted.old.0 == part.old
        && parted.new.0 == part.new
        && Some(parted.old_box) == box_of(part.old_box)
        && Some(parted.new_box) == box_of(part.new_box)
}

// Whether those are the divisions.
fn are_parts(divisions: &[Parted], parts: &[Part]) -> bool {
    if divisions.len() != parts.len() {
        return false;
    }
    for (parted, part) in divisions.iter().zip(parts) {
        if !is_part(parted, part) {
            return false;
        }
    }
    true
}

// Whether that is what took a root's content.
fn is_lifted(raised: &Raised, lifted: &Lifted) -> bool {
    raised.page.0 == lifted.page && Some(raised.round) == box_of(lifted.round)
}

// Whether the root was raised so.
fn is_raised(raised: Option<Raised>, told: &[Lifted]) -> bool {
    match (raised, told) {
        (Some(r), [lifted]) => is_lifted(&r, lifted),
        (None, []) => true,
        _ => false,
    }
}

/// Whether that is what is told.
pub(crate) fn is_told(changes: &Changes, told: &Told) -> bool {
    changes.number == told.number
        && are_grown(changes.growths.as_slice(), told.growths)
        && is_raised(changes.raised, told.raised)
        && are_parts(changes.divisions.as_slice(), told.divisions)
}
