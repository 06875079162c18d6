//! What a tree answers, compared with a list.
ghost use Rattle.std.specs.Prelude.{◌≡◌, ◌<◌, true, OnOk};

use crate::acts::byte_of;
use isp_clustered::{Kept, KeptRow, Leaf, get, next_leaf};
use isp_format::PageNo;
use isp_page::{Fault, Pages};
use std::alloc::Global;

/// A row of so many bytes, each its length, in a slot of that size.
#[derive(Clone, Copy)]
pub(crate) struct Seen {
    pub key: i64,
    pub len: u16,
    pub marked: bool,
    pub slot: u16,
}

/// A row that isn't marked, in a slot of its length.
macro_rules! seen {
    ($key:expr, $len:expr) => {
        Seen {
            key: $key,
            len: $len,
            marked: false,
            slot: $len,
        }
    };
}

pub(crate) use seen;

// Whether the row is that one.
fn is_kept(kept: &Kept, seen: Seen) -> bool {
    let row = kept.row.as_slice();
    if row.len() != seen.len as usize || kept.marked != seen.marked || kept.slot != seen.slot {
        return false;
    }
    for byte in row {
        if *byte != byte_of(seen.len) {
            return false;
        }
    }
    true
}

fn is_row(row: &KeptRow, seen: Seen) -> bool {
    row.key == seen.key && is_kept(&row.kept, seen)
}

// Whether the leaf has these rows and no others.
pub(crate) fn has_rows(leaf: &Leaf, rows: &[Seen]) -> bool {
    if leaf.rows.len() != rows.len() {
        return false;
    }
    for (row, seen) in leaf.rows.as_slice().iter().zip(rows) {
        if !is_row(row, *seen) {
            return false;
        }
    }
    true
}

/// Whether the tree's page is its only leaf and has these rows and no others.
pub(crate) fn has_leaf<P: Pages>(
    alloc: Global,
    pages: &mut P,
    root: PageNo,
    rows: &[Seen],
) -> Result<bool, Fault>
    requires usable { P.usable pages.old ≡ true }
    requires page { root.0 < (P.shape pages.old).pages }
    ensures usable { OnOk result (P.usable pages.new ≡ true) }
    ensures shape { OnOk result (P.shape pages.new ≡ P.shape pages.old) }
{
    let leaf = next_leaf(alloc, pages, root, None)?;
    Ok(leaf.page == root && leaf.next.is_none() && has_rows(&leaf, rows))
}

/// Whether that is what is found by the key: that row, or none.
pub(crate) fn finds<P: Pages>(
    alloc: Global,
    pages: &mut P,
    root: PageNo,
    key: i64,
    row: Option<Seen>,
) -> Result<bool, Fault>
    requires usable { P.usable pages.old ≡ true }
    requires page { root.0 < (P.shape pages.old).pages }
    ensures usable { OnOk result (P.usable pages.new ≡ true) }
    ensures shape { OnOk result (P.shape pages.new ≡ P.shape pages.old) }
{
    let found = get(alloc, pages, root, key)?;
    match (&found, row) {
        (Some(kept), Some(seen)) => Ok(is_kept(kept, seen)),
        (None, None) => Ok(true),
        _ => Ok(false),
    }
}

/// Whether each of these rows is found by its key.
pub(crate) fn finds_all<P: Pages>(
    alloc: Global,
    pages: &mut P,
    root: PageNo,
    rows: &[Seen],
) -> Result<bool, Fault>
    requires usable { P.usable pages.old ≡ true }
    requires page { root.0 < (P.shape pages.old).pages }
    ensures usable { OnOk result (P.usable pages.new ≡ true) }
    ensures shape { OnOk result (P.shape pages.new ≡ P.shape pages.old) }
{
    for seen in rows {
        let there = finds(alloc, pages, root, seen.key, Some(*seen))?;
        if !there {
            return Ok(false);
        }
    }
    Ok(true)
}
