//! Trees that are written page by page.
ghost use Rattle.std.specs.Prelude.{◌≡◌, ◌==◌, true, is_none, IsTrue, OnOk};
ghost use Rattle.isp_base.specs.Lists.{Has};
ghost use Rattle.isp_page.specs.State.{none_begun};
ghost use Rattle.isp_forest.specs.Tree.{child_in, child_of};
ghost use Rattle.isp_forest.specs.declared.entry.Entry.{Entry};

use isp_format::{Head, Page, PageNo, set_head};
use isp_mbr::Box4;
use isp_page::{Fault, Pages, StoreFault, replace};
use isp_rnode::{Entry, To, set_entries};
use std::alloc::{AllocError, Global};

/// An entry by its corners, and where it leads: to a row, or to a page.
#[derive(Clone, Copy)]
pub(crate) enum Spot {
    Row([i32; 2], i64, u64),
    Child([i32; 4], u32),
}

/// A page of a tree, with the kind that its header says.
#[derive(Clone, Copy)]
pub(crate) struct Leaf {
    pub page: u32,
    pub kind: u8,
    pub level: u8,
    pub ssn: u64,
    pub next: u32,
    pub entries: &'static [Spot],
}

/// The owner of the trees here.
pub(crate) const OWNER: u32 = 33;

/// A tree of nine entries on two levels, whose root is page 16.
pub(crate) static TREE: [Leaf; 4] = [
    Leaf {
        page: 16,
        kind: 6,
        level: 1,
        ssn: 2,
        next: 0,
        entries: &[
            Spot::Child([0, 0, 10, 0], 17),
            Spot::Child([0, 10, 10, 10], 18),
            Spot::Child([5, 1, 9, 5], 19),
        ],
    },
    Leaf {
        page: 17,
        kind: 6,
        level: 0,
        ssn: 2,
        next: 19,
        entries: &[Spot::Row([0, 0], 1, 0), Spot::Row([10, 0], 2, 1)],
    },
    Leaf {
        page: 18,
        kind: 6,
        level: 0,
        ssn: 0,
        next: 0,
        entries: &[Spot::Row([0, 10], 3, 2), Spot::Row([10, 10], 4, 3)],
    },
    Leaf {
        page: 19,
        kind: 6,
        level: 0,
        ssn: 1,
        next: 18,
        entries: &[
            Spot::Row([5, 5], 5, 4),
            Spot::Row([9, 1], 6, 5),
            Spot::Row([9, 2], 7, 6),
        ],
    },
];

/// The box of these corners, if they are in order.
pub(crate) fn box_of(c: [i32; 4]) -> Option<Box4> {
    Box4::new(c[0], c[1], c[2], c[3])
}

// The entry that it stands for.
pub(crate) fn entry_of(spot: Spot) -> Option<Entry> {
    match spot {
        Spot::Row(at, key, number) => {
            let b = box_of([at[0], at[1], at[0], at[1]])?;
            Some(Entry {
                b,
                to: To::Row { key, number },
            })
        }
        Spot::Child(corners, page) => {
            let b = box_of(corners)?;
            Some(Entry {
                b,
                to: To::Child(PageNo(page)),
            })
        }
    }
}

// The entries that they stand for.
fn entries_of(alloc: Global, spots: &[Spot]) -> Result<Vec<Entry>, AllocError> {
    let mut entries = Vec::new(alloc);
    for spot in spots {
        if let Some(e) = entry_of(*spot) {
            entries.push(e)?;
        }
    }
    Ok(entries)
}

// Whether the entries are those of a page of that level.
fn are_of(entries: &[Entry], level: u8) -> bool
    ensures { IsTrue result → (e : Entry) → Has entries.now e → is_none (child_of e) ≡ (level == 0) }
{
    for e in entries {
        if is_row(e.to) != (level == 0) {
            return false;
        }
    }
    true
}

// Whether an entry leads to a row.
fn is_row(to: To) -> bool
    ensures { result ≡ is_none (child_in to) }
{
    match to {
        To::Row { .. } => true,
        To::Child(_) => false,
    }
}

// Puts a page of a tree into the bytes of one.
fn put_leaf(p: &mut Page, leaf: &Leaf, entries: &[Entry]) {
    let h = Head {
        kind: leaf.kind,
        level: leaf.level,
        count: 0,
        owner: OWNER,
        next: PageNo(leaf.next),
        prev: PageNo(0),
        ssn: leaf.ssn,
        own: PageNo(leaf.page),
        used: 64,
    };
    set_head(p, &h);
    if entries.len() <= 120 && are_of(entries, leaf.level) {
        set_entries(p, entries);
    }
}

/// Writes a page of a tree.
pub(crate) fn write<P: Pages>(alloc: Global, pages: &mut P, leaf: &Leaf) -> Result<(), Fault>
    requires usable { P.usable pages.old ≡ true }
    requires none { P.mini pages.old ≡ none_begun }
    ensures usable { OnOk result (P.usable pages.new ≡ true) }
    ensures none { OnOk result (P.mini pages.new ≡ none_begun) }
    ensures shape { OnOk result (P.shape pages.new ≡ P.shape pages.old) }
{
    let entries = entries_of(alloc, leaf.entries)?;
    if leaf.page >= pages.pages() {
        return Ok(());
    }
    let mut old = Page::zeros();
    pages.begin();
    pages.read(PageNo(leaf.page), &mut old)?;
    let mut new = old;
    put_leaf(&mut new, leaf, &entries);
    replace(pages, PageNo(leaf.page), &old, &new)?;
    pages.finish()?;
    Ok(())
}

/// Writes these pages.
pub(crate) fn write_all<P: Pages>(alloc: Global, pages: &mut P, tree: &[Leaf]) -> Result<(), Fault>
    requires usable { P.usable pages.old ≡ true }
    requires none { P.mini pages.old ≡ none_begun }
    ensures usable { OnOk result (P.usable pages.new ≡ true) }
    ensures none { OnOk result (P.mini pages.new ≡ none_begun) }
    ensures shape { OnOk result (P.shape pages.new ≡ P.shape pages.old) }
{
    for leaf in tree {
        write(alloc, pages, leaf)?;
    }
    Ok(())
}
