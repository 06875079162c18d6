//! Points are put in.
ghost use Rattle.std.specs.Prelude.{◌≡◌, ◌<◌, ◌≤◌, false, is_none, length, true, IsTrue, OnOk};
ghost use Rattle.isp_base.specs.Lists.{Has};
ghost use Rattle.isp_page.specs.State.{none_begun};
ghost use Rattle.isp_forest.specs.Tree.{child_in, child_of};
ghost use Rattle.isp_forest.specs.declared.entry.Entry.{Entry};
ghost use Rattle.isp_rtree.specs.Paths.{BeginsInside, numbers_of};

use crate::stages::Stage;
use isp_format::PageNo;
use isp_mbr::Box4;
use isp_page::{Fault, Pages, StoreFault};
use isp_rinsert::{Changes, insert};
use isp_rtree::{Entry, Seen, To, choose, create, visit};
use isp_space::take_page;
use std::alloc::Global;

/// The box of these corners, if they are in order.
pub(crate) fn box_of(c: [i32; 4]) -> Option<Box4> {
    Box4::new(c[0], c[1], c[2], c[3])
}

// Takes a page.
fn take<P: Pages>(pages: &mut P) -> Result<(), StoreFault>
    requires usable { P.usable pages.old ≡ true }
    requires none { P.mini pages.old ≡ none_begun }
    ensures usable { OnOk result (P.usable pages.new ≡ true) }
    ensures none { OnOk result (P.mini pages.new ≡ none_begun) }
    ensures shape { OnOk result (P.shape pages.new ≡ P.shape pages.old) }
{
    pages.begin();
    let _page = take_page(pages)?;
    pages.finish()?;
    Ok(())
}

// Makes an empty tree.
fn make<P: Pages>(pages: &mut P) -> Result<(), StoreFault>
    requires usable { P.usable pages.old ≡ true }
    requires none { P.mini pages.old ≡ none_begun }
    ensures usable { OnOk result (P.usable pages.new ≡ true) }
    ensures none { OnOk result (P.mini pages.new ≡ none_begun) }
    ensures shape { OnOk result (P.shape pages.new ≡ P.shape pages.old) }
{
    pages.begin();
    let _root = create(pages, 33)?;
    pages.finish()?;
    Ok(())
}

// Whether an entry leads to a row.
fn is_row(to: To) -> bool
    ensures { result ≡ is_none (child_in to) }
{
    match to {
        To::Row { .. } => true,
        To::Child(_) => false,
    }
}

// Whether all lead to pages.
fn are_children(entries: &[Entry]) -> bool
    ensures { IsTrue result → (e : Entry) → Has entries.now e → is_none (child_of e) ≡ false }
{
    for e in entries {
        if is_row(e.to) {
            return false;
        }
    }
    true
}

// The page below that an entry with that box goes to.
fn below(seen: &Seen, b: &Box4) -> Option<PageNo> {
    if seen.entries.len() == 0 || !are_children(seen.entries.as_slice()) {
        return None;
    }
    Some(choose(seen, b))
}

// The page below that one, for an entry with that box.
fn next<P: Pages>(
    alloc: Global,
    pages: &mut P,
    root: PageNo,
    page: PageNo,
    b: &Box4,
) -> Result<Option<PageNo>, Fault>
    requires usable { P.usable pages.old ≡ true }
    requires none { P.mini pages.old ≡ none_begun }
    ensures usable { OnOk result (P.usable pages.new ≡ true) }
    ensures none { OnOk result (P.mini pages.new ≡ none_begun) }
    ensures shape { OnOk result (P.shape pages.new ≡ P.shape pages.old) }
{
    if root.0 >= pages.pages() || page.0 >= pages.pages() {
        return Ok(None);
    }
    let seen = visit(alloc, pages, root, page)?;
    Ok(below(&seen, b))
}

// The path of an entry with that box, down a tree of three levels at most.
fn way<P: Pages>(alloc: Global, pages: &mut P, root: PageNo, b: &Box4) -> Result<Vec<PageNo>, Fault>
    requires usable { P.usable pages.old ≡ true }
    requires none { P.mini pages.old ≡ none_begun }
    ensures usable { OnOk result (P.usable pages.new ≡ true) }
    ensures none { OnOk result (P.mini pages.new ≡ none_begun) }
    ensures shape { OnOk result (P.shape pages.new ≡ P.shape pages.old) }
{
    let mut path = Vec::new(alloc);
    path.push(root)?;
    let mut at = root;
    for _level in 1..3 {
        match next(alloc, pages, root, at, b)? {
            Some(page) => {
                path.push(page)?;
                at = page;
            }
            None => return Ok(path),
        }
    }
    Ok(path)
}

// Whether a path begins at a page of the file.
fn is_inside(path: &[PageNo], pages: u32) -> bool
    ensures some { IsTrue result → 0 < length path.now }
    ensures inside { IsTrue result → BeginsInside pages (numbers_of path.now) }
{
    match path {
        [] => false,
        [first, ..] => first.0 < pages,
    }
}

/// Puts an entry in at the end of that path, in a mini-transaction of its own.
pub(crate) fn put<P: Pages>(
    alloc: Global,
    pages: &mut P,
    path: &[PageNo],
    b: &Box4,
    key: i64,
) -> Result<Option<Changes>, Fault>
    requires usable { P.usable pages.old ≡ true }
    requires none { P.mini pages.old ≡ none_begun }
    ensures usable { OnOk result (P.usable pages.new ≡ true) }
    ensures none { OnOk result (P.mini pages.new ≡ none_begun) }
    ensures shape { OnOk result (P.shape pages.new ≡ P.shape pages.old) }
{
    if !is_inside(path, pages.pages()) {
        return Ok(None);
    }
    pages.begin();
    let changes = insert(alloc, pages, path, b, key)?;
    pages.finish()?;
    Ok(Some(changes))
}

// Puts a point in, where the boxes lead it.
fn put_point<P: Pages>(
    alloc: Global,
    pages: &mut P,
    root: PageNo,
    at: [i32; 2],
    key: i64,
) -> Result<Option<Changes>, Fault>
    requires usable { P.usable pages.old ≡ true }
    requires none { P.mini pages.old ≡ none_begun }
    ensures usable { OnOk result (P.usable pages.new ≡ true) }
    ensures none { OnOk result (P.mini pages.new ≡ none_begun) }
    ensures shape { OnOk result (P.shape pages.new ≡ P.shape pages.old) }
{
    let Some(b) = box_of([at[0], at[1], at[0], at[1]]) else {
        return Ok(None);
    };
    let path = way(alloc, pages, root, &b)?;
    let told = put(alloc, pages, path.as_slice(), &b, key)?;
    Ok(told)
}

/// Makes a stage's tree, and answers what is told of the last point.
pub(crate) fn run<P: Pages>(
    alloc: Global,
    pages: &mut P,
    stage: &Stage,
) -> Result<Option<Changes>, Fault>
    requires usable { P.usable pages.old ≡ true }
    requires none { P.mini pages.old ≡ none_begun }
    ensures usable { OnOk result (P.usable pages.new ≡ true) }
    ensures none { OnOk result (P.mini pages.new ≡ none_begun) }
    ensures shape { OnOk result (P.shape pages.new ≡ P.shape pages.old) }
{
    if stage.taken {
        take(pages)?;
    }
    make(pages)?;
    let mut told = None;
    let mut key = 1;
    for at in stage.points {
        if stage.taken && key == 5 {
            take(pages)?;
        }
        told = put_point(alloc, pages, PageNo(stage.root), *at, key)?;
        key = key.saturating_add(1);
    }
    Ok(told)
}
