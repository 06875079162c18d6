//! The leaf that has an entry.
ghost use Rattle.std.specs.Prelude.{◌≡◌, ◌↔◌, ◌<◌, ◌++◌, [], ℕ, true, IfErr, IfOk, IfSome, IsTrue, OnOk};
ghost use Rattle.std.specs.List.{cons_option};
ghost use Rattle.isp_format.specs.Ranges.{page_of};
ghost use Rattle.isp_format.specs.Rules.{walk_rule};
ghost use Rattle.isp_page.specs.Steps.{IsNoDamageOrLacks};
ghost use Rattle.isp_page.specs.declared.fault.Fault.TheVariants.{Store};
ghost use Rattle.isp_page.specs.declared.fault.StoreFault.TheVariants.{Damaged};
ghost use Rattle.isp_forest.specs.Tree.{Tree};
ghost use Rattle.isp_rnode.specs.Nodes.{IsReadable, node_of};
ghost use Rattle.isp_rtree.specs.Calls.{HasRoot, HasTree, NamesTreeOrLacks, ReadsPagesOrLacks};
ghost use Rattle.isp_rtree.specs.Trees.{IsAtPage, IsPageOf, IsRead, IsTreeIn};
ghost use Rattle.isp_rfind.specs.Finding.{Finds, HasEntry, HasFound, IsSought};
ghost use Rattle.isp_rfind.specs.Stack.{AreInside, AreNext, Takes, children_of, pending_in, pending_of};
ghost use Rattle.isp_rfind.specs.Walks.{HasChildren, HasWay, NamesWalkOrLacks, Shows, ShowsChild};

use crate::pending::Pending;
use isp_format::{Page, PageNo, WALK_RULE, level_of};
use isp_mbr::{Box4, Predicate, Test, covers, satisfies};
use isp_page::{Fault, Pages, StoreFault};
use isp_rnode::{Entry, To, entry, entry_count};
use isp_rtree::{has_number, read_below, read_root};
use std::alloc::{AllocError, Global};

/// The leaf that has the entry with that box and that number, or None where none has it. It is looked for below each entry
/// whose box covers that one (Guttman 1984).
///
/// # Errors
///
/// Want of memory; Disk; or Damaged: with the page that shows it and rule 9, where a page that is read is no page of an R-tree
/// of the root's owner, or isn't one level below the one that leads to it, or the root is more than 16 levels above the leaves;
/// with the page that was read last and rule 13, where more pages were read than the file has.
pub fn find<P: Pages>(
    alloc: Global,
    pages: &mut P,
    root: PageNo,
    b: &Box4,
    number: u64,
) -> Result<Option<PageNo>, Fault>
    requires usable { P.usable pages.old ≡ true }
    requires root { root.0 < (P.shape pages.old).pages }
    ensures reads { ReadsPagesOrLacks P.Pages (NamesWalkOrLacks (P.shape pages.old).pages)
        pages.old pages.new result }
    ensures found { P.tells → (owner : ℕ) (tree : Tree) → HasTree P.Pages pages.old owner root.0 tree
        → IfOk result (Finds tree b.now number) }
    ensures only { P.tells → IfOk result (λ leaf. (owner : ℕ) × HasRoot P.Pages pages.old owner root.0
        × HasFound P.Pages pages.old owner b.now number leaf) }
    ensures sound { P.tells → (owner : ℕ) (tree : Tree) → HasTree P.Pages pages.old owner root.0 tree
        → IfErr result IsNoDamageOrLacks }
    ensures shows { P.tells → IfErr result (Shows P.Pages pages.old root.0) }
{
    let mut page = Page::zeros();
    let owner = read_root(pages, root, &mut page)?;
    let found = search(alloc, pages, owner, root, &mut page, b, number)?;
    Ok(found)
}

// The same from the root on, which stands in `page`.
fn search<P: Pages>(
    alloc: Global,
    pages: &mut P,
    owner: u32,
    root: PageNo,
    page: &mut Page,
    b: &Box4,
    number: u64,
) -> Result<Option<PageNo>, Fault>
    requires usable { P.usable pages.old ≡ true }
    requires root { root.0 < (P.shape pages.old).pages }
    requires is { IsPageOf (P.shape pages.old).pages owner root.0 page.old.bytes }
    ensures reads { ReadsPagesOrLacks P.Pages (NamesWalkOrLacks (P.shape pages.old).pages)
        pages.old pages.new result }
    ensures found { P.tells → (tree : Tree)
        → IsAtPage (P.contents pages.old) (P.shape pages.old) owner tree root.0 page.old.bytes
        → tree.root ≡ root.0 → IfOk result (Finds tree b.now number) }
    ensures only { P.tells → page.old.bytes ≡ page_of (P.contents pages.old) root.0
        → IfOk result (HasFound P.Pages pages.old owner b.now number) }
    ensures sound { P.tells → (tree : Tree)
        → IsAtPage (P.contents pages.old) (P.shape pages.old) owner tree root.0 page.old.bytes
        → tree.root ≡ root.0 → IfErr result IsNoDamageOrLacks }
    ensures shows { P.tells → page.old.bytes ≡ page_of (P.contents pages.old) root.0
        → IfErr result (ShowsChild P.Pages pages.old owner) }
{
    let count = pages.pages();
    let mut stack = Vec::new(alloc);
    let mut at = root;
    for _turn in 0..count {
        if has_entry(page, b, number) {
            return Ok(Some(at));
        }
        let next = go_on(pages, owner, page, b, &mut stack)?;
        match next {
            None => return Ok(None),
            Some(p) => at = p,
        }
    }
    Err(over(at))
}

// Adds the pages to which the one in `page` leads, and reads the last of all that are to be read, if there is one.
fn go_on<P: Pages>(
    pages: &mut P,
    owner: u32,
    page: &mut Page,
    b: &Box4,
    stack: &mut Vec<Pending>,
) -> Result<Option<PageNo>, Fault>
    requires usable { P.usable pages.old ≡ true }
    requires is { IsRead (P.shape pages.old).pages owner page.old.bytes }
    requires inside { AreInside (P.shape pages.old).pages stack.old.items }
    ensures reads { ReadsPagesOrLacks P.Pages (NamesTreeOrLacks (P.shape pages.old).pages)
        pages.old pages.new result }
    ensures left { OnOk result (AreInside (P.shape pages.old).pages stack.new.items) }
    ensures inside { IfOk result (λ next. IfSome next (λ p. p.0 < (P.shape pages.old).pages)) }
    ensures is { IfOk result (λ next. IfSome next (λ p.
        IsPageOf (P.shape pages.old).pages owner p.0 page.new.bytes)) }
    ensures page { P.tells → IfOk result (λ next. IfSome next (λ p.
        page.new.bytes ≡ page_of (P.contents pages.old) p.0)) }
    ensures takes { IfOk result (λ next.
        Takes (stack.old.items ++ children_of b.now page.old.bytes) next stack.new.items) }
    ensures sound { P.tells → (tree : Tree)
        → IsTreeIn (P.contents pages.old) (P.shape pages.old) owner tree
        → AreNext tree (stack.old.items ++ children_of b.now page.old.bytes)
        → IfErr result IsNoDamageOrLacks }
    ensures on { P.tells → HasWay P.Pages pages.old owner page.old.bytes stack.old.items
        → OnOk result (HasChildren P.Pages pages.old owner stack.new.items) }
    ensures shows { P.tells → HasWay P.Pages pages.old owner page.old.bytes stack.old.items
        → IfErr result (ShowsChild P.Pages pages.old owner) }
{
    add_children(stack, page, b)?;
    match stack.pop() {
        None => Ok(None),
        Some(next) => {
            read_below(pages, owner, next.page, next.above, page)?;
            Ok(Some(next.page))
        }
    }
}

// That more pages were read than the file has; this was the last one.
fn over(at: PageNo) -> Fault
    ensures { result ≡ Store (Damaged at.0 walk_rule) }
{
    Fault::Store(StoreFault::Damaged {
        page: at.0,
        rule: WALK_RULE,
    })
}

// Whether the page has the entry.
fn has_entry(p: &Page, b: &Box4, number: u64) -> bool
    requires { IsReadable p.now.bytes }
    ensures { IsTrue result ↔ HasEntry (node_of p.now.bytes) b.now number }
{
    for i in 0..entry_count(p) {
        if is_sought(&entry(p, i), b, number) {
            return true;
        }
    }
    false
}

// Whether it is that one.
fn is_sought(e: &Entry, b: &Box4, number: u64) -> bool
    ensures { IsTrue result ↔ IsSought b.now number e.now }
{
    has_number(e.to, number) && is_box(&e.b, b)
}

// Whether two boxes are one.
fn is_box(a: &Box4, b: &Box4) -> bool
    ensures { IsTrue result ↔ (a.now ≡ b.now) }
{
    let equals = Predicate {
        test: Test::Equals,
        q: *b,
    };
    satisfies(&equals, a)
}

// Adds the children whose boxes cover that one.
fn add_children(stack: &mut Vec<Pending>, p: &Page, b: &Box4) -> Result<(), AllocError>
    requires { IsReadable p.now.bytes }
    ensures { OnOk result (stack.new.items ≡ stack.old.items ++ children_of b.now p.now.bytes) }
{
    let above = level_of(p);
    for i in 0..entry_count(p) {
        add_child(stack, &entry(p, i), above, b)?;
    }
    Ok(())
}

// Adds the page that an entry leads to, if its box covers that one.
fn add_child(stack: &mut Vec<Pending>, e: &Entry, above: u8, b: &Box4) -> Result<(), AllocError>
    ensures { OnOk result (stack.new.items
        ≡ stack.old.items ++ cons_option (pending_of above b.now e.now) []) }
{
    match child_for(e, above, b) {
        Some(child) => {
            stack.push(child)?;
            Ok(())
        }
        None => Ok(()),
    }
}

// The page that an entry leads to, if its box covers that one.
fn child_for(e: &Entry, above: u8, b: &Box4) -> Option<Pending>
    ensures { result ≡ pending_of above b.now e.now }
{
    if covers(&e.b, b) {
        child(e.to, above)
    } else {
        None
    }
}

// The page that an entry leads to.
fn child(to: To, above: u8) -> Option<Pending>
    ensures { result ≡ pending_in true above to }
{
    match to {
        To::Child(page) => Some(Pending { page, above }),
        To::Row { .. } => None,
    }
}
