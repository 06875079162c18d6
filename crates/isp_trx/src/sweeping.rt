//! Marked rows go.
ghost use Rattle.std.specs.Prelude.{◌≡◌, ◌<◌, ◌∷◌, [], ℕ, List, true, false, IfErr, IfOk, OnOk};
ghost use Rattle.isp_undo.specs.Chains.{Chain};
ghost use Rattle.isp_clustered.specs.Calls.{HasTree};
ghost use Rattle.isp_space.specs.Changes.{MayChange};
ghost use Rattle.isp_clustered.specs.Trees.{Tree, has_marked};
ghost use Rattle.isp_page.specs.Calls.{Continues, ContinuesOrLacks, MakesWith};
ghost use Rattle.isp_page.specs.Steps.{FailsOnPages, FailsOrLacks, IsNoDamage, IsNoDamageOrLacks};
ghost use Rattle.isp_image.specs.Databases.{Database};
ghost use Rattle.isp_image.specs.Faults.{NamesLater, NamesLaterOrLacks};
ghost use Rattle.isp_trx.specs.Roots.{AreWithin, numbers_of};
ghost use Rattle.isp_trx.specs.Writes.{CanSweep, Drops, Sweeps, SweepsAt, SweepsSome, kept_mark};

use crate::keys::RowKey;
use crate::roots::root_of;
use isp_clustered::{Kept, drop_marked, get};
use isp_format::{CATALOGUE_RULE, PageNo, SPACE_PAGE};
use isp_page::{Fault, Pages, StoreFault};
use std::alloc::Global;

// Whether a row is there that is marked.
fn has_mark(got: &Option<Kept>) -> bool
    ensures { result ≡ kept_mark got.now }
{
    match got {
        Some(kept) => kept.marked,
        None => false,
    }
}

// Whether the tree has a marked row of that key.
fn finds_mark<P: Pages>(alloc: Global, pages: &mut P, root: PageNo, key: i64) -> Result<bool, Fault>
    requires usable { P.usable pages.old ≡ true }
    requires page { root.0 < (P.shape pages.old).pages }
    ensures kept { ContinuesOrLacks P.Pages pages.old pages.new result }
    ensures contents { P.tells → OnOk result (P.contents pages.new ≡ P.contents pages.old) }
    ensures mini { OnOk result (P.mini pages.new ≡ P.mini pages.old) }
    ensures marked { P.tells → (table : ℕ) (tree : Tree) → HasTree P.Pages pages.old table root.0
        tree
        → IfOk result (λ there. there ≡ has_marked key tree) }
    ensures sound { P.tells → (table : ℕ) (tree : Tree) → HasTree P.Pages pages.old table root.0
        tree
        → IfErr result IsNoDamageOrLacks }
    ensures later { IfErr result NamesLaterOrLacks }
{
    let got = get(alloc, pages, root, key)?;
    Ok(has_mark(&got))
}

// Takes the marked row of a key out.
fn drop_tree<P: Pages>(pages: &mut P, root: PageNo, at: RowKey) -> Result<(), StoreFault>
    requires can { MayChange P.Pages 1 pages.old }
    requires page { root.0 < (P.shape pages.old).pages }
    ensures kept { Continues P.Pages pages.old pages.new result }
    ensures begun { OnOk result ((P.mini pages.new).is_begun ≡ true) }
    ensures dropped { P.tells → OnOk result (Drops (P.shape pages.old).pages (P.contents pages.old)
        root.0 at
        (P.contents pages.new)) }
    ensures sound { P.tells → (table : ℕ) (tree : Tree) → HasTree P.Pages pages.old table root.0
        tree
        → has_marked at.key tree ≡ true → IfErr result IsNoDamage }
    ensures later { IfErr result NamesLater }
{
    drop_marked(pages, root, at.key)
}

// The same in a mini-transaction of its own, which isn't finished yet.
fn begin_drop<P: Pages>(pages: &mut P, root: PageNo, at: RowKey) -> Result<(), StoreFault>
    requires usable { P.usable pages.old ≡ true }
    requires none { (P.mini pages.old).is_begun ≡ false }
    requires page { root.0 < (P.shape pages.old).pages }
    ensures kept { Continues P.Pages pages.old pages.new result }
    ensures begun { OnOk result ((P.mini pages.new).is_begun ≡ true) }
    ensures dropped { P.tells → OnOk result (Drops (P.shape pages.old).pages (P.contents pages.old)
        root.0 at
        (P.contents pages.new)) }
    ensures sound { P.tells → (table : ℕ) (tree : Tree) → HasTree P.Pages pages.old table root.0
        tree
        → has_marked at.key tree ≡ true → IfErr result IsNoDamage }
    ensures later { IfErr result NamesLater }
{
    pages.begin();
    drop_tree(pages, root, at)?;
    Ok(())
}

// The same, finished.
fn drop_row<P: Pages>(pages: &mut P, root: PageNo, at: RowKey) -> Result<(), StoreFault>
    requires usable { P.usable pages.old ≡ true }
    requires none { (P.mini pages.old).is_begun ≡ false }
    requires page { root.0 < (P.shape pages.old).pages }
    ensures made { MakesWith FailsOnPages P.Pages (Drops (P.shape pages.old).pages (P.contents
        pages.old) root.0
        at) pages.old pages.new result }
    ensures mini { OnOk result ((P.mini pages.new).is_begun ≡ false) }
    ensures dropped { P.tells → OnOk result (Drops (P.shape pages.old).pages (P.contents pages.old)
        root.0 at
        (P.contents pages.new)) }
    ensures sound { P.tells → (table : ℕ) (tree : Tree) → HasTree P.Pages pages.old table root.0
        tree
        → has_marked at.key tree ≡ true → IfErr result IsNoDamage }
    ensures later { IfErr result NamesLater }
{
    match begin_drop(pages, root, at) {
        Ok(()) => pages.finish(),
        Err(fault) => Err(fault),
    }
}

/// Takes the row of a key out, if it is marked, in one mini-transaction. No old row is noted of the
/// key any more, and its table has its tree on that root. It takes memory.
///
/// # Errors
///
/// Disk; want of memory; or Damaged, as of `get` and `drop_marked` of isp_clustered.
pub fn drop_if_marked<P: Pages>(
    alloc: Global,
    pages: &mut P,
    root: PageNo,
    at: RowKey,
) -> Result<(), Fault>
    requires usable { P.usable pages.old ≡ true }
    requires none { (P.mini pages.old).is_begun ≡ false }
    requires page { root.0 < (P.shape pages.old).pages }
    ensures made { MakesWith FailsOrLacks P.Pages (SweepsAt (P.shape pages.old).pages (P.contents
        pages.old)
        root.0 at) pages.old pages.new result }
    ensures mini { OnOk result ((P.mini pages.new).is_begun ≡ false) }
    ensures swept { P.tells → OnOk result (SweepsAt (P.shape pages.old).pages (P.contents
        pages.old) root.0 at
        (P.contents pages.new)) }
    ensures sound { P.tells → (table : ℕ) (tree : Tree) → HasTree P.Pages pages.old table root.0
        tree
        → IfErr result IsNoDamageOrLacks }
    ensures later { IfErr result NamesLaterOrLacks }
{
    match finds_mark(alloc, pages, root, at.key) {
        Ok(true) => match drop_row(pages, root, at) {
            Ok(()) => Ok(()),
            Err(fault) => Err(Fault::Store(fault)),
        },
        Ok(false) => Ok(()),
        Err(fault) => Err(fault),
    }
}

// The same of a key, on the tree of its table.
fn drop_key<P: Pages>(
    alloc: Global,
    pages: &mut P,
    roots: &[PageNo],
    at: RowKey,
) -> Result<(), Fault>
    requires usable { P.usable pages.old ≡ true }
    requires none { (P.mini pages.old).is_begun ≡ false }
    requires roots { AreWithin (P.shape pages.old).pages roots.now }
    ensures made { MakesWith FailsOrLacks P.Pages (Sweeps (P.shape pages.old).pages
        (P.contents pages.old) (numbers_of roots.now) (at ∷ []) (at ∷ [])) pages.old pages.new
        result }
    ensures mini { OnOk result ((P.mini pages.new).is_begun ≡ false) }
    ensures swept { P.tells → OnOk result (Sweeps (P.shape pages.old).pages (P.contents pages.old)
        (numbers_of roots.now) (at ∷ []) (at ∷ []) (P.contents pages.new)) }
    ensures sound { P.tells → (chains : List Chain) (d : Database) → CanSweep (P.shape pages.old).pages
        (P.contents pages.old) chains (numbers_of roots.now) (at ∷ []) d
        → IfErr result IsNoDamageOrLacks }
    ensures later { IfErr result NamesLaterOrLacks }
{
    match root_of(roots, at.table) {
        Some(root) => drop_if_marked(alloc, pages, root, at),
        None => Err(Fault::Store(StoreFault::Damaged {
            page: SPACE_PAGE,
            rule: CATALOGUE_RULE,
        })),
    }
}

/// Takes the marked rows of these keys out, in their order, each in one mini-transaction. No old row is noted of any of them. The
/// roots are those of the tables' trees, in the order of their numbers. It takes memory.
///
/// # Errors
///
/// Disk; want of memory; or Damaged, as of `get` and `drop_marked` of isp_clustered, or with page 0 and rule 6 where there is no
/// root of a key's table. The rows of the keys before are gone then.
pub fn drop_marked_rows<P: Pages>(
    alloc: Global,
    pages: &mut P,
    roots: &[PageNo],
    keys: &[RowKey],
) -> Result<(), Fault>
    requires usable { P.usable pages.old ≡ true }
    requires none { (P.mini pages.old).is_begun ≡ false }
    requires roots { AreWithin (P.shape pages.old).pages roots.now }
    ensures made { MakesWith FailsOrLacks P.Pages (SweepsSome (P.shape pages.old).pages
        (P.contents pages.old) (numbers_of roots.now) keys.now) pages.old pages.new result }
    ensures mini { OnOk result ((P.mini pages.new).is_begun ≡ false) }
    ensures swept { P.tells → OnOk result (Sweeps (P.shape pages.old).pages (P.contents pages.old)
        (numbers_of roots.now) keys.now keys.now (P.contents pages.new)) }
    ensures sound { P.tells → (chains : List Chain) (d : Database) → CanSweep (P.shape pages.old).pages
        (P.contents pages.old) chains (numbers_of roots.now) keys.now d
        → IfErr result IsNoDamageOrLacks }
    ensures later { IfErr result NamesLaterOrLacks }
{
    for at in keys {
        match drop_key(alloc, pages, roots, *at) {
            Ok(()) => {}
            Err(fault) => return Err(fault),
        }
    }
    Ok(())
}
