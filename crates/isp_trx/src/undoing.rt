//! The newest change is taken back.
ghost use Rattle.std.specs.Prelude.{◌≡◌, ◌<◌, ℕ, suc, List, Some, FitsSigned, true, false, nat_lt, IfErr, IfOk, OnOk};
ghost use Rattle.std.specs.Int.{w64};
ghost use Rattle.isp_clustered.specs.Calls.{HasTree};
ghost use Rattle.isp_clustered.specs.Trees.{Tree};
ghost use Rattle.isp_format.specs.Undo.{undo_slots};
ghost use Rattle.isp_space.specs.Changes.{ChangesBy, MayChange};
ghost use Rattle.isp_undo.specs.Chains.{Chain, newest_of};
ghost use Rattle.isp_undo_pages.specs.Entries.{IsBuf, image_in};
ghost use Rattle.isp_image.specs.Databases.{Database};
ghost use Rattle.isp_image.specs.Faults.{NamesLater};
ghost use Rattle.isp_page.specs.Calls.{Continues, MakesWith};
ghost use Rattle.isp_page.specs.Steps.{FailsOnPages, IsNoDamage};
ghost use Rattle.isp_trx.specs.Backs.{CanTake, PutsBack, Takes, TakesAt, fits_in};
ghost use Rattle.isp_trx.specs.Roots.{AreWithin, numbers_of};
ghost use Rattle.isp_trx.specs.Transactions.{HasUndone};
ghost use Rattle.isp_trx.specs.Writes.{CanUndo, Undoes};

use crate::images::ABSENT_KIND;
use crate::roots::root_of;
use crate::trx::Trx;
use isp_clustered::{mark, rewrite};
use isp_format::{MOST_SLOT, PageNo, UNDO_DIRECTORY_PAGE, UNDO_RULE};
use isp_page::{Pages, StoreFault};
use isp_undo::{UndoBuf, last, pop};
use isp_undo_pages::MARKED_KIND;

// An old row that nothing was read into.
const NOTHING: UndoBuf = UndoBuf {
    table: 0,
    key: 0,
    kind: ABSENT_KIND,
    len: 0,
    bytes: [0; MOST_SLOT],
};

// What is answered where a transaction's changes aren't noted.
const BROKEN: StoreFault = StoreFault::Damaged {
    page: UNDO_DIRECTORY_PAGE,
    rule: UNDO_RULE,
};

// The bytes of an old row.
fn row_in(old: &UndoBuf) -> &[u8]
    requires { IsBuf old.now }
    ensures { result.now ≡ (image_in old.now).row }
{
    &old.bytes[..usize::from(old.len)]
}

// Its key.
fn key_in(old: &UndoBuf) -> i64
    ensures key { result ≡ old.now.key }
    ensures fits { FitsSigned w64 old.now.key }
{
    old.key
}

// Puts an old row into the slot of its key, or marks the row there where none stood.
fn put_back<P: Pages>(pages: &mut P, root: PageNo, old: &UndoBuf) -> Result<(), StoreFault>
    requires can { MayChange P.Pages 1 pages.old }
    requires page { root.0 < (P.shape pages.old).pages }
    requires buf { IsBuf old.now }
    ensures kept { Continues P.Pages pages.old pages.new result }
    ensures changes { OnOk result (ChangesBy P.Pages 1 pages.old pages.new) }
    ensures put { P.tells → OnOk result (PutsBack (P.shape pages.old).pages (P.contents pages.old)
        root.0 (image_in old.now)
        (P.contents pages.new)) }
    ensures sound { P.tells → (table : ℕ) (tree : Tree) → HasTree P.Pages pages.old table root.0
        tree
        → fits_in (image_in old.now) tree ≡ true → IfErr result IsNoDamage }
    ensures later { IfErr result NamesLater }
{
    let key = key_in(old);
    if old.kind == ABSENT_KIND {
        mark(pages, root, key)
    } else {
        rewrite(pages, root, key, row_in(old), old.kind == MARKED_KIND)
    }
}

// The same, and the entry goes from the chain of the slot, whose newest it is.
fn put_and_pop<P: Pages>(
    pages: &mut P,
    slot: u32,
    root: PageNo,
    old: &UndoBuf,
) -> Result<(), StoreFault>
    requires can { MayChange P.Pages 5 pages.old }
    requires slot { slot < undo_slots }
    requires page { root.0 < (P.shape pages.old).pages }
    requires buf { IsBuf old.now }
    ensures kept { Continues P.Pages pages.old pages.new result }
    ensures begun { OnOk result ((P.mini pages.new).is_begun ≡ true) }
    ensures taken { P.tells → OnOk result (Takes (P.shape pages.old).pages (P.contents pages.old)
        slot (image_in old.now) root.0
        (P.contents pages.new)) }
    ensures sound { P.tells → (chains : List Chain) (chain : Chain) (d : Database)
        → CanTake (P.shape pages.old).pages (P.contents pages.old) chains slot chain
        (image_in old.now) root.0 d → IfErr result IsNoDamage }
    ensures later { IfErr result NamesLater }
{
    put_back(pages, root, old)?;
    pop(pages, slot)?;
    Ok(())
}

// The same, on the tree of its table.
fn take_back<P: Pages>(
    pages: &mut P,
    slot: u32,
    roots: &[PageNo],
    old: &UndoBuf,
) -> Result<(), StoreFault>
    requires can { MayChange P.Pages 5 pages.old }
    requires slot { slot < undo_slots }
    requires roots { AreWithin (P.shape pages.old).pages roots.now }
    requires buf { IsBuf old.now }
    ensures kept { Continues P.Pages pages.old pages.new result }
    ensures begun { OnOk result ((P.mini pages.new).is_begun ≡ true) }
    ensures taken { P.tells → OnOk result (TakesAt (P.shape pages.old).pages (P.contents pages.old)
        slot (image_in old.now) (numbers_of roots.now)
        (P.contents pages.new)) }
    ensures sound { P.tells → (chains : List Chain) (chain : Chain) (count : ℕ) (d : Database)
        → CanUndo (P.shape pages.old).pages (P.contents pages.old) chains slot chain (suc count)
        (numbers_of roots.now) d → newest_of chain ≡ Some (image_in old.now)
        → IfErr result IsNoDamage }
    ensures later { IfErr result NamesLater }
{
    match root_of(roots, old.table) {
        Some(root) => put_and_pop(pages, slot, root, old),
        None => Err(BROKEN),
    }
}

// The same of the newest entry of the slot.
fn take_newest<P: Pages>(pages: &mut P, slot: u32, roots: &[PageNo]) -> Result<(), StoreFault>
    requires can { MayChange P.Pages 5 pages.old }
    requires slot { slot < undo_slots }
    requires roots { AreWithin (P.shape pages.old).pages roots.now }
    ensures kept { Continues P.Pages pages.old pages.new result }
    ensures begun { OnOk result ((P.mini pages.new).is_begun ≡ true) }
    ensures undone { P.tells → (count : ℕ) → OnOk result (Undoes (P.shape pages.old).pages
        (P.contents pages.old)
        slot (suc count) (numbers_of roots.now) (P.contents pages.new)) }
    ensures sound { P.tells → (count : ℕ) (chains : List Chain) (chain : Chain) (d : Database)
        → CanUndo (P.shape pages.old).pages (P.contents pages.old) chains slot chain (suc count)
        (numbers_of roots.now) d → IfErr result IsNoDamage }
    ensures later { IfErr result NamesLater }
{
    let mut old = NOTHING;
    let there = last(pages, slot, &mut old)?;
    if there {
        take_back(pages, slot, roots, &old)
    } else {
        Err(BROKEN)
    }
}

// The same in a mini-transaction of its own, which isn't finished yet.
fn begin_undo<P: Pages>(pages: &mut P, slot: u32, roots: &[PageNo]) -> Result<(), StoreFault>
    requires usable { P.usable pages.old ≡ true }
    requires none { (P.mini pages.old).is_begun ≡ false }
    requires slot { slot < undo_slots }
    requires roots { AreWithin (P.shape pages.old).pages roots.now }
    ensures kept { Continues P.Pages pages.old pages.new result }
    ensures begun { OnOk result ((P.mini pages.new).is_begun ≡ true) }
    ensures undone { P.tells → (count : ℕ) → OnOk result (Undoes (P.shape pages.old).pages
        (P.contents pages.old)
        slot (suc count) (numbers_of roots.now) (P.contents pages.new)) }
    ensures sound { P.tells → (count : ℕ) (chains : List Chain) (chain : Chain) (d : Database)
        → CanUndo (P.shape pages.old).pages (P.contents pages.old) chains slot chain (suc count)
        (numbers_of roots.now) d → IfErr result IsNoDamage }
    ensures later { IfErr result NamesLater }
{
    pages.begin();
    take_newest(pages, slot, roots)?;
    Ok(())
}

// The same, finished.
fn undo_pages<P: Pages>(pages: &mut P, slot: u32, roots: &[PageNo]) -> Result<(), StoreFault>
    requires usable { P.usable pages.old ≡ true }
    requires none { (P.mini pages.old).is_begun ≡ false }
    requires slot { slot < undo_slots }
    requires roots { AreWithin (P.shape pages.old).pages roots.now }
    ensures made { (count : ℕ) → MakesWith FailsOnPages P.Pages (Undoes (P.shape pages.old).pages
        (P.contents pages.old) slot (suc count) (numbers_of roots.now)) pages.old pages.new
        result }
    ensures mini { OnOk result ((P.mini pages.new).is_begun ≡ false) }
    ensures undone { P.tells → (count : ℕ) → OnOk result (Undoes (P.shape pages.old).pages
        (P.contents pages.old)
        slot (suc count) (numbers_of roots.now) (P.contents pages.new)) }
    ensures sound { P.tells → (count : ℕ) (chains : List Chain) (chain : Chain) (d : Database)
        → CanUndo (P.shape pages.old).pages (P.contents pages.old) chains slot chain (suc count)
        (numbers_of roots.now) d → IfErr result IsNoDamage }
    ensures later { IfErr result NamesLater }
{
    match begin_undo(pages, slot, roots) {
        Ok(()) => pages.finish(),
        Err(fault) => Err(fault),
    }
}

impl Trx {
    /// Takes the newest change back, in one mini-transaction: what stood at its key stands in the
    /// slot again, or the row is marked where none stood, and the entry is gone from the session's
    /// undo chain. False exactly where nothing is left to take back. The roots are those of the
    /// tables' trees, in the order of their numbers. It takes no memory and no page.
    ///
    /// # Errors
    ///
    /// Disk; or Damaged, as of `last` and `pop` of isp_undo and of `rewrite` and `mark` of
    /// isp_clustered, or with page 1 and rule 10 where the chain has no entry or there is no root of
    /// its table. The transaction is as it was then.
    pub fn undo_one<P: Pages>(
        &mut self,
        pages: &mut P,
        roots: &[PageNo],
    ) -> Result<bool, StoreFault>
        requires usable { P.usable pages.old ≡ true }
        requires none { (P.mini pages.old).is_begun ≡ false }
        requires roots { AreWithin (P.shape pages.old).pages roots.now }
        ensures made { MakesWith FailsOnPages P.Pages (Undoes (P.shape pages.old).pages (P.contents
            pages.old)
            self.old.session self.old.count (numbers_of roots.now)) pages.old pages.new result }
        ensures mini { OnOk result ((P.mini pages.new).is_begun ≡ false) }
        ensures undone { P.tells → OnOk result (Undoes (P.shape pages.old).pages (P.contents
            pages.old)
            self.old.session self.old.count (numbers_of roots.now) (P.contents pages.new)) }
        ensures noted { OnOk result (HasUndone self.old self.new) }
        ensures failed { IfErr result (λ fault. self.new ≡ self.old) }
        ensures more { IfOk result (λ more. more ≡ nat_lt 0 self.old.count) }
        ensures session { self.new.session ≡ self.old.session }
        ensures sound { P.tells → (chains : List Chain) (chain : Chain) (d : Database)
            → CanUndo (P.shape pages.old).pages (P.contents pages.old) chains self.old.session chain
            self.old.count (numbers_of roots.now) d → IfErr result IsNoDamage }
        ensures later { IfErr result NamesLater }
    {
        if self.undo_count() == 0 {
            Ok(false)
        } else {
            match undo_pages(pages, self.session(), roots) {
                Ok(()) => {
                    self.forget_one();
                    Ok(true)
                }
                Err(fault) => Err(fault),
            }
        }
    }
}
