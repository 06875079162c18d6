//! A transaction ends.
ghost use Rattle.std.specs.Prelude.{◌≡◌, ◌<◌, ℕ, List, true, false, IfErr, OnOk};
ghost use Rattle.isp_format.specs.Undo.{undo_slots};
ghost use Rattle.isp_undo.specs.Chains.{Chain};
ghost use Rattle.isp_image.specs.Databases.{Database};
ghost use Rattle.isp_image.specs.Faults.{NamesLater};
ghost use Rattle.isp_page.specs.Calls.{Continues, MakesWith};
ghost use Rattle.isp_page.specs.Steps.{FailsOnPages, IsNoDamage, LeavesAlone};
ghost use Rattle.isp_trx.specs.Transactions.{HasCommitted};
ghost use Rattle.isp_trx.specs.Writes.{CanCommit, Commits};

use crate::trx::Trx;
use isp_page::{Pages, StoreFault};
use isp_undo::finish;

// Finishes the chain of a slot in a mini-transaction of its own, which isn't finished yet.
fn begin_commit<P: Pages>(pages: &mut P, slot: u32) -> Result<(), StoreFault>
    requires usable { P.usable pages.old ≡ true }
    requires none { (P.mini pages.old).is_begun ≡ false }
    requires slot { slot < undo_slots }
    ensures kept { Continues P.Pages pages.old pages.new result }
    ensures begun { OnOk result ((P.mini pages.new).is_begun ≡ true) }
    ensures commits { P.tells → OnOk result (Commits (P.shape pages.old).pages (P.contents
        pages.old)
        slot (P.contents pages.new)) }
    ensures sound { P.tells → (chains : List Chain) (chain : Chain) (d : Database)
        → CanCommit (P.shape pages.old).pages (P.contents pages.old) chains slot chain d
        → IfErr result IsNoDamage }
    ensures later { IfErr result NamesLater }
{
    pages.begin();
    finish(pages, slot)?;
    Ok(())
}

// The same, finished.
fn commit_pages<P: Pages>(pages: &mut P, slot: u32) -> Result<(), StoreFault>
    requires usable { P.usable pages.old ≡ true }
    requires none { (P.mini pages.old).is_begun ≡ false }
    requires slot { slot < undo_slots }
    ensures made { MakesWith FailsOnPages P.Pages (Commits (P.shape pages.old).pages (P.contents
        pages.old) slot) pages.old pages.new result }
    ensures mini { OnOk result ((P.mini pages.new).is_begun ≡ false) }
    ensures commits { P.tells → OnOk result (Commits (P.shape pages.old).pages (P.contents
        pages.old)
        slot (P.contents pages.new)) }
    ensures sound { P.tells → (chains : List Chain) (chain : Chain) (d : Database)
        → CanCommit (P.shape pages.old).pages (P.contents pages.old) chains slot chain d
        → IfErr result IsNoDamage }
    ensures later { IfErr result NamesLater }
{
    match begin_commit(pages, slot) {
        Ok(()) => pages.finish(),
        Err(fault) => Err(fault),
    }
}

// The same, flushed.
fn commit_for_good<P: Pages>(pages: &mut P, slot: u32) -> Result<(), StoreFault>
    requires usable { P.usable pages.old ≡ true }
    requires none { (P.mini pages.old).is_begun ≡ false }
    requires slot { slot < undo_slots }
    ensures made { MakesWith FailsOnPages P.Pages (Commits (P.shape pages.old).pages (P.contents
        pages.old) slot) pages.old pages.new result }
    ensures flushed { P.tells → OnOk result (LeavesAlone (P.contents pages.new) (P.may_leave
        pages.new)) }
    ensures mini { OnOk result ((P.mini pages.new).is_begun ≡ false) }
    ensures commits { P.tells → OnOk result (Commits (P.shape pages.old).pages (P.contents
        pages.old)
        slot (P.contents pages.new)) }
    ensures sound { P.tells → (chains : List Chain) (chain : Chain) (d : Database)
        → CanCommit (P.shape pages.old).pages (P.contents pages.old) chains slot chain d
        → IfErr result IsNoDamage }
    ensures later { IfErr result NamesLater }
{
    match commit_pages(pages, slot) {
        Ok(()) => pages.flush(),
        Err(fault) => Err(fault),
    }
}

impl Trx {
    /// Makes its changes the committed ones, for good: the undo chain of the session's slot is
    /// finished, in one mini-transaction, and that flushed, so that a stop leaves what is there now
    /// and nothing else. It takes no memory and no page, and tells nothing.
    ///
    /// # Errors
    ///
    /// Disk; or Damaged, as of `finish` of isp_undo. The transaction is as it was then.
    pub fn commit<P: Pages>(&mut self, pages: &mut P) -> Result<(), StoreFault>
        requires usable { P.usable pages.old ≡ true }
        requires none { (P.mini pages.old).is_begun ≡ false }
        ensures made { MakesWith FailsOnPages P.Pages (Commits (P.shape pages.old).pages (P.contents
            pages.old)
            self.old.session) pages.old pages.new result }
        ensures flushed { P.tells → OnOk result (LeavesAlone (P.contents pages.new) (P.may_leave
            pages.new)) }
        ensures mini { OnOk result ((P.mini pages.new).is_begun ≡ false) }
        ensures commits { P.tells → OnOk result (Commits (P.shape pages.old).pages (P.contents
            pages.old)
            self.old.session (P.contents pages.new)) }
        ensures ended { OnOk result (HasCommitted self.old self.new) }
        ensures failed { IfErr result (λ fault. self.new ≡ self.old) }
        ensures session { self.new.session ≡ self.old.session }
        ensures sound { P.tells → (chains : List Chain) (chain : Chain) (d : Database)
            → CanCommit (P.shape pages.old).pages (P.contents pages.old) chains self.old.session
            chain d → IfErr result IsNoDamage }
        ensures later { IfErr result NamesLater }
    {
        match commit_for_good(pages, self.session()) {
            Ok(()) => {
                self.forget_all();
                Ok(())
            }
            Err(fault) => Err(fault),
        }
    }
}
