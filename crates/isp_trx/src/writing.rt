//! A row is written.
ghost use Rattle.std.specs.Prelude.{◌≡◌, ◌≤◌, ◌<◌, ℕ, List, true, false, length, IfErr, IfSome, OnOk};
ghost use Rattle.isp_space.specs.Changes.{MayChange};
ghost use Rattle.isp_space.specs.Spaces.{Space};
ghost use Rattle.isp_clustered.specs.Puts.{most_put};
ghost use Rattle.isp_clustered.specs.Trees.{Tree};
ghost use Rattle.isp_format.specs.Leaf.{most_slot};
ghost use Rattle.isp_format.specs.Undo.{Slot as Ends, undo_slots};
ghost use Rattle.isp_undo.specs.Calls.{CanPushIn};
ghost use Rattle.isp_undo.specs.Chains.{Chain};
ghost use Rattle.isp_image.specs.Databases.{Database, FileTable};
ghost use Rattle.isp_image.specs.Faults.{NamesLater};
ghost use Rattle.isp_page.specs.Calls.{Continues, MakesWith};
ghost use Rattle.isp_page.specs.Steps.{FailsOnPages, IsNoDamage};
ghost use Rattle.isp_plain.specs.declared.value.Row.{Row};
ghost use Rattle.isp_trx.specs.Noting.{CanWriteTree, PushesOld, WritesTree, is_smaller, write_at};
ghost use Rattle.isp_trx.specs.Transactions.{HasNoted, old_image};
ghost use Rattle.isp_trx.specs.Writes.{CanWrite, Writes};

use crate::images::entry_of;
use crate::keys::RowKey;
use crate::trx::Trx;
use isp_clustered::{Kept, put, rewrite};
use isp_format::PageNo;
use isp_page::{Pages, StoreFault};
use isp_undo::push;

// Whether a row of so many bytes has to be put, since its key isn't there or has a smaller slot.
fn is_put(old: &Option<Kept>, size: usize) -> bool
    ensures { result ≡ is_smaller size old.now }
{
    match old {
        Some(kept) => usize::from(kept.slot) < size,
        None => true,
    }
}

// Begins a mini-transaction, and puts what stands at a key onto the chain of a slot.
fn push_old<P: Pages>(
    pages: &mut P,
    slot: u32,
    at: RowKey,
    old: &Option<Kept>,
) -> Result<(), StoreFault>
    requires usable { P.usable pages.old ≡ true }
    requires none { (P.mini pages.old).is_begun ≡ false }
    requires slot { slot < undo_slots }
    requires short { IfSome old.now (λ kept. length kept.row ≤ most_slot) }
    ensures kept { Continues P.Pages pages.old pages.new result }
    ensures room { OnOk result (MayChange P.Pages most_put pages.new) }
    ensures pushed { P.tells → OnOk result (PushesOld (P.shape pages.old).pages (P.contents
        pages.old) slot
        (old_image at old.now) (P.contents pages.new)) }
    ensures sound { P.tells → (slots : List Ends) (chain : Chain) (s : Space)
        → CanPushIn P.Pages pages.old slots slot chain s (old_image at old.now)
        → IfErr result IsNoDamage }
    ensures later { IfErr result NamesLater }
{
    let entry = entry_of(at, old);
    pages.begin();
    push(pages, slot, &entry)?;
    Ok(())
}

// Puts the row, or writes it into the slot of its key.
fn write_tree<P: Pages>(
    pages: &mut P,
    root: PageNo,
    at: RowKey,
    old: &Option<Kept>,
    row: &[u8],
    marked: bool,
) -> Result<(), StoreFault>
    requires can { MayChange P.Pages most_put pages.old }
    requires page { root.0 < (P.shape pages.old).pages }
    requires row { length row.now ≤ most_slot }
    ensures kept { Continues P.Pages pages.old pages.new result }
    ensures begun { OnOk result ((P.mini pages.new).is_begun ≡ true) }
    ensures written { P.tells → OnOk result (WritesTree (P.shape pages.old).pages (P.contents
        pages.old)
        (write_at at root.0 old.now row.now marked) (P.contents pages.new)) }
    ensures sound { P.tells → (table : ℕ) (tree : Tree) (s : Space)
        → CanWriteTree (P.shape pages.old).pages (P.contents pages.old)
        (write_at at root.0 old.now row.now marked) table tree s → IfErr result IsNoDamage }
    ensures later { IfErr result NamesLater }
{
    if is_put(old, row.len()) {
        put(pages, root, at.key, row)
    } else {
        rewrite(pages, root, at.key, row, marked)
    }
}

// Both in a mini-transaction of their own, which isn't finished yet.
fn begin_write<P: Pages>(
    pages: &mut P,
    slot: u32,
    root: PageNo,
    at: RowKey,
    old: &Option<Kept>,
    row: &[u8],
    marked: bool,
) -> Result<(), StoreFault>
    requires usable { P.usable pages.old ≡ true }
    requires none { (P.mini pages.old).is_begun ≡ false }
    requires slot { slot < undo_slots }
    requires page { root.0 < (P.shape pages.old).pages }
    requires row { length row.now ≤ most_slot }
    requires short { IfSome old.now (λ kept. length kept.row ≤ most_slot) }
    ensures kept { Continues P.Pages pages.old pages.new result }
    ensures begun { OnOk result ((P.mini pages.new).is_begun ≡ true) }
    ensures written { P.tells → OnOk result (Writes (P.shape pages.old).pages (P.contents
        pages.old) slot
        (write_at at root.0 old.now row.now marked) (P.contents pages.new)) }
    ensures sound { P.tells → (chains : List Chain) (chain : Chain) (d : Database) (t : FileTable) (r : Row)
        → CanWrite (P.shape pages.old).pages (P.contents pages.old) chains slot chain
        (write_at at root.0 old.now row.now marked) d t r → IfErr result IsNoDamage }
    ensures later { IfErr result NamesLater }
{
    push_old(pages, slot, at, old)?;
    write_tree(pages, root, at, old, row, marked)?;
    Ok(())
}

// The same, finished.
fn write_pages<P: Pages>(
    pages: &mut P,
    slot: u32,
    root: PageNo,
    at: RowKey,
    old: &Option<Kept>,
    row: &[u8],
    marked: bool,
) -> Result<(), StoreFault>
    requires usable { P.usable pages.old ≡ true }
    requires none { (P.mini pages.old).is_begun ≡ false }
    requires slot { slot < undo_slots }
    requires page { root.0 < (P.shape pages.old).pages }
    requires row { length row.now ≤ most_slot }
    requires short { IfSome old.now (λ kept. length kept.row ≤ most_slot) }
    ensures made { MakesWith FailsOnPages P.Pages (Writes (P.shape pages.old).pages (P.contents
        pages.old) slot
        (write_at at root.0 old.now row.now marked)) pages.old pages.new result }
    ensures mini { OnOk result ((P.mini pages.new).is_begun ≡ false) }
    ensures written { P.tells → OnOk result (Writes (P.shape pages.old).pages (P.contents
        pages.old) slot
        (write_at at root.0 old.now row.now marked) (P.contents pages.new)) }
    ensures sound { P.tells → (chains : List Chain) (chain : Chain) (d : Database) (t : FileTable) (r : Row)
        → CanWrite (P.shape pages.old).pages (P.contents pages.old) chains slot chain
        (write_at at root.0 old.now row.now marked) d t r → IfErr result IsNoDamage }
    ensures later { IfErr result NamesLater }
{
    match begin_write(pages, slot, root, at, old, row, marked) {
        Ok(()) => pages.finish(),
        Err(fault) => Err(fault),
    }
}

impl Trx {
    /// Writes a row at a key of a table, whose tree has that root, and what stands there as the newest entry of the session's
    /// undo chain, both in one mini-transaction: the entry goes first; the row is put where the key isn't there or its slot is
    /// smaller, and is then not to be marked; else it is written into the slot, with this mark. It takes no memory, at most one
    /// page for the entry and those of `put`. A row is deleted by writing it as it stands, marked.
    ///
    /// # Errors
    ///
    /// Disk; or Damaged, as of `push` of isp_undo and of `put` and `rewrite` of isp_clustered. The transaction is as it was then.
    pub fn write_row<P: Pages>(
        &mut self,
        pages: &mut P,
        root: PageNo,
        at: RowKey,
        old: &Option<Kept>,
        row: &[u8],
        marked: bool,
    ) -> Result<(), StoreFault>
        requires usable { P.usable pages.old ≡ true }
        requires none { (P.mini pages.old).is_begun ≡ false }
        requires page { root.0 < (P.shape pages.old).pages }
        requires row { length row.now ≤ most_slot }
        requires short { IfSome old.now (λ kept. length kept.row ≤ most_slot) }
        requires spare { 1 ≤ self.old.spare }
        ensures made { MakesWith FailsOnPages P.Pages (Writes (P.shape pages.old).pages (P.contents
            pages.old)
            self.old.session (write_at at root.0 old.now row.now marked)) pages.old pages.new result }
        ensures mini { OnOk result ((P.mini pages.new).is_begun ≡ false) }
        ensures written { P.tells → OnOk result (Writes (P.shape pages.old).pages (P.contents
            pages.old)
            self.old.session (write_at at root.0 old.now row.now marked) (P.contents pages.new)) }
        ensures noted { OnOk result (HasNoted at self.old self.new) }
        ensures failed { IfErr result (λ fault. self.new ≡ self.old) }
        ensures session { self.new.session ≡ self.old.session }
        ensures sound { P.tells → (chains : List Chain) (chain : Chain) (d : Database) (t : FileTable) (r : Row)
            → CanWrite (P.shape pages.old).pages (P.contents pages.old) chains self.old.session chain
            (write_at at root.0 old.now row.now marked) d t r → IfErr result IsNoDamage }
        ensures later { IfErr result NamesLater }
    {
        match write_pages(pages, self.session(), root, at, old, row, marked) {
            Ok(()) => {
                self.note(at);
                Ok(())
            }
            Err(fault) => Err(fault),
        }
    }
}
