//! Calls of a transaction on rows of the table, as plain data.
ghost use Rattle.std.specs.Prelude.{◌≡◌, ◌≤◌, ◌<◌, true, false, length, IfSome, OnOk};
ghost use Rattle.isp_format.specs.Leaf.{most_slot};
ghost use Rattle.isp_format.specs.Undo.{undo_slots};
ghost use Rattle.isp_trx_tests.specs.Ready.{IsReady};

use isp_clustered::{Kept, create, get};
use isp_format::PageNo;
use isp_page::{Fault, Pages, StoreFault};
use isp_space::has_room;
use isp_trx::{RowKey, Trx, drop_marked_rows, rising};
use std::alloc::Global;
use std::mem;

/// A call on the row of a key. A row is so many bytes, all of them one.
#[derive(Clone, Copy)]
pub(crate) enum Act {
    /// Writes a row at a key: its byte, and how many.
    Write(u8, u8, u16),
    /// Writes the row of a key as it stands, marked.
    Delete(u8),
    Undo,
    UndoAll,
    Commit,
    /// Ends the transaction, whose marked rows go, and begins the next one of its session.
    End,
}

/// The root of the table.
pub(crate) const ROOT: PageNo = PageNo(16);

/// What is answered where an act can't be done: no rule has this number.
pub(crate) const REFUSED: StoreFault = StoreFault::Damaged { page: 0, rule: 0 };

// A key of the table.
fn at(key: u8) -> RowKey {
    RowKey {
        table: 1,
        key: i64::from(key),
    }
}

// So many of the bytes, or all of them.
fn front(bytes: &[u8], len: u16) -> &[u8] {
    match bytes.get(..usize::from(len)) {
        Some(front) => front,
        None => bytes,
    }
}

// Whether what stands at a key may be noted.
fn is_short(old: &Option<Kept>) -> bool
    ensures { result ≡ true → IfSome old.now (λ kept. length kept.row ≤ most_slot) }
{
    match old {
        Some(kept) => kept.row.as_slice().len() <= 1_000,
        None => true,
    }
}

// Writes a row, where there is room.
fn write<P: Pages>(
    alloc: Global,
    pages: &mut P,
    trx: &mut Trx,
    at: RowKey,
    row: &[u8],
    marked: bool,
) -> Result<(), Fault>
    requires { IsReady P.Pages pages.old }
    ensures { OnOk result (IsReady P.Pages pages.new) }
{
    if row.len() > 1_000 {
        return Err(Fault::Store(REFUSED));
    }
    trx.reserve(1)?;
    let room = has_room(pages)?;
    let old = get(alloc, pages, ROOT, at.key)?;
    if room {
        if is_short(&old) {
            trx.write_row(pages, ROOT, at, &old, row, marked)?;
            return Ok(());
        }
    }
    Err(Fault::Store(REFUSED))
}

// Writes the row as it stands, marked.
fn delete<P: Pages>(alloc: Global, pages: &mut P, trx: &mut Trx, at: RowKey) -> Result<(), Fault>
    requires { IsReady P.Pages pages.old }
    ensures { OnOk result (IsReady P.Pages pages.new) }
{
    match get(alloc, pages, ROOT, at.key)? {
        Some(kept) => {
            write(alloc, pages, trx, at, kept.row.as_slice(), true)?;
            Ok(())
        }
        None => Err(Fault::Store(REFUSED)),
    }
}

// Takes the newest change back, if there is one, as the call has to say.
fn undo<P: Pages>(pages: &mut P, trx: &mut Trx) -> Result<(), StoreFault>
    requires { IsReady P.Pages pages.old }
    ensures { OnOk result (IsReady P.Pages pages.new) }
{
    let count = trx.undo_count();
    let more = trx.undo_one(pages, &[ROOT])?;
    if more == (count > 0) {
        Ok(())
    } else {
        Err(REFUSED)
    }
}

// Takes all changes back.
fn undo_all<P: Pages>(pages: &mut P, trx: &mut Trx) -> Result<(), StoreFault>
    requires { IsReady P.Pages pages.old }
    ensures { OnOk result (IsReady P.Pages pages.new) }
{
    for _ in 0..trx.undo_count() {
        undo(pages, trx)?;
    }
    Ok(())
}

// Ends the transaction, takes the marked rows of its keys out, and begins the next one.
fn end<P: Pages>(alloc: Global, pages: &mut P, trx: &mut Trx) -> Result<(), Fault>
    requires { IsReady P.Pages pages.old }
    ensures { OnOk result (IsReady P.Pages pages.new) }
{
    let next = Trx::begin(alloc, trx.session());
    let keys = rising(mem::replace(trx, next).end());
    drop_marked_rows(alloc, pages, &[ROOT], keys.as_slice())?;
    Ok(())
}

/// Does the act.
pub(crate) fn do_one<P: Pages>(
    alloc: Global,
    pages: &mut P,
    trx: &mut Trx,
    act: Act,
) -> Result<(), Fault>
    requires { IsReady P.Pages pages.old }
    ensures { OnOk result (IsReady P.Pages pages.new) }
{
    match act {
        Act::Write(key, byte, len) => {
            let row = [byte; 1_000];
            write(alloc, pages, trx, at(key), front(&row, len), false)?;
        }
        Act::Delete(key) => delete(alloc, pages, trx, at(key))?,
        Act::Undo => undo(pages, trx)?,
        Act::UndoAll => undo_all(pages, trx)?,
        Act::Commit => trx.commit(pages)?,
        Act::End => end(alloc, pages, trx)?,
    }
    Ok(())
}

/// Does these acts in a transaction of that session; how many changes it can take back then.
pub(crate) fn run<P: Pages>(
    alloc: Global,
    pages: &mut P,
    session: u32,
    acts: &[Act],
) -> Result<usize, Fault>
    requires session { session < undo_slots }
    requires ready { IsReady P.Pages pages.old }
    ensures { OnOk result (IsReady P.Pages pages.new) }
{
    let mut trx = Trx::begin(alloc, session);
    for act in acts {
        do_one(alloc, pages, &mut trx, *act)?;
    }
    Ok(trx.undo_count())
}

/// Makes the tree of table 1.
pub(crate) fn make<P: Pages>(pages: &mut P) -> Result<(), StoreFault>
    requires usable { P.usable pages.old ≡ true }
    requires none { (P.mini pages.old).is_begun ≡ false }
    ensures { OnOk result (IsReady P.Pages pages.new) }
{
    pages.begin();
    let root = create(pages, 1)?;
    pages.finish()?;
    if root != ROOT {
        return Err(REFUSED);
    }
    if pages.pages() < 24 {
        return Err(REFUSED);
    }
    Ok(())
}
