//! A row is written.

ghost use Rattle.std.specs.Prelude.{◌≡◌, ◌≤◌, ◌<◌, ℕ, List, true, false, length, Some, IfErr, IfOk, IfSome, OnOk};
ghost use Rattle.isp_catalog.specs.declared.table.TableDef.{TableDef};
ghost use Rattle.isp_clustered.specs.Calls.{Lacks};
ghost use Rattle.isp_clustered.specs.declared.kept.Kept.{Kept};
ghost use Rattle.isp_format.specs.Leaf.{most_slot};
ghost use Rattle.isp_undo.specs.Chains.{Chain};
ghost use Rattle.isp_image.specs.Databases.{Database, FileTable};
ghost use Rattle.isp_image.specs.Faults.{NamesLaterOrLacks};
ghost use Rattle.isp_page.specs.Steps.{IsNoDamageOrLacks};
ghost use Rattle.isp_plain.specs.RowBytes.{row_limit};
ghost use Rattle.isp_plain.specs.declared.value.Row.{Row};
ghost use Rattle.isp_trx.specs.Transactions.{SameTrx};
ghost use Rattle.isp_trx.specs.Writes.{write_at};
ghost use Rattle.isp_tables.specs.Calls.{IsOfStore, Keeps};
ghost use Rattle.isp_tables.specs.Opened.{IsAtPlace, IsOpen, IsWritable};
ghost use Rattle.isp_work.specs.Works.{change_by};
ghost use Rattle.isp_scan.specs.Readings.{IsPutRow};
ghost use Rattle.isp_writes.specs.Writing.{IsBytesOf, IsCopyOf, MayWrite, Notes, WritesOrFull, WroteOrFull, is_short};

use isp_base::{Bytes, PageNo};
use isp_catalog::TableDef;
use isp_clustered::{Kept, get};
use isp_format::{MOST_SLOT, ROWS_RULE, TREE_RULE};
use isp_page::{Fault, Pages, StoreFault};
use isp_plain::{Row, Schema};
use isp_scan::{key_of, spell};
use isp_space::has_room;
use isp_trx::{RowKey, Trx};
use std::alloc::{AllocError, Global};

// Whether what stands there, if anything does, has no more bytes than a row may have.
fn is_short(old: &Option<Kept>) -> bool
    ensures { result ≡ is_short old.now }
{
    match old {
        Some(kept) => kept.row.as_slice().len() <= MOST_SLOT,
        None => true,
    }
}

// A copy of the bytes that stand there, unless there are none.
fn kept_bytes(alloc: Global, old: &Option<Kept>) -> Result<Option<Bytes>, AllocError>
    requires few { IfSome old.now (λ kept. length kept.row ≤ most_slot) }
    ensures short { IfOk result (λ found. IfSome found (λ bytes. length bytes ≤ row_limit)) }
    ensures same { IfOk result (IsCopyOf old.now) }
{
    match old {
        Some(kept) => {
            let bytes = Bytes::from_slice(alloc, kept.row.as_slice())?;
            Ok(Some(bytes))
        }
        None => Ok(None),
    }
}

// The bytes that are written for a row: those that it spells, or where it is deleted those that stand there.
fn bytes_for(
    alloc: Global,
    schema: &Schema,
    row: &Row,
    deletes: bool,
    old: &Option<Kept>,
) -> Result<Option<Bytes>, AllocError>
    requires row { deletes ≡ false → IsPutRow schema.now row.now }
    requires few { IfSome old.now (λ kept. length kept.row ≤ most_slot) }
    ensures short { IfOk result (λ found. IfSome found (λ bytes. length bytes ≤ row_limit)) }
    ensures bytes { IfOk result (IsBytesOf schema.now row.now deletes old.now) }
{
    if deletes {
        return kept_bytes(alloc, old);
    }
    let bytes = spell(alloc, schema, row)?;
    Ok(Some(bytes))
}

// Writes the bytes, or answers false where there is no room, and changes nothing.
fn write_bytes<P: Pages>(
    pages: &mut P,
    trx: &mut Trx,
    root: PageNo,
    at: RowKey,
    old: &Option<Kept>,
    bytes: &[u8],
    deletes: bool,
) -> Result<bool, Fault>
    requires usable { P.usable pages.old ≡ true }
    requires none { (P.mini pages.old).is_begun ≡ false }
    requires page { root.0 < (P.shape pages.old).pages }
    requires size { length bytes.now ≤ row_limit }
    requires short { IfSome old.now (λ kept. length kept.row ≤ most_slot) }
    requires spare { 1 ≤ trx.old.spare }
    ensures kept { Keeps P.Pages pages.old pages.new result }
    ensures mini { OnOk result ((P.mini pages.new).is_begun ≡ false) }
    ensures notes { IfOk result (Notes trx.old trx.new) }
    ensures wrote { P.tells → (chains : List Chain) (chain : Chain) (d : Database) (t : FileTable) (r : Row)
        → MayWrite (P.shape pages.old).pages (P.contents pages.old) chains trx.old.session chain
        (write_at at root.0 old.now bytes.now deletes) d t r
        → IfOk result (WroteOrFull (P.shape pages.old).pages (P.contents pages.old)
        (P.contents pages.new) chains chain trx.old trx.new
        (write_at at root.0 old.now bytes.now deletes) d t r) }
    ensures session { trx.new.session ≡ trx.old.session }
    ensures sound { P.tells → (chains : List Chain) (chain : Chain) (d : Database) (t : FileTable) (r : Row)
        → MayWrite (P.shape pages.old).pages (P.contents pages.old) chains trx.old.session chain
        (write_at at root.0 old.now bytes.now deletes) d t r → IfErr result IsNoDamageOrLacks }
    ensures later { IfErr result NamesLaterOrLacks }
    ensures failed { IfErr result (λ fault. trx.new ≡ trx.old) }
    ensures store { IfErr result IsOfStore }
{
    if !has_room(pages)? {
        return Ok(false);
    }
    trx.write_row(pages, root, at, old, bytes, deletes)?;
    Ok(true)
}

/// Writes a row at its key, or marks the row that stands there as deleted; what stood there is noted. False where the file has no
/// room for the change: then nothing is changed.
///
/// # Errors
///
/// Disk; want of memory, which leaves the contents as they were; or Damaged, as of the calls of isp_clustered, isp_space and isp_undo,
/// or with the table's root: rule 8 where what stands at the key has more bytes than a row may have, rule 7 where the row to be deleted
/// isn't there. Nothing is written then, and nothing noted.
pub fn write_row<P: Pages>(
    alloc: Global,
    pages: &mut P,
    trx: &mut Trx,
    def: &TableDef,
    row: &Row,
    deletes: bool,
) -> Result<bool, Fault>
    requires usable { P.usable pages.old ≡ true }
    requires none { (P.mini pages.old).is_begun ≡ false }
    requires page { def.now.root.0 < (P.shape pages.old).pages }
    requires row { deletes ≡ false → IsPutRow def.now.schema row.now }
    ensures kept { Keeps P.Pages pages.old pages.new result }
    ensures mini { OnOk result ((P.mini pages.new).is_begun ≡ false) }
    ensures notes { IfOk result (Notes trx.old trx.new) }
    ensures wrote { P.tells → (defs : List TableDef) (d : Database) (place : ℕ)
        → IsOpen P.Pages pages.old defs trx.old d → IsAtPlace place def.now d
        → IsWritable deletes place row.now d
        → IfOk result (WritesOrFull P.Pages pages.new defs trx.new
        (change_by deletes place row.now) d) }
    ensures session { trx.new.session ≡ trx.old.session }
    ensures sound { P.tells → (defs : List TableDef) (d : Database) (place : ℕ)
        → IsOpen P.Pages pages.old defs trx.old d → IsAtPlace place def.now d
        → IsWritable deletes place row.now d → IfErr result IsNoDamageOrLacks }
    ensures later { IfErr result NamesLaterOrLacks }
    ensures failed { IfErr result (λ fault. SameTrx trx.old trx.new) }
    ensures lacks { P.tells → Lacks result (P.contents pages.new ≡ P.contents pages.old) }
{
    trx.reserve(1)?;
    let key = key_of(row);
    let old = get(alloc, pages, def.root, key)?;
    if !is_short(&old) {
        return Err(Fault::Store(StoreFault::Damaged {
            page: def.root.0,
            rule: ROWS_RULE,
        }));
    }
    let at = RowKey {
        table: def.number,
        key,
    };
    match bytes_for(alloc, &def.schema, row, deletes, &old)? {
        Some(bytes) => write_bytes(pages, trx, def.root, at, &old, bytes.as_slice(), deletes),
        None => Err(Fault::Store(StoreFault::Damaged {
            page: def.root.0,
            rule: TREE_RULE,
        })),
    }
}
