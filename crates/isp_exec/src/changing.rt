//! What a step writes: the next row.

ghost use Rattle.std.specs.Prelude.{◌≡◌, ◌<◌, ℕ, List, slice_get, Some, true, false, IfErr, IfOk, OnOk};
ghost use Rattle.isp_catalog.specs.declared.table.TableDef.{TableDef};
ghost use Rattle.isp_clustered.specs.Calls.{Lacks};
ghost use Rattle.isp_exec.specs.Changing.{ChangeNotes, ChangesOrFull, IsNextWritable, IsNotEnd};
ghost use Rattle.isp_exec.specs.Standing.{IsChanging};
ghost use Rattle.isp_image.specs.Databases.{Database};
ghost use Rattle.isp_image.specs.Faults.{NamesLaterOrLacks};
ghost use Rattle.isp_page.specs.Steps.{IsNoDamageOrLacks};
ghost use Rattle.isp_scan.specs.Readings.{IsPutRow};
ghost use Rattle.isp_tables.specs.Calls.{Keeps, Serves};
ghost use Rattle.isp_tables.specs.Opened.{IsAtPlace, IsOpen, IsWritable};
ghost use Rattle.isp_work.specs.Works.{IsChangeOf, change_by, next_change};

use crate::reading::no_table;
use isp_catalog::TableDef;
use isp_page::{Fault, Pages};
use isp_plain::Row;
use isp_tables::Tables;
use isp_trx::Trx;
use isp_work::{Changed, Progress};
use isp_writes::write_row;
use std::alloc::Global;

// Writes a row, and says what became of it.
fn change_at<P: Pages>(
    alloc: Global,
    pages: &mut P,
    trx: &mut Trx,
    def: &TableDef,
    row: &Row,
    deletes: bool,
) -> Result<Changed, Fault>
    requires usable { P.usable pages.old ≡ true }
    requires none { (P.mini pages.old).is_begun ≡ false }
    requires page { def.now.root.0 < (P.shape pages.old).pages }
    requires row { deletes ≡ false → IsPutRow def.now.schema row.now }
    ensures kept { Keeps P.Pages pages.old pages.new result }
    ensures mini { OnOk result ((P.mini pages.new).is_begun ≡ false) }
    ensures there { IfOk result IsNotEnd }
    ensures notes { IfOk result (ChangeNotes trx.old trx.new) }
    ensures changed { P.tells → (defs : List TableDef) (d : Database) (place : ℕ)
        → IsOpen P.Pages pages.old defs trx.old d → IsAtPlace place def.now d
        → IsWritable deletes place row.now d
        → IfOk result (ChangesOrFull P.Pages pages.new defs trx.new (Some
        (change_by deletes place row.now)) d) }
    ensures session { trx.new.session ≡ trx.old.session }
    ensures sound { P.tells → (defs : List TableDef) (d : Database) (place : ℕ)
        → IsOpen P.Pages pages.old defs trx.old d → IsAtPlace place def.now d
        → IsWritable deletes place row.now d → IfErr result IsNoDamageOrLacks }
    ensures lacks { P.tells → Lacks result (P.contents pages.new ≡ P.contents pages.old) }
    ensures later { IfErr result NamesLaterOrLacks }
{
    if write_row(alloc, pages, trx, def, row, deletes)? {
        Ok(Changed::Done)
    } else {
        Ok(Changed::Full)
    }
}

/// Writes the next row.
pub(crate) fn change_next<P: Pages>(
    alloc: Global,
    pages: &mut P,
    tables: &Tables,
    trx: &mut Trx,
    work: &Progress,
) -> Result<Changed, Fault>
    requires serves { Serves P.Pages pages.old tables.now }
    requires changing { IsChanging tables.now work.now }
    ensures kept { Keeps P.Pages pages.old pages.new result }
    ensures mini { OnOk result ((P.mini pages.new).is_begun ≡ false) }
    ensures next { IfOk result (IsChangeOf work.now) }
    ensures notes { IfOk result (ChangeNotes trx.old trx.new) }
    ensures changed { P.tells → (d : Database) → IsOpen P.Pages pages.old tables.now trx.old d
        → IsNextWritable work.now d
        → IfOk result (ChangesOrFull P.Pages pages.new tables.now trx.new (next_change work.now)
        d) }
    ensures session { trx.new.session ≡ trx.old.session }
    ensures sound { P.tells → (d : Database) → IsOpen P.Pages pages.old tables.now trx.old d
        → IsNextWritable work.now d → IfErr result IsNoDamageOrLacks }
    ensures lacks { P.tells → Lacks result (P.contents pages.new ≡ P.contents pages.old) }
    ensures later { IfErr result NamesLaterOrLacks }
{
    match tables.get(work.place()) {
        Some(def) => match work.row() {
            Some(row) => change_at(alloc, pages, trx, def, row, work.deletes()),
            None => Ok(Changed::Over),
        },
        None => Err(no_table()),
    }
}
