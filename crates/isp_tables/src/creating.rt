//! CREATE TABLE.

ghost use Rattle.std.specs.Prelude.{◌≡◌, IfErr, IfOk, OnErr, OnOk};
ghost use Rattle.isp_clustered.specs.Calls.{Lacks};
ghost use Rattle.isp_image.specs.Databases.{Database};
ghost use Rattle.isp_image.specs.Faults.{NamesLaterOrLacks};
ghost use Rattle.isp_page.specs.Steps.{IsNoDamageOrLacks, LeavesAlone};
ghost use Rattle.isp_trx.specs.Transactions.{TrxState};
ghost use Rattle.isp_tables.specs.Calls.{IsFlushedIf, Keeps, Serves};
ghost use Rattle.isp_tables.specs.Creations.{CreatesOrFull, DidCreate, HasRoom, IsCreatable, IsNewDefinition, MakesOrFull};
ghost use Rattle.isp_tables.specs.Opened.{IsOpen};

use crate::tables::Tables;
use isp_base::{Duplicate, Name, PageNo};
use isp_catalog::TableDef;
use isp_page::{Fault, Pages};
use isp_plain::{Schema, Statement};
use isp_space::has_room;
use std::alloc::Global;

// Makes the table and its definition, for good. All memory is taken before a page is changed.
fn make_table<P: Pages>(
    alloc: Global,
    pages: &mut P,
    tables: &mut Tables,
    name: &Name,
    schema: &Schema,
) -> Result<(), Fault>
    requires serves { Serves P.Pages pages.old tables.old }
    requires new { IsNewDefinition tables.old name.now schema.now }
    ensures kept { Keeps P.Pages pages.old pages.new result }
    ensures serves { OnOk result (Serves P.Pages pages.new tables.new) }
    ensures failed { OnErr result (tables.new ≡ tables.old) }
    ensures lacks { P.tells → Lacks result (P.contents pages.new ≡ P.contents pages.old) }
    ensures flushed { P.tells → OnOk result (LeavesAlone (P.contents pages.new) (P.may_leave
        pages.new)) }
    ensures created { P.tells → (trx : TrxState) (d : Database)
        → IsOpen P.Pages pages.old tables.old trx d → HasRoom P.Pages pages.old d
        → OnOk result (DidCreate P.Pages pages.new tables.new trx name.now schema.now d) }
    ensures sound { P.tells → (trx : TrxState) (d : Database)
        → IsOpen P.Pages pages.old tables.old trx d → HasRoom P.Pages pages.old d
        → IfErr result IsNoDamageOrLacks }
    ensures later { IfErr result NamesLaterOrLacks }
{
    let name = name.copy(alloc)?;
    let schema = schema.copy(alloc)?;
    let def = TableDef {
        number: tables.next_number(),
        name,
        schema,
        root: PageNo(0),
        trees: [PageNo(0), PageNo(0)],
    };
    let _root = tables.make(pages, def)?;
    Ok(())
}

// The same, or false where there is no room: then nothing is changed.
fn make_or_refuse<P: Pages>(
    alloc: Global,
    pages: &mut P,
    tables: &mut Tables,
    name: &Name,
    schema: &Schema,
) -> Result<bool, Fault>
    requires serves { Serves P.Pages pages.old tables.old }
    requires new { IsNewDefinition tables.old name.now schema.now }
    ensures kept { Keeps P.Pages pages.old pages.new result }
    ensures serves { OnOk result (Serves P.Pages pages.new tables.new) }
    ensures failed { OnErr result (tables.new ≡ tables.old) }
    ensures lacks { P.tells → Lacks result (P.contents pages.new ≡ P.contents pages.old) }
    ensures flushed { P.tells → IfOk result (IsFlushedIf P.Pages pages.new) }
    ensures created { P.tells → (trx : TrxState) (d : Database)
        → IsOpen P.Pages pages.old tables.old trx d
        → IfOk result (CreatesOrFull P.Pages pages.new tables.new trx name.now schema.now d) }
    ensures sound { P.tells → (trx : TrxState) (d : Database)
        → IsOpen P.Pages pages.old tables.old trx d → IfErr result IsNoDamageOrLacks }
    ensures later { IfErr result NamesLaterOrLacks }
{
    if !has_room(pages)? {
        return Ok(false);
    }
    make_table(alloc, pages, tables, name, schema)?;
    Ok(true)
}

/// Makes the table of a CREATE TABLE in one mini-transaction, and flushes it. False where the file has no room: then nothing is
/// changed.
///
/// # Errors
///
/// Disk; want of memory, which leaves the contents as they were; or Damaged, as of `create_table` of isp_creating. The tables are
/// as they were then.
pub fn create<P: Pages>(
    alloc: Global,
    pages: &mut P,
    tables: &mut Tables,
    statement: &Statement,
) -> Result<bool, Fault>
    requires serves { Serves P.Pages pages.old tables.old }
    requires new { IsCreatable tables.old statement.now }
    ensures kept { Keeps P.Pages pages.old pages.new result }
    ensures serves { OnOk result (Serves P.Pages pages.new tables.new) }
    ensures failed { OnErr result (tables.new ≡ tables.old) }
    ensures lacks { P.tells → Lacks result (P.contents pages.new ≡ P.contents pages.old) }
    ensures flushed { P.tells → IfOk result (IsFlushedIf P.Pages pages.new) }
    ensures created { P.tells → (trx : TrxState) (d : Database)
        → IsOpen P.Pages pages.old tables.old trx d
        → IfOk result (MakesOrFull P.Pages pages.new tables.new trx statement.now d) }
    ensures sound { P.tells → (trx : TrxState) (d : Database)
        → IsOpen P.Pages pages.old tables.old trx d → IfErr result IsNoDamageOrLacks }
    ensures later { IfErr result NamesLaterOrLacks }
{
    match statement {
        Statement::Create { name, schema } => make_or_refuse(alloc, pages, tables, name, schema),
        _ => Ok(true),
    }
}
