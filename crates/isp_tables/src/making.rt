//! A table's tree and its definition are made.

ghost use Rattle.std.specs.Prelude.{◌≡◌, ◌<◌, List, false, true, IfErr, OnOk};
ghost use Rattle.isp_undo.specs.Chains.{Chain};
ghost use Rattle.isp_creating.specs.Creating.{CanCreate, Created, MayDefine, with_root};
ghost use Rattle.isp_image.specs.Databases.{Database};
ghost use Rattle.isp_image.specs.Faults.{NamesLater};
ghost use Rattle.isp_page.specs.Steps.{IsNoDamage, LeavesAlone};
ghost use Rattle.isp_tables.specs.Calls.{KeepsOnPages};

use isp_catalog::TableDef;
use isp_creating::create_table;
use isp_page::{Pages, StoreFault};

/// Makes a table of this definition in one mini-transaction, and flushes it. It takes no memory.
///
/// # Errors
///
/// Disk; or Damaged, as of `create_table` of isp_creating.
pub(crate) fn make_for_good<P: Pages>(pages: &mut P, def: &mut TableDef) -> Result<(), StoreFault>
    requires usable { P.usable pages.old ≡ true }
    requires none { (P.mini pages.old).is_begun ≡ false }
    requires may { MayDefine def.old }
    ensures kept { KeepsOnPages P.Pages pages.old pages.new result }
    ensures flushed { P.tells → OnOk result (LeavesAlone (P.contents pages.new) (P.may_leave
        pages.new)) }
    ensures mini { OnOk result ((P.mini pages.new).is_begun ≡ false) }
    ensures def { def.new ≡ with_root def.new.root def.old }
    ensures inside { OnOk result (def.new.root.0 < (P.shape pages.old).pages) }
    ensures created { P.tells → (chains : List Chain) (d : Database) → CanCreate (P.shape pages.old).pages
        (P.contents pages.old) chains def.old.number def.old.name d
        → OnOk result (Created (P.shape pages.old).pages (P.contents pages.new) chains def.new d) }
    ensures sound { P.tells → (chains : List Chain) (d : Database) → CanCreate (P.shape pages.old).pages
        (P.contents pages.old) chains def.old.number def.old.name d → IfErr result IsNoDamage }
    ensures later { IfErr result NamesLater }
{
    create_table(pages, def)?;
    pages.flush()?;
    Ok(())
}
