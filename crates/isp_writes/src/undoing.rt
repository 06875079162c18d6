//! A change is taken back.

ghost use Rattle.std.specs.Prelude.{◌≡◌, nat_lt, IfErr, OnOk};
ghost use Rattle.isp_image.specs.Databases.{Database};
ghost use Rattle.isp_image.specs.Faults.{NamesLaterOrLacks};
ghost use Rattle.isp_page.specs.Steps.{IsNoDamageOrLacks};
ghost use Rattle.isp_tables.specs.Calls.{IsOfStore, Keeps, Serves};
ghost use Rattle.isp_tables.specs.Opened.{IsOpen};
ghost use Rattle.isp_writes.specs.Writing.{UndidOrNot, fewer};

use isp_page::{Fault, Pages};
use isp_tables::Tables;
use isp_trx::Trx;

/// Takes the newest change of a transaction back, where more than so many are noted.
///
/// # Errors
///
/// As of `undo_one` of isp_trx: memory is never wanted.
pub fn undo_newest<P: Pages>(
    pages: &mut P,
    tables: &Tables,
    trx: &mut Trx,
    base: usize,
) -> Result<(), Fault>
    requires serves { Serves P.Pages pages.old tables.now }
    ensures kept { Keeps P.Pages pages.old pages.new result }
    ensures serves { OnOk result (Serves P.Pages pages.new tables.now) }
    ensures notes { OnOk result (trx.new.count ≡ fewer base trx.old.count) }
    ensures undone { P.tells → (d : Database) → IsOpen P.Pages pages.old tables.now trx.old d
        → OnOk result (UndidOrNot P.Pages pages.new tables.now trx.new (nat_lt base trx.old.count) d) }
    ensures session { trx.new.session ≡ trx.old.session }
    ensures sound { P.tells → (d : Database) → IsOpen P.Pages pages.old tables.now trx.old d
        → IfErr result IsNoDamageOrLacks }
    ensures later { IfErr result NamesLaterOrLacks }
    ensures store { IfErr result IsOfStore }
{
    if base < trx.undo_count() {
        let _more = trx.undo_one(pages, tables.roots())?;
    }
    Ok(())
}
