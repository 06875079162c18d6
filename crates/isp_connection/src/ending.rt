//! A transaction ends.

ghost use Rattle.std.specs.Prelude.{◌≡◌, List, true, false, IfErr, OnOk};
ghost use Rattle.isp_catalog.specs.declared.table.TableDef.{TableDef};
ghost use Rattle.isp_tables.specs.Calls.{Keeps, Serves};
ghost use Rattle.isp_image.specs.Databases.{Database, tables_of};
ghost use Rattle.isp_page.specs.Steps.{IsNoDamageOrLacks};
ghost use Rattle.isp_serial.specs.Alone.{State, rolled_back, settled};
ghost use Rattle.isp_connection.specs.Answering.{Comes, ComesTidy, Settles};
ghost use Rattle.isp_tables.specs.Opened.{IsOpen};
ghost use Rattle.isp_connection.specs.Connections.{Holds, state_of};
ghost use Rattle.isp_image.specs.Faults.{NamesLaterOrLacks};

use crate::connection::Connection;
use crate::running::run;
use isp_exec::Work;
use isp_page::{Fault, Pages};
use isp_plain::Statement;
use isp_trx::{Trx, drop_marked_rows, rising};
use std::mem;

// Makes what was done the committed tables, for good, where no transaction is open.
pub(crate) fn settle<P: Pages>(pages: &mut P, trx: &mut Trx, inside: bool) -> Result<(), Fault>
    requires usable { P.usable pages.old ≡ true }
    requires none { (P.mini pages.old).is_begun ≡ false }
    ensures kept { Keeps P.Pages pages.old pages.new result }
    ensures mini { OnOk result ((P.mini pages.new).is_begun ≡ false) }
    ensures session { trx.new.session ≡ trx.old.session }
    ensures settled { P.tells → (defs : List TableDef) (d : Database)
        → IsOpen P.Pages pages.old defs trx.old d
        → OnOk result (Settles P.Pages pages.new defs trx.new inside d) }
    ensures sound { P.tells → (defs : List TableDef) (d : Database)
        → IsOpen P.Pages pages.old defs trx.old d → IfErr result IsNoDamageOrLacks }
    ensures later { IfErr result NamesLaterOrLacks }
{
    if inside {
        return Ok(());
    }
    trx.commit(pages)?;
    Ok(())
}

impl<P: Pages> Connection<P> {
    // Makes what was done the committed tables, for good, and ends the transaction.
    pub(crate) fn commit(&mut self) -> Result<(), Fault>
        requires serves { Serves P.Pages self.old.context.pages self.old.context.tables }
        ensures kept { Keeps P.Pages self.old.context.pages self.new.context.pages result }
        ensures serves { OnOk result (Serves P.Pages self.new.context.pages
            self.new.context.tables) }
        ensures session { OnOk result (self.new.context.trx.session
            ≡ self.old.context.trx.session) }
        ensures done { P.tells → (d : Database)
            → IsOpen P.Pages self.old.context.pages self.old.context.tables self.old.context.trx d
            → OnOk result (Comes P.Pages self.new.context.pages (state_of self.new)
            (settled (tables_of d)) d) }
        ensures sound { P.tells → (d : Database)
            → IsOpen P.Pages self.old.context.pages self.old.context.tables self.old.context.trx d
            → IfErr result IsNoDamageOrLacks }
        ensures later { IfErr result NamesLaterOrLacks }
    {
        settle(&mut self.context.pages, &mut self.context.trx, false)?;
        self.inside = false;
        Ok(())
    }

    /// Takes back what was done in the open transaction, if one is open, and ends it: a ROLLBACK is stepped until it is ready.
    ///
    /// # Errors
    ///
    /// Disk; want of memory; or Damaged, where the pages aren't those of a kept file.
    pub fn roll_back(&mut self) -> Result<(), Fault>
        requires serves { Serves P.Pages self.old.context.pages self.old.context.tables }
        ensures kept { Keeps P.Pages self.old.context.pages self.new.context.pages result }
        ensures serves { OnOk result (Serves P.Pages self.new.context.pages
            self.new.context.tables) }
        ensures session { OnOk result (self.new.context.trx.session
            ≡ self.old.context.trx.session) }
        ensures back { P.tells → (d : Database) (state : State)
            → Holds P.Pages self.old.context.pages (state_of self.old) state d
            → OnOk result (Comes P.Pages self.new.context.pages (state_of self.new)
            (rolled_back state) d) }
        ensures sound { P.tells → (d : Database) (state : State)
            → Holds P.Pages self.old.context.pages (state_of self.old) state d
            → IfErr result IsNoDamageOrLacks }
        ensures later { IfErr result NamesLaterOrLacks }
    {
        let work = Work::start(self.alloc, &self.context, Statement::Rollback);
        let _reply = run(&mut self.context, work)?;
        self.commit()?;
        Ok(())
    }

    /// Takes out the rows that are marked, where no transaction is open; where one is, nothing happens.
    ///
    /// # Errors
    ///
    /// Disk; want of memory; or Damaged, where the pages aren't those of a kept file.
    pub fn sweep(&mut self) -> Result<(), Fault>
        requires serves { Serves P.Pages self.old.context.pages self.old.context.tables }
        ensures kept { Keeps P.Pages self.old.context.pages self.new.context.pages result }
        ensures serves { OnOk result (Serves P.Pages self.new.context.pages
            self.new.context.tables) }
        ensures session { OnOk result (self.new.context.trx.session
            ≡ self.old.context.trx.session) }
        ensures swept { P.tells → (d : Database) (state : State)
            → Holds P.Pages self.old.context.pages (state_of self.old) state d
            → OnOk result (ComesTidy P.Pages self.new.context.pages (state_of self.new) state d) }
        ensures sound { P.tells → (d : Database) (state : State)
            → Holds P.Pages self.old.context.pages (state_of self.old) state d
            → IfErr result IsNoDamageOrLacks }
        ensures later { IfErr result NamesLaterOrLacks }
    {
        if self.inside {
            return Ok(());
        }
        let fresh = Trx::begin(self.alloc, self.context.trx.session());
        let ended = mem::replace(&mut self.context.trx, fresh);
        let keys = rising(ended.end());
        drop_marked_rows(
            self.alloc,
            &mut self.context.pages,
            self.context.tables.roots(),
            keys.as_slice(),
        )?;
        Ok(())
    }
}
