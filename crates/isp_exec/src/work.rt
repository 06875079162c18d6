//! A statement as a value: how it begins, and its steps.

ghost use Rattle.std.specs.Prelude.{◌≡◌, true, false, IfErr, IfOk, OnOk};
ghost use Rattle.isp_image.specs.Databases.{Database};
ghost use Rattle.isp_image.specs.Faults.{NamesLaterOrLacks};
ghost use Rattle.isp_clustered.specs.Calls.{Lacks};
ghost use Rattle.isp_page.specs.Steps.{IsNoDamageOrLacks};
ghost use Rattle.isp_plain.specs.Lined.{is_lined_statement};
ghost use Rattle.isp_tables.specs.Calls.{Keeps, Serves};
ghost use Rattle.isp_tables.specs.Opened.{IsOpen};
ghost use Rattle.isp_exec.specs.Events.{Begins, Falls, Goes, IsFlushedAt, RollsBack};
ghost use Rattle.isp_exec.specs.Standing.{IsAt, IsFit};
ghost use Rattle.isp_exec.specs.Starting.{Suits, place_by};
ghost use Rattle.isp_work.specs.Works.{is_rollback};
ghost use Rattle.isp_work.specs.declared.phase.Phase.TheVariants as phase;

use crate::context::Context;
use crate::step::Step;
use crate::stepping::step;
use isp_page::{Fault, Pages};
use isp_plain::Statement;
use isp_tables::Tables;
use isp_work::Progress;
use std::alloc::Global;

/// A statement on its way to its answer.
#[derive(Drop)]
pub struct Work {
    alloc: Global,
    progress: Progress,
}

// The place of the table that the statement is on.
fn place_for(tables: &Tables, statement: &Statement) -> Option<usize>
    ensures { result ≡ place_by tables.now statement.now }
{
    match statement {
        Statement::Insert { table, .. } => tables.place_of(table),
        Statement::Select { table, .. } => tables.place_of(table),
        Statement::Update { table, .. } => tables.place_of(table),
        Statement::Delete { table, .. } => tables.place_of(table),
        _ => None,
    }
}

impl Work {
    /// A statement that is bound to the tables of the context, of which nothing is done yet. It takes no memory, and reads no page.
    pub fn start<P: Pages>(alloc: Global, context: &Context<P>, statement: Statement) -> Work
        ensures statement { result.progress.statement ≡ statement }
        ensures fit { Suits context.now.tables statement
            → IsFit (P.shape context.now.pages).pages context.now.tables result.progress }
        ensures begins { P.tells → (d : Database)
            → IsOpen P.Pages context.now.pages context.now.tables context.now.trx d
            → Suits context.now.tables statement → is_lined_statement statement ≡ true
            → is_rollback statement ≡ false → Begins P.Pages context.now.pages context.now.tables
            context.now.trx d result.progress }
        ensures rolls { is_rollback statement ≡ true → result.progress.phase ≡ phase.RollingBack }
    {
        let place = place_for(&context.tables, &statement);
        let budget = context.pages.pages().saturating_sub(1);
        let progress = Progress::start(alloc, statement, place, context.trx.undo_count(), budget);
        Work { alloc, progress }
    }

    /// Does one event of the statement. COMMIT and BEGIN are ready at once; ending the transaction is the caller's. A ROLLBACK takes
    /// the changes of the whole transaction back, one a step. CREATE is one step, and flushed. The answer is handed out once.
    ///
    /// # Errors
    ///
    /// Disk; want of memory, which leaves the contents as they were; or Damaged, where the pages aren't those of a kept file.
    pub fn step<P: Pages>(&mut self, context: &mut Context<P>) -> Result<Step, Fault>
        requires serves { Serves P.Pages context.old.pages context.old.tables }
        requires fit { IsFit (P.shape context.old.pages).pages context.old.tables
            self.old.progress }
        ensures kept { Keeps P.Pages context.old.pages context.new.pages result }
        ensures serves { OnOk result (Serves P.Pages context.new.pages context.new.tables) }
        ensures fit { OnOk result (IsFit (P.shape context.new.pages).pages context.new.tables
            self.new.progress) }
        ensures falls { IfOk result (Falls self.old.progress context.old.trx self.new.progress
            context.new.trx) }
        ensures statement { OnOk result (self.new.progress.statement
            ≡ self.old.progress.statement) }
        ensures goes { P.tells → (start : Database)
            → (at : IsAt P.Pages context.old.pages context.old.tables context.old.trx start
            self.old.progress)
            → IfOk result (Goes P.Pages at context.new.pages context.new.tables context.new.trx
            self.new.progress) }
        ensures rolls { P.tells → (d : Database)
            → IsOpen P.Pages context.old.pages context.old.tables context.old.trx d
            → self.old.progress.phase ≡ phase.RollingBack
            → IfOk result (RollsBack P.Pages context.new.pages context.new.tables context.new.trx
            self.new.progress d) }
        ensures flushed { P.tells → self.old.progress.phase ≡ phase.Creating
            → IfOk result (IsFlushedAt P.Pages context.new.pages) }
        ensures session { context.new.trx.session ≡ context.old.trx.session }
        ensures lacks { P.tells → Lacks result (P.contents context.new.pages
            ≡ P.contents context.old.pages) }
        ensures sound { P.tells → (start : Database)
            → IsAt P.Pages context.old.pages context.old.tables context.old.trx start
            self.old.progress → IfErr result IsNoDamageOrLacks }
        ensures back { P.tells → (d : Database)
            → IsOpen P.Pages context.old.pages context.old.tables context.old.trx d
            → self.old.progress.phase ≡ phase.RollingBack → IfErr result IsNoDamageOrLacks }
        ensures later { IfErr result NamesLaterOrLacks }
    {
        step(
            self.alloc,
            &mut context.pages,
            &mut context.tables,
            &mut context.trx,
            &mut self.progress,
        )
    }
}
