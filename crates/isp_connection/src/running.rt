//! A statement is stepped until it is ready.

ghost use Rattle.std.specs.Prelude.{◌≡◌, IfErr, IfOk, OnOk};
ghost use Rattle.isp_image.specs.Databases.{Database};
ghost use Rattle.isp_image.specs.Faults.{NamesLaterOrLacks};
ghost use Rattle.isp_page.specs.Steps.{IsNoDamageOrLacks};
ghost use Rattle.isp_connection.specs.Answering.{GoesBack, IsDone};
ghost use Rattle.isp_exec.specs.Standing.{IsAt, IsFit};
ghost use Rattle.isp_tables.specs.Calls.{Keeps, Serves};
ghost use Rattle.isp_tables.specs.Opened.{IsOpen};
ghost use Rattle.isp_work.specs.declared.phase.Phase.TheVariants as phase;

use isp_exec::{Context, Step, Work};
use isp_page::{Fault, Pages};
use isp_plain::Reply;

// Steps the statement until it is ready, and gives its answer. What it did is not committed.
pub(crate) fn run<P: Pages>(context: &mut Context<P>, work: Work) -> Result<Reply, Fault>
    requires serves { Serves P.Pages context.old.pages context.old.tables }
    requires fit { IsFit (P.shape context.old.pages).pages context.old.tables work.progress }
    ensures kept { Keeps P.Pages context.old.pages context.new.pages result }
    ensures serves { OnOk result (Serves P.Pages context.new.pages context.new.tables) }
    ensures session { OnOk result (context.new.trx.session ≡ context.old.trx.session) }
    ensures done { P.tells → (d : Database)
        → IsAt P.Pages context.old.pages context.old.tables context.old.trx d work.progress
        → IfOk result (IsDone P.Pages context.new.pages context.new.tables context.new.trx
        work.progress.statement d) }
    ensures back { P.tells → (d : Database)
        → IsOpen P.Pages context.old.pages context.old.tables context.old.trx d
        → work.progress.phase ≡ phase.RollingBack
        → OnOk result (GoesBack P.Pages context.new.pages context.new.tables context.new.trx d) }
    ensures sound { P.tells → (d : Database)
        → IsAt P.Pages context.old.pages context.old.tables context.old.trx d work.progress
        → IfErr result IsNoDamageOrLacks }
    ensures sound_back { P.tells → (d : Database)
        → IsOpen P.Pages context.old.pages context.old.tables context.old.trx d
        → work.progress.phase ≡ phase.RollingBack → IfErr result IsNoDamageOrLacks }
    ensures later { IfErr result NamesLaterOrLacks }
{
    let mut work = work;
    'steps: loop {
        match work.step(context)? {
            Step::Event => {}
            Step::Failing { number: _ } => {}
            Step::Ready(reply) => return Ok(reply),
        }
    }
}
