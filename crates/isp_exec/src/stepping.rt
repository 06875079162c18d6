//! One step of a statement, by its phase.

ghost use Rattle.std.specs.Prelude.{◌≡◌, true, false, IfErr, IfOk, OnOk, if◌then◌else◌};
ghost use Rattle.isp_clustered.specs.Calls.{Lacks};
ghost use Rattle.isp_exec.specs.Events.{CountsBack, Falls, Goes, IsFlushedAt, RollsBack, TakesBack, event_by, refusal_in, refusal_of_change, refusal_of_look};
ghost use Rattle.isp_exec.specs.Standing.{IsAt, IsChanging, IsFit, IsLooking, IsReading};
ghost use Rattle.isp_image.specs.Databases.{Database};
ghost use Rattle.isp_image.specs.Faults.{NamesLaterOrLacks};
ghost use Rattle.isp_page.specs.Steps.{IsNoDamageOrLacks};
ghost use Rattle.isp_plain.specs.Refusals.{number};
ghost use Rattle.isp_plain.specs.declared.refusal.Refusal.TheVariants.{FileFull};
ghost use Rattle.isp_plain.specs.declared.statement.Reply.TheVariants as reply;
ghost use Rattle.isp_tables.specs.Calls.{Keeps, Serves};
ghost use Rattle.isp_tables.specs.Creations.{IsCreatable};
ghost use Rattle.isp_tables.specs.Opened.{IsOpen};
ghost use Rattle.isp_work.specs.Works.{is_ready};
ghost use Rattle.isp_work.specs.declared.phase.Phase.TheVariants as phase;
ghost use Rattle.isp_exec.specs.declared.step.Step.TheVariants.{Failing, Ready};

use crate::changing::change_next;
use crate::reading::{look_next, read_next};
use crate::step::Step;
use isp_page::{Fault, Pages};
use isp_plain::{Refusal, Reply};
use isp_tables::{Tables, create};
use isp_trx::Trx;
use isp_work::{Changed, Found, Looked, Phase, Progress};
use isp_writes::undo_newest;
use std::alloc::Global;

// What is answered where a statement fails so, or goes on.
fn event_by(refusal: Option<Refusal>) -> Step
    ensures { result ≡ event_by refusal }
{
    match refusal {
        Some(refusal) => Step::Failing {
            number: refusal.number(),
        },
        None => Step::Event,
    }
}

fn refusal_in(found: &Found) -> Option<Refusal>
    ensures { result ≡ refusal_in found.now }
{
    match found {
        Found::TooLarge => Some(Refusal::RowTooLarge),
        Found::Rows(_) => None,
    }
}

fn refusal_of_look(looked: Looked) -> Option<Refusal>
    ensures { result ≡ refusal_of_look looked }
{
    match looked {
        Looked::Taken(refusal) => Some(refusal),
        Looked::Over | Looked::Free => None,
    }
}

fn refusal_of_change(changed: Changed) -> Option<Refusal>
    ensures { result ≡ refusal_of_change changed }
{
    match changed {
        Changed::Full => Some(Refusal::FileFull),
        Changed::Over | Changed::Done => None,
    }
}

// The answer of a CREATE, unless it has something to take back.
fn hand_out(work: &mut Progress) -> Step
    ensures result { result ≡ (if is_ready work.old.phase then Ready work.old.reply
        else Failing (number FileFull)) }
    ensures rest { work.new ≡ (if is_ready work.old.phase then record work.old { reply = reply.Ok }
        else work.old) }
{
    if work.is_ready() {
        Step::Ready(work.answer())
    } else {
        Step::Failing {
            number: Refusal::FileFull.number(),
        }
    }
}

// Makes the table of CREATE.
fn step_creating<P: Pages>(
    alloc: Global,
    pages: &mut P,
    tables: &mut Tables,
    trx: &Trx,
    work: &mut Progress,
) -> Result<Step, Fault>
    requires serves { Serves P.Pages pages.old tables.old }
    requires phase { work.old.phase ≡ phase.Creating }
    requires fit { IsCreatable tables.old work.old.statement }
    ensures kept { Keeps P.Pages pages.old pages.new result }
    ensures serves { OnOk result (Serves P.Pages pages.new tables.new) }
    ensures fit { OnOk result (IsFit (P.shape pages.new).pages tables.new work.new) }
    ensures falls { IfOk result (Falls work.old trx.now work.new trx.now) }
    ensures statement { OnOk result (work.new.statement ≡ work.old.statement) }
    ensures goes { P.tells → (start : Database)
        → (at : IsAt P.Pages pages.old tables.old trx.now start work.old)
        → IfOk result (Goes P.Pages at pages.new tables.new trx.now work.new) }
    ensures flushed { P.tells → IfOk result (IsFlushedAt P.Pages pages.new) }
    ensures sound { P.tells → (start : Database)
        → IsAt P.Pages pages.old tables.old trx.now start work.old
        → IfErr result IsNoDamageOrLacks }
    ensures lacks { P.tells → Lacks result (P.contents pages.new ≡ P.contents pages.old) }
    ensures later { IfErr result NamesLaterOrLacks }
{
    let made = create(alloc, pages, tables, work.statement())?;
    work.make_on(made, trx.undo_count());
    Ok(hand_out(work))
}

// Reads the next leaf, or the row of its key.
fn step_reading<P: Pages>(
    alloc: Global,
    pages: &mut P,
    tables: &Tables,
    trx: &Trx,
    work: &mut Progress,
) -> Result<Step, Fault>
    requires serves { Serves P.Pages pages.old tables.now }
    requires phase { work.old.phase ≡ phase.Reading }
    requires fit { IsReading (P.shape pages.old).pages tables.now work.old }
    ensures kept { Keeps P.Pages pages.old pages.new result }
    ensures serves { OnOk result (Serves P.Pages pages.new tables.now) }
    ensures fit { OnOk result (IsFit (P.shape pages.new).pages tables.now work.new) }
    ensures falls { IfOk result (Falls work.old trx.now work.new trx.now) }
    ensures statement { OnOk result (work.new.statement ≡ work.old.statement) }
    ensures goes { P.tells → (start : Database)
        → (at : IsAt P.Pages pages.old tables.now trx.now start work.old)
        → IfOk result (Goes P.Pages at pages.new tables.now trx.now work.new) }
    ensures sound { P.tells → (start : Database)
        → IsAt P.Pages pages.old tables.now trx.now start work.old
        → IfErr result IsNoDamageOrLacks }
    ensures lacks { P.tells → Lacks result (P.contents pages.new ≡ P.contents pages.old) }
    ensures later { IfErr result NamesLaterOrLacks }
{
    let leaf = read_next(alloc, pages, tables, work)?;
    let refusal = refusal_in(&leaf.found);
    work.take(alloc, leaf.found, leaf.next, trx.undo_count())?;
    Ok(event_by(refusal))
}

// Looks its next key up.
fn step_looking<P: Pages>(
    alloc: Global,
    pages: &mut P,
    tables: &Tables,
    trx: &Trx,
    work: &mut Progress,
) -> Result<Step, Fault>
    requires serves { Serves P.Pages pages.old tables.now }
    requires phase { work.old.phase ≡ phase.Looking }
    requires fit { IsLooking tables.now work.old }
    ensures kept { Keeps P.Pages pages.old pages.new result }
    ensures serves { OnOk result (Serves P.Pages pages.new tables.now) }
    ensures fit { OnOk result (IsFit (P.shape pages.new).pages tables.now work.new) }
    ensures falls { IfOk result (Falls work.old trx.now work.new trx.now) }
    ensures statement { OnOk result (work.new.statement ≡ work.old.statement) }
    ensures goes { P.tells → (start : Database)
        → (at : IsAt P.Pages pages.old tables.now trx.now start work.old)
        → IfOk result (Goes P.Pages at pages.new tables.now trx.now work.new) }
    ensures sound { P.tells → (start : Database)
        → IsAt P.Pages pages.old tables.now trx.now start work.old
        → IfErr result IsNoDamageOrLacks }
    ensures lacks { P.tells → Lacks result (P.contents pages.new ≡ P.contents pages.old) }
    ensures later { IfErr result NamesLaterOrLacks }
{
    let looked = look_next(alloc, pages, tables, work)?;
    work.look_on(looked, trx.undo_count());
    Ok(event_by(refusal_of_look(looked)))
}

// Writes its next row.
fn step_changing<P: Pages>(
    alloc: Global,
    pages: &mut P,
    tables: &Tables,
    trx: &mut Trx,
    work: &mut Progress,
) -> Result<Step, Fault>
    requires serves { Serves P.Pages pages.old tables.now }
    requires phase { work.old.phase ≡ phase.Changing }
    requires fit { IsChanging tables.now work.old }
    ensures kept { Keeps P.Pages pages.old pages.new result }
    ensures serves { OnOk result (Serves P.Pages pages.new tables.now) }
    ensures fit { OnOk result (IsFit (P.shape pages.new).pages tables.now work.new) }
    ensures falls { IfOk result (Falls work.old trx.old work.new trx.new) }
    ensures statement { OnOk result (work.new.statement ≡ work.old.statement) }
    ensures goes { P.tells → (start : Database)
        → (at : IsAt P.Pages pages.old tables.now trx.old start work.old)
        → IfOk result (Goes P.Pages at pages.new tables.now trx.new work.new) }
    ensures session { trx.new.session ≡ trx.old.session }
    ensures sound { P.tells → (start : Database)
        → IsAt P.Pages pages.old tables.now trx.old start work.old
        → IfErr result IsNoDamageOrLacks }
    ensures lacks { P.tells → Lacks result (P.contents pages.new ≡ P.contents pages.old) }
    ensures later { IfErr result NamesLaterOrLacks }
{
    let changed = change_next(alloc, pages, tables, trx, work)?;
    work.change_on(changed, trx.undo_count());
    Ok(event_by(refusal_of_change(changed)))
}

// Takes its newest change back.
fn step_undoing<P: Pages>(
    pages: &mut P,
    tables: &Tables,
    trx: &mut Trx,
    work: &mut Progress,
    refusal: Refusal,
) -> Result<Step, Fault>
    requires serves { Serves P.Pages pages.old tables.now }
    requires phase { work.old.phase ≡ phase.Undoing refusal }
    ensures kept { Keeps P.Pages pages.old pages.new result }
    ensures serves { OnOk result (Serves P.Pages pages.new tables.now) }
    ensures fit { OnOk result (IsFit (P.shape pages.new).pages tables.now work.new) }
    ensures falls { IfOk result (Falls work.old trx.old work.new trx.new) }
    ensures statement { OnOk result (work.new.statement ≡ work.old.statement) }
    ensures goes { P.tells → (start : Database)
        → (at : IsAt P.Pages pages.old tables.now trx.old start work.old)
        → IfOk result (Goes P.Pages at pages.new tables.now trx.new work.new) }
    ensures session { trx.new.session ≡ trx.old.session }
    ensures sound { P.tells → (start : Database)
        → IsAt P.Pages pages.old tables.now trx.old start work.old
        → IfErr result IsNoDamageOrLacks }
    ensures lacks { P.tells → Lacks result (P.contents pages.new ≡ P.contents pages.old) }
    ensures later { IfErr result NamesLaterOrLacks }
{
    undo_newest(pages, tables, trx, work.base())?;
    work.fail(refusal, trx.undo_count());
    Ok(Step::Event)
}

// Takes the newest change of the transaction back, if there is one.
fn step_rolling_back<P: Pages>(pages: &mut P, tables: &Tables, trx: &mut Trx) -> Result<Step, Fault>
    requires serves { Serves P.Pages pages.old tables.now }
    ensures kept { Keeps P.Pages pages.old pages.new result }
    ensures serves { OnOk result (Serves P.Pages pages.new tables.now) }
    ensures counts { IfOk result (CountsBack trx.old.count trx.new.count) }
    ensures rolls { P.tells → (d : Database) → IsOpen P.Pages pages.old tables.now trx.old d
        → IfOk result (TakesBack P.Pages pages.new tables.now trx.new d) }
    ensures session { trx.new.session ≡ trx.old.session }
    ensures back { P.tells → (d : Database) → IsOpen P.Pages pages.old tables.now trx.old d
        → IfErr result IsNoDamageOrLacks }
    ensures lacks { P.tells → Lacks result (P.contents pages.new ≡ P.contents pages.old) }
    ensures later { IfErr result NamesLaterOrLacks }
{
    if trx.undo_count() == 0 {
        return Ok(Step::Ready(Reply::Ok));
    }
    undo_newest(pages, tables, trx, 0)?;
    Ok(Step::Event)
}

/// Does the next step of a statement.
pub(crate) fn step<P: Pages>(
    alloc: Global,
    pages: &mut P,
    tables: &mut Tables,
    trx: &mut Trx,
    work: &mut Progress,
) -> Result<Step, Fault>
    requires serves { Serves P.Pages pages.old tables.old }
    requires fit { IsFit (P.shape pages.old).pages tables.old work.old }
    ensures kept { Keeps P.Pages pages.old pages.new result }
    ensures serves { OnOk result (Serves P.Pages pages.new tables.new) }
    ensures fit { OnOk result (IsFit (P.shape pages.new).pages tables.new work.new) }
    ensures falls { IfOk result (Falls work.old trx.old work.new trx.new) }
    ensures statement { OnOk result (work.new.statement ≡ work.old.statement) }
    ensures goes { P.tells → (start : Database)
        → (at : IsAt P.Pages pages.old tables.old trx.old start work.old)
        → IfOk result (Goes P.Pages at pages.new tables.new trx.new work.new) }
    ensures rolls { P.tells → (d : Database) → IsOpen P.Pages pages.old tables.old trx.old d
        → work.old.phase ≡ phase.RollingBack
        → IfOk result (RollsBack P.Pages pages.new tables.new trx.new work.new d) }
    ensures flushed { P.tells → work.old.phase ≡ phase.Creating
        → IfOk result (IsFlushedAt P.Pages pages.new) }
    ensures session { trx.new.session ≡ trx.old.session }
    ensures lacks { P.tells → Lacks result (P.contents pages.new ≡ P.contents pages.old) }
    ensures sound { P.tells → (start : Database)
        → IsAt P.Pages pages.old tables.old trx.old start work.old
        → IfErr result IsNoDamageOrLacks }
    ensures back { P.tells → (d : Database) → IsOpen P.Pages pages.old tables.old trx.old d
        → work.old.phase ≡ phase.RollingBack → IfErr result IsNoDamageOrLacks }
    ensures later { IfErr result NamesLaterOrLacks }
{
    match work.phase() {
        Phase::Creating => step_creating(alloc, pages, tables, trx, work),
        Phase::Reading => step_reading(alloc, pages, tables, trx, work),
        Phase::Looking => step_looking(alloc, pages, tables, trx, work),
        Phase::Changing => step_changing(alloc, pages, tables, trx, work),
        Phase::Undoing(refusal) => step_undoing(pages, tables, trx, work, refusal),
        Phase::RollingBack => step_rolling_back(pages, tables, trx),
        Phase::Ready => Ok(Step::Ready(work.answer())),
    }
}
