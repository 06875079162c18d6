//! A statement's text, stepped to its answer.
ghost use Rattle.std.specs.Prelude.{◌≡◌, true, false, IfOk, OnOk};
ghost use Rattle.isp_exec.specs.Standing.{IsFit};
ghost use Rattle.isp_tables.specs.Calls.{Serves};

use isp_exec::{Context, Step, Work};
use isp_page::{Fault, Pages};
use isp_plain::Reply;
use isp_plan::meaning_of;
use isp_serial::Place;
use isp_tables::Tables;
use isp_text::print_reply;
use isp_trx::Trx;
use std::alloc::{AllocError, Global};

/// What one step is.
#[derive(Clone, Copy)]
pub(crate) enum Kind {
    Event,
    /// It turns to taking back, with this number.
    Failing(u32),
}

/// A statement: where it stands, its text, in which `#` is 500 letters, its steps, and the text of its answer.
pub(crate) struct Act {
    pub place: Place,
    pub text: &'static [u8],
    pub steps: &'static [Kind],
    pub answer: &'static [u8],
}

fn is_kind(step: &Step, kind: Kind) -> bool {
    match (step, kind) {
        (Step::Event, Kind::Event) => true,
        (Step::Failing { number }, Kind::Failing(expected)) => *number == expected,
        _ => false,
    }
}

fn is_answer(alloc: Global, reply: &Reply, answer: &[u8]) -> Result<bool, AllocError> {
    let text = print_reply(alloc, reply)?;
    Ok(text.as_slice() == answer)
}

// Whether the next step is ready, with that answer.
fn is_ready<P: Pages>(
    alloc: Global,
    context: &mut Context<P>,
    work: &mut Work,
    answer: &[u8],
) -> Result<bool, Fault>
    requires serves { Serves P.Pages context.old.pages context.old.tables }
    requires fit { IsFit (P.shape context.old.pages).pages context.old.tables work.old.progress }
    ensures serves { OnOk result (Serves P.Pages context.new.pages context.new.tables) }
{
    match work.step(context)? {
        Step::Ready(reply) => {
            let same = is_answer(alloc, &reply, answer)?;
            Ok(same)
        }
        _ => Ok(false),
    }
}

// Whether the steps are these, and then the answer.
fn goes_by<P: Pages>(
    alloc: Global,
    context: &mut Context<P>,
    work: &mut Work,
    act: &Act,
) -> Result<bool, Fault>
    requires serves { Serves P.Pages context.old.pages context.old.tables }
    requires fit { IsFit (P.shape context.old.pages).pages context.old.tables work.old.progress }
    ensures serves { OnOk result (Serves P.Pages context.new.pages context.new.tables) }
{
    for kind in act.steps {
        let step = work.step(context)?;
        if !is_kind(&step, *kind) {
            return Ok(false);
        }
    }
    is_ready(alloc, context, work, act.answer)
}

// The text as it is read.
fn spelled(alloc: Global, text: &[u8]) -> Result<Vec<u8>, AllocError> {
    let mut out = Vec::new(alloc);
    for byte in text {
        if *byte == b'#' {
            out.extend_from_slice(&[b'x'; 500])?;
        } else {
            out.push(*byte)?;
        }
    }
    Ok(out)
}

/// Whether the statement goes so.
pub(crate) fn goes<P: Pages>(
    alloc: Global,
    context: &mut Context<P>,
    act: &Act,
) -> Result<bool, Fault>
    requires serves { Serves P.Pages context.old.pages context.old.tables }
    ensures serves { OnOk result (Serves P.Pages context.new.pages context.new.tables) }
{
    let text = spelled(alloc, act.text)?;
    let statement = meaning_of(alloc, context.tables.defs(), act.place, &text)?;
    let mut work = Work::start(alloc, context, statement);
    goes_by(alloc, context, &mut work, act)
}

/// The file's pages with its definitions, and a transaction in which nothing is done.
pub(crate) fn open<P: Pages + Drop>(alloc: Global, pages: P) -> Result<Context<P>, Fault>
    requires usable { P.usable pages ≡ true }
    requires none { (P.mini pages).is_begun ≡ false }
    ensures serves { IfOk result (λ c. Serves P.Pages c.pages c.tables) }
{
    let mut pages = pages;
    let tables = Tables::load(alloc, &mut pages)?;
    let trx = Trx::begin(alloc, 1);
    Ok(Context { pages, tables, trx })
}

/// Commits what the session has changed, and begins anew.
pub(crate) fn commit<P: Pages>(alloc: Global, context: &mut Context<P>) -> Result<(), Fault>
    requires serves { Serves P.Pages context.old.pages context.old.tables }
    ensures serves { OnOk result (Serves P.Pages context.new.pages context.new.tables) }
{
    context.trx.commit(&mut context.pages)?;
    context.trx = Trx::begin(alloc, 1);
    Ok(())
}
