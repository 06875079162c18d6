//! How a statement begins.

ghost use Rattle.std.specs.Prelude.{◌≡◌};
ghost use Rattle.isp_work.specs.Starting.{began, start_at, start_of};

use crate::phase::Phase;
use crate::progress::{Progress, is_insert};
use isp_plain::{Refusal, Reply, Statement};
use std::alloc::Global;

// A statement on the table at a place.
fn began(alloc: Global, statement: Statement, place: usize, base: usize, budget: u32) -> Progress
    ensures { result ≡ began statement place base budget }
{
    let inserts = is_insert(&statement);
    let mut work = Progress::new(
        alloc,
        statement,
        place,
        base,
        budget,
        Phase::Reading,
        Reply::Ok,
    );
    if inserts {
        work.go_on();
    }
    work
}

// A statement on a table, if it is there.
fn start_at(
    alloc: Global,
    statement: Statement,
    base: usize,
    budget: u32,
    place: Option<usize>,
) -> Progress
    ensures { result ≡ start_at statement base budget place }
{
    match place {
        Some(place) => began(alloc, statement, place, base, budget),
        None => {
            let reply = Reply::Err(Refusal::NoSuchTable);
            Progress::new(alloc, statement, 0, base, budget, Phase::Ready, reply)
        }
    }
}

impl Progress {
    /// A statement of which nothing is done yet, on the table at that place, if it is on one; so many changes are noted before it, and
    /// behind the first leaf of its table it may read so many more. It takes no memory.
    pub fn start(
        alloc: Global,
        statement: Statement,
        place: Option<usize>,
        base: usize,
        budget: u32,
    ) -> Progress
        ensures { result ≡ start_of statement base budget place }
    {
        match &statement {
            Statement::Create { .. } => {
                Progress::new(
                    alloc,
                    statement,
                    0,
                    base,
                    budget,
                    Phase::Creating,
                    Reply::Ok,
                )
            }
            Statement::Begin | Statement::Commit => {
                Progress::new(alloc, statement, 0, base, budget, Phase::Ready, Reply::Ok)
            }
            Statement::Rollback => {
                Progress::new(
                    alloc,
                    statement,
                    0,
                    0,
                    budget,
                    Phase::RollingBack,
                    Reply::Ok,
                )
            }
            Statement::Refused(refusal) => {
                let reply = Reply::Err(*refusal);
                Progress::new(alloc, statement, 0, base, budget, Phase::Ready, reply)
            }
            Statement::Insert { .. }
            | Statement::Select { .. }
            | Statement::Update { .. }
            | Statement::Delete { .. } => start_at(alloc, statement, base, budget, place),
        }
    }
}
