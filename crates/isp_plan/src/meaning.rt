//! What the texts of statements mean.

ghost use Rattle.std.specs.Prelude.{◌≡◌, IfOk, map};
ghost use Rattle.isp_plan.specs.Meaning.{meaning};

use crate::binder::bind;
use isp_plain::{Defined, Refusal, Statement};
use isp_serial::Place;
use isp_sql::{SqlError, parse};
use std::alloc::{AllocError, Global};

/// The statement that the text means at this place on tables of these names and columns: what `bind` answers of the
/// statement that it is, and the refusal 1064 where it is none. The error is want of memory.
#[tactic(auto, unfolding(crate::specs::Meaning::meaning))]
pub fn meaning_of<T: Defined>(
    alloc: Global,
    tables: &[T],
    place: Place,
    text: &[u8],
) -> Result<Statement, AllocError>
    ensures { IfOk result (λ s. s ≡ meaning (map T.definition tables.now) place text.now) }
{
    match parse(alloc, text) {
        Ok(p) => bind(alloc, tables, &p, place),
        Err(SqlError::Syntax) => Ok(Statement::Refused(Refusal::Syntax)),
        Err(SqlError::OutOfMemory) => Err(AllocError),
    }
}
