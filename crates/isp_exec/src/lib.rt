//! Statements on the tables of a file, as values that go on by one event a step, over any store of pages.
//!
//! A statement in memory is `Progress` of isp_work. A step of it makes a table, reads one leaf or the row of one key, writes one row, or
//! takes one change back; then the statement stands, and goes on when it is asked again, until it is ready with its answer.
//! `specs/Standing` says where it stands on the file's database, `specs/Events` what a step is.
//!
//! - `context`, `step`: what a statement works on, and what a step answers.
//! - `work`: a statement as a value, how it begins, and its steps.
//! - `stepping`: one step of each phase; `reading`, `changing`: what it reads, and what it writes.
#![tactic(auto)]

mod changing;
mod context;
mod reading;
mod step;
mod stepping;
mod work;

pub use context::Context;
pub use step::Step;
pub use work::Work;
