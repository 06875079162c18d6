//! The page machine: all that sessions do to tables, trees, locks and searches, event by event, as lists.
//!
//! It has no code. Its definitions stand in `specs/`; the laws of them in `isp_event_laws`, computed runs and wrong machines in
//! `isp_event_examples`.
//!
//! - `Stored`, `Sessions`, `State`: tables as they are kept, what is known of a session, and the state of all.
//! - `Views`: the tables that are committed, and those that a session sees.
//! - `Ways`: the parameters: what texts mean, and how a condition's rows are found.
//! - `Next`: which event of a session comes next.
//! - `Asking`, `Reading`, `Placing`, `Writing`, `Ending`, `Deadlocks`, `Purging`: what each event does.
//! - `Lines`: what an event tells, as data; the answers and the waits that lines tell.
//! - `Events`, `Runs`: which lines lead from which state to which, and the turns of a schedule.
#![tactic(auto)]
