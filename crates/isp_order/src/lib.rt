//! A state of the page machine that is in order: all that every event keeps.
//!
//! - `Trees`: trees, rows, and the status of entries.
//! - `Locks`: locks, sessions that do nothing, and waits.
//! - `Searches`: what searches see and know, and whose they are.
//! - `Work`: what statements have locked, read, changed and placed, up to where they stand.
//! - `InOrder`: all of it, clause by clause, and a rested state.
#![tactic(auto)]

mod rested;

pub use rested::law_rested_is_in_order;
