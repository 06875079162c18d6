//! Who waits for whom: the wait graph of the sessions, its cycles and their victims.
//!
//! Sessions have the numbers 0 to 16. Each has a list of the sessions that it waits for, of at most 17 places in the value
//! itself, so no call takes memory and each answers always. A deadlock is a cycle of the graph; the one that is told is the
//! shortest through the session that began to wait last, found by a search in breadth.
//!
//! - `graph`: the lists.
//! - `cycles`: the search for a cycle.
//! - `victims`: which member of a cycle gives way.
#![tactic(auto)]

mod cycles;
mod graph;
mod victims;

pub use graph::{Cycle, Waits};
pub use victims::victim;
