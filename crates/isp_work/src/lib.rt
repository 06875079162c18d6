//! A statement that goes on step by step, as a value in memory.
//!
//! Of each step it is told what was found, and turns to the next: a table is made, a leaf read, a key looked up, a row written, or
//! the newest change taken back, until it is ready and has its answer. Its steps are those of a stage of plain tables
//! (`specs/Works`, `proofs/StageLaws`). What a step finds is read from pages by others.
//!
//! - `phase`, `found`: what comes next, and what a step finds.
//! - `progress`: a statement on its way; `starting`: how it begins.
#![tactic(auto)]

mod found;
mod phase;
mod progress;
mod starting;

pub use found::{Changed, Found, Looked};
pub use phase::Phase;
pub use progress::Progress;
