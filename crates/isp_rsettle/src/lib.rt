//! A plan of an insert once the numbers of its new entry and its new pages are known: what stands on each page afterwards, as
//! lists. `specs/Placed` says that these pages, over the tree's old ones, are those of the tree in which the entry was placed.
//!
//! - `outcome`: what a plan comes to, and room for it.
//! - `settling`: the plan is settled.
//! - `laws`: what the settled pages are.
#![tactic(auto)]

mod laws;
mod outcome;
mod settling;

pub use laws::law_settles;
pub use outcome::{Outcome, Parted, Raised, Room, Settled};
pub use settling::{pages_needed, settle};
