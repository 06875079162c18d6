//! What an insert makes of the pages of its path, worked out before any of them changes: which pages overflow, how each of them
//! is divided, and what box goes up from it. It works on lists of entries alone and takes all the memory that an insert needs.
//!
//! - `steps`: the pages of a path, and what is made of each.
//! - `planning`: the plan.
//! - `boxes`: the boxes of entries.
//! - `laws`: there is one plan, and it divides exactly the pages that overflow.
#![tactic(auto)]

mod boxes;
mod laws;
mod planning;
mod steps;

pub use boxes::{least, widen};
pub use laws::{law_one_plan, law_plan_divides};
pub use planning::plan;
pub use steps::{Carry, Moves, NodeHead, PathPage, Planned};
