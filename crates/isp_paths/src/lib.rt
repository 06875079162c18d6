//! The ways to the rows of a condition, and the law that each reaches every row of which the condition holds.
//!
//! `access` says of a bound statement how its rows are found: by their key, by a search of a column's tree, or by going
//! over all rows. What the condition says besides is asked of each row that is found.
#![tactic(auto)]

mod access;
mod laws;

pub use access::{Path, path_of};
pub use laws::law_paths_reach;
