//! Clustered trees: the rows of a table, found by key. A row stands in a slot that may be longer than it, so that it can be
//! rewritten where it stands.
//!
//! - `kept`: what calls answer of a row.
//! - `leaves`: whole leaves, one after another.
//! - `reading`: the calls that look for a key.
//! - `writing`: the calls that change a tree.
#![tactic(auto)]

mod kept;
mod leaves;
mod reading;
mod writing;

pub use kept::{Kept, KeptRow, KeptRows, Leaf};
pub use leaves::next_leaf;
pub use reading::get;
pub use writing::{create, drop_marked, mark, put, rewrite};
