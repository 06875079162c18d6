//! Clustered trees as levels: pages above the leaves, and the way down to the leaf of a key.
//!
//! - `inner`: entries in the bytes of a page above the leaves.
//! - `walk`: the way down.
#![tactic(auto)]

mod inner;
mod walk;

pub use inner::{count_of, is_from};
pub use walk::{MOST_LEVELS, broken, child_for, height_of, leaf_for};
