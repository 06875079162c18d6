//! Clustered trees that grow: a row is put into a leaf that has no room for it.
//!
//! - `dividing`: the leaf of the key, in two.
//! - `path`: the way down to it, with the page of each level.
//! - `rising`: the way up, on which pages are divided that have no room for one more entry.
#![tactic(auto)]

mod dividing;
mod path;
mod rising;

pub use dividing::put_divided;
