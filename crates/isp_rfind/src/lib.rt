//! The leaf of an R-tree on pages that has an entry, looked for from the root down (Guttman 1984): the visits of a search for
//! the entry's box, over a tree that stays meanwhile.
//!
//! - `finding`: the leaf that has it.
//! - `pending`: pages that are still to be read.
#![tactic(auto)]

mod finding;
mod pending;

pub use finding::find;
