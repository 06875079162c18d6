//! Which of a few things was used how long ago: a list of distinct numbers, the last used first.
//!
//! The numbers are those of the frames of a buffer pool, which evicts from the end of the list. All memory is taken when the
//! list is made.
#![tactic(auto)]

mod list;

pub use list::Recency;
