//! Stable storage: a file of pages with its redo log, of which each stop leaves contents that are known.
//!
//! - `stable`: the file between two calls, and the calls that read and write it.
#![tactic(auto)]

mod stable;

pub use stable::Stable;
