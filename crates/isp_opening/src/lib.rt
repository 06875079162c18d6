//! A file opened after any stop: its page rules tested, its copies laid over their pages.
//!
//! - `rules`: the first three page rules, tested by reads.
//! - `opening`: the file opened.
#![tactic(auto)]

mod opening;
mod rules;

pub use opening::open;
