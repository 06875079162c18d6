//! The redo log put into the pages of a file that was opened.
//!
//! - `fault`: why that isn't done.
//! - `putting`: one range of the log put into its page.
//! - `replaying`: all of them, until the log is empty.
#![tactic(auto)]

mod fault;
mod putting;
mod replaying;

pub use replaying::replay;
