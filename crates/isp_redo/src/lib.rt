//! The redo log of a file: batches of mini-transactions, each behind a gate byte that is opened once its body is on the
//! disk. What was appended is never half there: the log is whole up to its first closed gate, whatever a stop left behind
//! it.
#![tactic(auto)]

mod fields;
mod laws;
mod log;
mod ranges;
mod scan;
mod write;

pub use laws::{law_all_ranges_lie_ahead, law_one_log};
pub use log::Log;
pub use ranges::{LogRange, read_range};
