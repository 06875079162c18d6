//! A store of pages that survive: `Pages` over a file with a redo log and a doublewrite area.
#![tactic(auto)]

mod changing;
mod cleaning;
mod finishing;
mod logging;
mod reading;
mod starting;
mod store;

pub use store::Store;
