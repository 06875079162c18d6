//! Pages are written in place only after copies of them are on the disk, so that a page that a stop tears is mended at
//! the next start (the MySQL 8.0 manual on the doublewrite buffer). The gate, one byte, says whether the copies count; it
//! and the order of the writes are this project's own.
//!
//! - `places`: what is written, and the gate.
//! - `batch`: pages are written by way of copies.
//! - `list`: the list of copies is read, and its rule tested.
//! - `restore`: copies that count are laid over their pages.
#![tactic(auto)]

mod batch;
mod list;
mod places;
mod restoring;

pub use batch::write_batch;
pub use list::check_copies;
pub use restoring::{Restored, restore};
