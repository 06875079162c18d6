//! Rows of a file's tables are written, and what was written is taken back, over any store of pages.
//!
//! - `writing`: a row is written, or found to have no room.
//! - `undoing`: the newest change of a transaction is taken back.
#![tactic(auto)]

mod undoing;
mod writing;

pub use undoing::undo_newest;
pub use writing::write_row;
