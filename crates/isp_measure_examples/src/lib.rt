//! The measure along a run of the page machine, and one that counts more undo entries, by computation: public functions with empty bodies.
#![tactic(auto)]

mod falling;
mod other;

pub use falling::law_overtaking_falls;
pub use other::law_undo_counted_is_no_measure;
