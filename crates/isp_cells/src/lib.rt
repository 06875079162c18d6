//! Rows on a leaf of a clustered tree. A row stands in a slot that may be longer than it, so that it can be rewritten where it
//! stands.
//!
//! - `leaf`: what the header of a leaf says.
//! - `cells`: rows in the bytes of a leaf, and where they stand.
//! - `edits`: a leaf with one row exchanged.
#![tactic(auto)]

mod cells;
mod edits;
mod leaf;

pub use cells::{Cell, Place, cell_at, piece, place_of};
pub use edits::{count_with, drop_in, is_room, mark_in, place_end, put_in, rewrite_in, spelled};
pub use leaf::leaf_end;
