//! Pages of clustered trees in two, in memory: which rows of a leaf and which entries of a page above go to the right page, and
//! what stands then on both.
//!
//! - `packing`: content of pages that is put together.
//! - `halves`: a leaf in two.
//! - `entries`: a page above the leaves with one entry more, or in two; a root that is raised.
#![tactic(auto)]

mod entries;
mod halves;
mod packing;

pub use entries::{entry_halves, entry_put, moved, raised};
pub use halves::{Halves, halves_with};
