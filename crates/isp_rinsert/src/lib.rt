//! An insert into an R-tree on pages (Guttman 1984), whose divided pages are found by the sequence numbers and right links that
//! they get (Kornacker, Mohan and Hellerstein 1997). First the pages of the path are read and all is planned on lists, with all
//! memory that it needs; then pages are taken and written, which fails by the disk alone.
//!
//! - `way`: the pages of a path are read.
//! - `preparing`: the insert is planned.
//! - `taking`: pages are taken.
//! - `writing`: pages are written.
//! - `inserting`: the call.
#![tactic(auto)]

mod inserting;
mod preparing;
mod taking;
mod way;
mod writing;

pub use inserting::{Changes, insert};
pub use isp_rsettle::{Parted, Raised};
pub use isp_rtree::Growth;
