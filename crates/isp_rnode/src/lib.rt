//! Nodes of R-trees as bytes: the one place where a page's bytes become a list of entries, and where a list of entries is
//! written into a page. What a node is stands in `isp_forest`; a page's bytes are read as they stand, so that nothing is
//! copied only to be looked at.
//!
//! - `reading`: whether a page can be read as a node, how many entries it has, and the entries.
//! - `whole`: whether a page is a node of a tree.
//! - `writing`: a page's entries are replaced.
//! - `choosing`: the subtree that a new entry goes to.
#![tactic(auto)]

mod choosing;
mod reading;
mod whole;
mod writing;

pub use choosing::{choose, choose_in};
pub use isp_forest::{Entry, Seen, To};
pub use reading::{entries, entry, entry_count, readable};
pub use whole::is_node;
pub use writing::set_entries;
