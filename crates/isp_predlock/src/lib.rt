//! Predicate locks on the pages of R-trees (Kornacker, Mohan and Hellerstein 1997): which search is on which page, so that an
//! entry is tested against exactly the searches whose area it would enter.
//!
//! A search is begun and then attached to the pages that it visits. Where an entry is placed, searches percolate down its path
//! and are copied to new pages. They stay until their session releases them all. No page is read here.
//!
//! - `entries`: what a search is, and what is told of it.
//! - `table`: the table, in which searches begin and are attached.
//! - `releasing`: what goes with a session's searches.
//! - `listing`: the searches on a page, and those of a session.
//! - `entering`: the searches that percolate down a path, and those that are copied to a page.
//! - `testing`: the searches that an entry is tested against, and those that stand in its way.
//! - `laws`: that this is what the machine's steps say.
#![tactic(auto)]

mod entering;
mod entries;
mod laws;
mod listing;
mod releasing;
mod table;
mod testing;

pub use entries::{Growing, On, Percolation, Placing, SearchId, Sought};
pub use isp_base::PageNo;
pub use isp_mbr::{Box4, Predicate, Test};
pub use laws::{
    law_copies_are_alike, law_order_leaves_percolation, law_other_trees_stay_out,
    law_percolates_on_path, law_percolating_is_let_in, law_tested_on_path,
};
pub use table::PredLocks;
