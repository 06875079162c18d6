//! What the pages of a file stand for: definitions, and laws about them.
//!
//! `specs/` reads from the contents of all pages the tables of the catalogue with their trees and
//! rows, and says when a file is kept. `Databases` has the value, with the old rows that unfinished
//! transactions noted, and the tables that are committed; `Files` says that contents are such a
//! value, with one owner a page, but for the pages of undo chains; `Courses` says what changes of it
//! in one step; `Laws` what such a step leaves.
#![tactic(auto)]

mod laws;

pub use laws::{law_dropping_keeps, law_kept_is_local, law_set_back_is_old};
