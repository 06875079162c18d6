//! The pages of undo chains in a store: the directory and a chain's pages read, each of them written, and the ways along a
//! chain. No call takes memory.
//!
//! - `reading`: what the directory and the pages of a chain say.
//! - `writing`: one page of a chain, or the directory.
//! - `walking`: the way back along a chain, over empty pages at its end.
//! - `counting`: the way on from its first page, and how many pages it has.
#![tactic(auto)]

mod counting;
mod reading;
mod walking;
mod writing;

pub use counting::{Place, count_pages};
pub use reading::{DIRECTORY, broken, is_begun, linked, read_slot, read_undo};
pub use walking::{Stop, last_used};
pub use writing::{cut_page, make_page, push_on, write_slot};
