//! Pages of a file: the calls by which trees read and change them in mini-transactions. Everything above `Pages` knows pages
//! and no file; everything below it knows bytes and no table.
//!
//! - `fault`: why a call of a store of pages fails.
//! - `pages`: the trait `Pages`.
//! - `replacing`: `replace`, by which everything above changes a page.
//! - `mem_pages`: pages in memory, which meet it.
#![tactic(auto)]

mod fault;
mod mem_pages;
mod pages;
mod replacing;
mod trial;

pub use fault::{Fault, StoreFault};
pub use mem_pages::MemPages;
pub use pages::{MOST_CHANGED, Pages};
pub use replacing::replace;
