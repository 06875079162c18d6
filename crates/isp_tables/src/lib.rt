//! The tables of a file: their definitions, as they are loaded, and a table that is made, over any store of pages.
//!
//! - `making`: a table's tree and its definition, made for good.
//! - `tables`: the definitions of a file's tables.
//! - `creating`: a table is made.
#![tactic(auto)]

mod creating;
mod making;
mod tables;

pub use creating::create;
pub use tables::Tables;
