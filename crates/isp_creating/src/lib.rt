//! Tables that are made in a file: the tree of a table without rows, and its definition, in one mini-transaction.
#![tactic(auto)]

mod creating;

pub use creating::create_table;
