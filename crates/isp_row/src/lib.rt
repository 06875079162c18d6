//! Rows as bytes.
//!
//! A row of a table is the numbers of its entries in R-trees and its values, spelled one behind the other (`specs/RowSpelling`).
//! Each row with its numbers has one spelling, `to_row`, and `from_row` reads these spellings and nothing else.
#![tactic(auto)]

mod cursor;
mod error;
mod laws;
mod reading;
mod sizing;
mod writing;

pub use error::RowError;
pub use laws::{law_bytes_are_one_row, law_row_is_one_spelling};
pub use reading::from_row;
pub use sizing::size;
pub use writing::to_row;
