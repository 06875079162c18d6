//! What holds of every kept file.
//!
//! Its tables as plain tables: texts stand on one line, keys rise, each row stands at its own key; so it is of the committed ones.
//! Rows by key: what a call of a tree answers, and the row of the plain table. And an empty file is kept and has no table. Each
//! law is a public function with an empty body whose contract is the law.
#![tactic(auto)]

mod empty;
mod keys;
mod tables;

pub use empty::{law_empty_is_kept, law_empty_stands_for_none};
pub use keys::{law_get_sees_row, law_row_is_seen, law_row_stands, law_rows_are_short};
pub use tables::{
    law_committed_is_plain, law_kept_is_plain, law_shown_are_rows, law_tables_are_defined,
};
