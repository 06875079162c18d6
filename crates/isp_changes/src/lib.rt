//! What a statement does on plain tables, as changes of single rows.
//!
//! Rows by their keys (`specs/Rows`); the changes of a statement, made one after another and put back (`specs/Changes`); and a
//! statement that goes on step by step, piece by piece and row by row, to what it does on plain tables or to a full file
//! (`specs/Stages`). The laws are public functions with empty bodies, each with its contract.
#![tactic(auto)]

mod changes;
mod rows;
mod stages;
mod tables;

pub use changes::{law_all_goes_back, law_does_by_changes, law_refused_leaves};
pub use rows::{
    law_keys_rise, law_rows_kept, law_rows_mapped, law_rows_with_new, law_rows_with_rows,
    law_same_rows,
};
pub use stages::{
    law_ends_as_done, law_reads_by_key, law_reads_in_pieces, law_steps_begin, law_steps_fall,
    law_steps_lead, law_steps_stand, law_worked_steps,
};
pub use tables::{law_change_in_tables, law_same_tables};
