//! What a statement means on the tables that are there: its static refusals in their order, and the statement on the
//! columns' numbers.
//!
//! A statement as it is written is bound to the names and columns of tables (`binder`, with `creating` for a new table
//! and `literal` for values). The first cause there is refuses it (`refusal`). `meaning` does the same with a text.
#![tactic(auto)]

mod binder;
mod columns;
mod creating;
mod each;
mod laws;
mod literal;
mod meaning;
mod number;
mod refusal;

pub use binder::bind;
pub use laws::{law_bound_fits, law_whole_is_faithful};
pub use meaning::meaning_of;
