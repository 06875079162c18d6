//! What the texts of statements put into a file: the rows of INSERT and UPDATE are rows of their table, with a spelling, and the
//! tables of CREATE are within the limits of a definition. Each law is a public function with an empty body whose contract is
//! the law.
#![tactic(auto)]

mod laws;

pub use laws::{
    law_create_in_setup, law_create_makes_table, law_insert_puts_rows, law_named_stands,
    law_update_sets_rows,
};
