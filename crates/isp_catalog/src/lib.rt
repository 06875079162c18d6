//! The catalogue of a file: the definitions of its tables, on pages 2 to 15.
//!
//! A definition is a table's name, its columns and the pages of its roots (`specs/Catalogue`). `load` reads them all, `add` writes
//! one behind the last.
//!
//! - `table`: a definition as a value.
//! - `limits`: the limits that a definition's columns keep.
//! - `reading`, `loading`: a definition from the bytes of its page, and all of them.
//! - `spelling`, `adding`: a definition into the bytes of its page, and one more.
#![tactic(auto)]

mod adding;
mod laws;
mod limits;
mod loading;
mod reading;
mod spelling;
mod table;
mod unread;

pub use adding::add;
pub use laws::{law_catalogue_is_local, law_catalogue_is_one, law_tables_are_one};
pub use loading::load;
pub use table::TableDef;
