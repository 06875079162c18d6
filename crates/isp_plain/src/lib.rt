//! The plain model of the database.
//!
//! Tables are lists of rows by key, with no page, tree, lock or log: what a statement does on them (`specs/Does`) is
//! what the engine has to do, and what it is answered has a text (`specs/Texts`). `Plain` runs statements on such tables,
//! in memory.
#![tactic(auto)]

mod condition;
mod defined;
mod entries;
mod laws;
mod plain;
mod refusal;
mod select;
mod sets;
mod size;
mod statement;
mod table;
mod update;
mod value;

pub use defined::Defined;
pub use laws::law_replies_are_lines;
pub use plain::Plain;
pub use refusal::Refusal;
pub use size::row_size;
pub use statement::{Assign, Atom, Atoms, Condition, Indices, Op, Reply, Rows, Sets, Statement};
pub use table::PlainTable;
pub use value::{Column, Columns, Kind, Row, Schema, Value, Values, box_of};
