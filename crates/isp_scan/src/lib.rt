//! What a statement reads of a table, piece by piece, and the rows that it writes.
//!
//! - `condition`, `sets`, `cut`: of which rows a condition holds, what UPDATE puts into a row, and the columns that SELECT names.
//! - `rows`: a row's key, its bytes, and the rows of UPDATE.
//! - `held`, `finding`: the rows of a leaf of which a condition holds, and what a statement finds among them.
//! - `leaves`, `keyed`: a table leaf by leaf, and the row that a condition names by its key.
//! - `looking`: whether a key is taken.
#![tactic(auto)]

mod condition;
mod cut;
mod finding;
mod held;
mod keyed;
mod leaves;
mod looking;
mod rows;
mod sets;

pub use keyed::{named_key, read_key};
pub use leaves::{LeafFound, read_leaf};
pub use looking::is_taken;
pub use rows::{key_of, spell};
