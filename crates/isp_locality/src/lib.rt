//! Statements and transactions that have nothing to do with some keys.
//!
//! Two lists of tables may agree but at some keys (`specs/Apart`); a statement that reads and writes other rows alone answers the
//! same on both, and so does a transaction that is done again. Each law is a public function with an empty body.
#![tactic(auto)]

mod local;

pub use local::{law_answers_are_framed, law_replays_are_framed, law_statements_are_local};
