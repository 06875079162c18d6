//! Answers, as plain tables would give them.
#![tactic(auto)]

mod answers;

pub use answers::law_answers_are_true;
