//! What lines tell of waits and deadlocks. Each law is a public function with an empty body.
#![tactic(auto)]

mod lines;

pub use lines::{
    law_answers_are_numbered, law_deadlocks_are_least, law_lines_tell_who_waits,
    law_no_cycle_is_told, law_victims_are_answered, law_victims_are_named,
};
