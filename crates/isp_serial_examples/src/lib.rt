//! The theorem at a run of the page machine, and what it needs, by computation: public functions with empty bodies.
#![tactic(auto)]

mod needed;
mod served;

pub use needed::{law_known_is_needed, law_rests_is_needed};
pub use served::{law_overtaking_is_serial, law_wrong_answers_are_none};
