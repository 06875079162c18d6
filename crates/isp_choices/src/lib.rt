//! The choices of an event: of those that lead to different states there are finitely many.
#![tactic(auto)]

mod choices;

pub use choices::law_next_states_are_listed;
