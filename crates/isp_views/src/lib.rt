//! What is committed and what sessions see, and which events leave it.
//!
//! The words are in `specs/Views`; each law is a public function with an empty body.
#![tactic(auto)]

mod views;

pub use views::law_states_are_shown;
