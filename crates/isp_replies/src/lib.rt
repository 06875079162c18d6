//! Why an answer comes next of a session, read back from what the machine computes.
#![tactic(auto)]

mod replies;

pub use replies::law_next_has_reason;
