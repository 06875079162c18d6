//! What sessions are told fits the script, and a run is events one after another.
#![tactic(auto)]

mod fits;

pub use fits::{law_events_fit, law_runs_fit, law_runs_lead};
