//! Every event keeps a state in order, and so do all events of a run. Each law is a public function with an empty body.
#![tactic(auto)]

mod order;

pub use order::{law_events_stay_in_order, law_every_event_keeps};
