//! Whatever the sessions do, in whatever order: what they are told is what they would be told one transaction after another.
#![tactic(auto)]

mod events;

pub use events::{law_events_are_replayed, law_events_tell};
