//! The laws of the page machine, each a public function with an empty body whose contract is the law.
//!
//! - `events`: runs and sequences of events, what an event tells, and whom an entry waits for.
//! - `serial`: answers that are serial by computation.
#![tactic(auto)]

mod events;
mod serial;

pub use events::{
    law_events_join, law_lists_percolating, law_names_who_is_in_the_way, law_next_is_told,
    law_places_undisturbing, law_run_is_events, law_stands_is_decided,
};
pub use serial::law_serial_computes;
