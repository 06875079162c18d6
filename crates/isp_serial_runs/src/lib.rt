//! Every run of the page machine is serial.
#![tactic(auto)]

mod runs;

pub use runs::{
    law_events_are_guarded, law_events_are_serial, law_events_compute, law_run_is_serial,
    law_run_leaves_rows,
};
