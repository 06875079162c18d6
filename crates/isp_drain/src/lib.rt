//! Every drain of the page machine ends. Each law is a public function with an empty body.
#![tactic(auto)]

mod drain;

pub use drain::{
    law_drain_ends, law_each_round_lowers, law_events_end, law_rounds_end, law_somebody_is_awake,
};
