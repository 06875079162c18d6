//! States of the page machine in order, and wrong ones, by computation: public functions with empty bodies.
#![tactic(auto)]

mod broken;
mod rested;

pub use broken::law_wrong_events_break;
pub use rested::{law_deadlock_is_in_order, law_five_points_are_in_order};
