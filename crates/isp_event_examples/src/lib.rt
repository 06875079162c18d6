//! Runs of the page machine by computation, and what wrong machines answer: public functions with empty bodies.
//!
//! A language of numbered statements and a table of points are enough: what a statement is read from plays no part here.
//!
//! - `worked`: runs turn by turn, and a path that doesn't stand.
//! - `wrong`: machines with the function of one event exchanged, whose answers are not serial.
#![tactic(auto)]

mod worked;
mod wrong;

pub use worked::{
    law_deadlock_fits, law_deleting_fits, law_further_runs_fit, law_language_fits,
    law_percolation_stops, law_right_answers_agree, law_split_overtakes, law_stale_fits,
};
pub use wrong::law_wrong_machines_disagree;
