//! Each event of the page machine, but a flush and a list of the locks, lowers the measure.
#![tactic(auto)]

mod measure;
mod visit;

pub use measure::law_each_event_lowers;
pub use visit::law_visit_comes_on;
