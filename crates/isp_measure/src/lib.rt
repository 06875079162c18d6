//! How far a state of the page machine is from its end: a list of numbers, compared from the first on.
#![tactic(auto)]

mod measure;

pub use measure::law_order_is_well_founded;
