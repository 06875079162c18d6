//! What the program reads and how it finds rows is what the page machine asks for.
#![tactic(auto)]

mod ways;

pub use ways::{law_language_is_servable, law_ways_are_sound};
