//! What every event keeps of whose searches they are, as a public function with an empty body.
#![tactic(auto)]

mod searches;

pub use searches::law_belongs_kept;
