//! What every event keeps of rows and of their entries in trees, each law a public function with an empty body.
#![tactic(auto)]

mod entries;

pub use entries::{law_entered_kept, law_numbered_kept, law_restorable_kept};
