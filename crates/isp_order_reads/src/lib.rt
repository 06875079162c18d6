//! What every event keeps of what statements have found and read, each law a public function with an empty body.
#![tactic(auto)]

mod reads;

pub use reads::{law_keys_kept, law_scanned_kept, law_standing_kept};
